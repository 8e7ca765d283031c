//! Laws of the definitions, the contracts of functions that do nothing.
ghost use Rattle.desk_entries.specs.Reported.{ReportsAreOfTheDocket};
ghost use Rattle.desk_entries.specs.Follow.{GoingOnIsOpeningAnew};
ghost use Rattle.desk_entries.specs.Laws.{ARestoreLeavesTheDocket, AnAnswerShowsItsNumber, AnswersAreTheRuns, RowsAreWrittenAsTheyAre};

/// With nothing struck, the answers to lines that have no fault, one by one, are those that a run of clerk_office writes of their
/// rows together.
#[tactic(auto, using(crate::proofs::RunLemmas::answers_are_the_runs_lem))]
pub fn answers_are_the_runs()
    ensures { AnswersAreTheRuns }
{}

/// A row that is struck and then restored leaves the docket as it was, with the numbers of its deadlines and motions.
pub fn a_restore_leaves_the_docket()
    ensures { ARestoreLeavesTheDocket }
{}

/// With nothing struck, each row is written for other programs as it is in its entry.
#[tactic(auto, using(crate::proofs::ExportLemmas::rows_as_they_are))]
pub fn rows_are_written_as_they_are()
    ensures { RowsAreWrittenAsTheyAre }
{}

/// An answer shows the number that its row keeps, or else the new one that is noted of it.
#[tactic(auto, using(crate::proofs::PlaceLemmas::shows_its_number))]
pub fn an_answer_shows_its_number()
    ensures { AnAnswerShowsItsNumber }
{}

/// What the rows that reports are made of docket is the docket that stands.
#[tactic(auto, using(crate::proofs::ReportedLemmas::of_the_docket))]
pub fn reports_are_of_the_docket()
    ensures { ReportsAreOfTheDocket }
{}

/// A docket that goes on with later entries stands for the same as one that is made of all entries anew.
#[tactic(auto, using(crate::proofs::FollowLemmas::going_on))]
pub fn going_on_is_opening_anew()
    ensures { GoingOnIsOpeningAnew }
{}
