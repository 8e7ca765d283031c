//! Laws of the definitions, the contracts of functions that do nothing.
ghost use Rattle.desk_register.specs.Shifts.{OthersAreToldTheirAnswers, RefusedAreToldTheirAnswers};
ghost use Rattle.desk_register.specs.Laws.{ACaseKeepsItsNumber, ACaseNumberIsOneCase, AStruckRowIsLeftOut, FaultlessLinesSayRows, OtherLinesAreReadAsTheyAre, RowsKeepTheirNumbers, WhatIsLeftFollows, WhatIsLeftIsHistory};

/// What a line leaves may follow when the journal is opened again, and is no court's file, no strike and no restore.
#[tactic(auto, using(crate::proofs::EntryLemmas::left_follows))]
pub fn what_is_left_follows()
    ensures { WhatIsLeftFollows }
{}

/// What lines leave after a history is a history with it, and the same stands after them.
#[tactic(auto, using(crate::proofs::HistoryLemmas::left_history))]
pub fn what_is_left_is_history()
    ensures { WhatIsLeftIsHistory }
{}

/// Lines in which no fault is found are blank, or say rows, or name a deadline or a motion without its number.
#[tactic(auto, using(crate::proofs::LineFaultLemmas::faultless_lines_say_rows_lem))]
pub fn faultless_lines_say_rows()
    ensures { FaultlessLinesSayRows }
{}

/// After any entries no two names have one number, and no two have one key.
#[tactic(auto, using(crate::proofs::CaseLemmas::one_case))]
pub fn a_case_number_is_one_case()
    ensures { ACaseNumberIsOneCase }
{}

/// A line that says a row, or has another fault than in its third or its fourth field, is read as it is.
#[tactic(auto, using(crate::proofs::CaseLemmas::other_lines))]
pub fn other_lines_are_read_as_they_are()
    ensures { OtherLinesAreReadAsTheyAre }
{}

/// A row that is struck changes nothing of what is docketed.
pub fn a_struck_row_is_left_out()
    ensures { AStruckRowIsLeftOut }
{}

/// A case keeps its number and its name, whatever is struck or restored.
pub fn a_case_keeps_its_number()
    ensures { ACaseKeepsItsNumber }
{}

/// Each row has the number that it keeps, whatever is struck and whichever court's file stands.
#[tactic(auto, using(crate::proofs::GivenLemmas::rows_keep))]
pub fn rows_keep_their_numbers()
    ensures { RowsKeepTheirNumbers }
{}

/// A line whose row enters no holiday and no outage, or which says no row, gets its answer alone.
#[tactic(auto, using(crate::proofs::ShiftLemmas::others_told))]
pub fn others_are_told_their_answers()
    ensures { OthersAreToldTheirAnswers }
{}

/// A row that is refused gets its answer alone.
#[tactic(auto, using(crate::proofs::ShiftLemmas::refused_told))]
pub fn refused_are_told_their_answers()
    ensures { RefusedAreToldTheirAnswers }
{}
