//! Laws of the definitions, each the contract of a function that does nothing.
ghost use Rattle.desk_journal.specs.Batches.{TimesNeverGoBack};
ghost use Rattle.desk_journal.specs.Damage.{CutFilesKeepTheFirst, NoByteChangesAStamp, NoByteHidesAnEntry, NoEntryIsAnother};
ghost use Rattle.desk_journal.specs.Frames.{HaveOneListOfStamps, StandForOneList};

/// A file stands for at most one list of entries.
#[tactic(auto, using(crate::proofs::OneList::one_list))]
pub fn stands_for_one_list()
    ensures { StandForOneList }
{}

/// A file has at most one list of stamps.
#[tactic(auto, using(crate::proofs::OneList::one_list_of_stamps))]
pub fn has_one_list_of_stamps()
    ensures { HaveOneListOfStamps }
{}

/// Where one byte of a file is changed and entries are read from it, they are the first of those that it had, or those and
/// what comes after them, unless two texts have the same SHA-256.
#[tactic(auto, using(crate::proofs::DamageLemmas::no_entry_is_another))]
pub fn no_entry_is_another()
    ensures { NoEntryIsAnother }
{}

/// Where one byte of a file is changed that a session left, and entries are read from it, they are those that it had, unless two texts
/// have the same SHA-256.
#[tactic(auto, using(crate::proofs::HiddenLemmas::no_byte_hides_an_entry))]
pub fn no_byte_hides_an_entry()
    ensures { NoByteHidesAnEntry }
{}

/// The same of the stamps: where entries and their stamps are read from such a file, they are those that it had.
#[tactic(auto, using(crate::proofs::HiddenLemmas::no_byte_changes_a_stamp))]
pub fn no_byte_changes_a_stamp()
    ensures { NoByteChangesAStamp }
{}

/// Where a file was cut and entries are read from it, they are the first of those that it had.
#[tactic(auto, using(crate::proofs::DamageLemmas::cut_files_keep_the_first))]
pub fn cut_files_keep_the_first()
    ensures { CutFilesKeepTheFirst }
{}

/// Where the times of entries never go back, and a batch gets a stamp that isn't before the last of them, the times of all of them never
/// go back.
#[tactic(auto, using(crate::proofs::StampLemmas::times_never_go_back))]
pub fn times_never_go_back()
    ensures { TimesNeverGoBack }
{}
