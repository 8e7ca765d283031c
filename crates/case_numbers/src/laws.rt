//! Laws of the definitions, the contracts of functions that do nothing.
ghost use Rattle.case_numbers.specs.Laws.{KeysTellCasesApart, NamesStayApart, ShownIsReadBack, SpellingsAreRead};

/// A case number as it is shown is read as itself.
#[tactic(auto, using(crate::proofs::ShownLemmas::shown_is_read_back_lem))]
pub fn shown_is_read_back()
    ensures { ShownIsReadBack }
{}

/// In whichever form a case number is written, it is read as that number.
pub fn spellings_are_read()
    ensures { SpellingsAreRead }
{}

/// Two case numbers have one key exactly if they are of the same case.
pub fn keys_tell_cases_apart()
    ensures { KeysTellCasesApart }
{}

/// However many cases are opened, their names stay apart.
#[tactic(auto, using(crate::proofs::ApartLemmas::names_stay_apart_lem))]
pub fn names_stay_apart()
    ensures { NamesStayApart }
{}
