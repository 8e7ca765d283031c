//! Laws of the definitions, the contracts of functions that do nothing.
ghost use Rattle.office_texts.specs.Names.Laws.{WithoutNamesAsNumbers};

/// Where no case has a name, each is called by its number.
#[tactic(auto, using(crate::proofs::NamesLemmas::NumberLemmas::without_names_as_numbers_lem))]
pub fn without_names_as_numbers()
    ensures { WithoutNamesAsNumbers }
{}
