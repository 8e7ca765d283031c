//! Laws of the definitions, the contracts of functions that do nothing.
ghost use Rattle.office_texts.specs.Named.Laws.{WithoutNamesAsBefore};

/// Where no case has a name, a reply is written as clerk_office writes it.
#[tactic(auto, using(crate::proofs::NamedLemmas::PlainLemmas::without_names_as_before_lem))]
pub fn without_names_as_before()
    ensures { WithoutNamesAsBefore }
{}
