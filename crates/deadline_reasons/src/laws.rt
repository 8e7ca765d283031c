//! What the definition of a derivation comes to.

ghost use Rattle.deadline_reasons.specs.Derivation.{DeadlinesHaveOneDerivation, DerivationsEndInWhatIsShown};

/// Whatever reasons are a derivation for a deadline, they end in what is shown of it, so that whoever checks each step
/// needs to believe nothing of how the deadline was computed.
pub fn derivations_end_in_what_is_shown()
    ensures { DerivationsEndInWhatIsShown }
{}

/// A deadline has one derivation, so its reasons are determined by the deadline and the days alone.
pub fn deadlines_have_one_derivation()
    ensures { DeadlinesHaveOneDerivation }
{}
