//! What margins come to.

ghost use Rattle.reason_notes.specs.Margins.Margin.{MarginsDecide};

/// An act was timely exactly where its margin says so, and its margin decides nothing exactly where no covered day ends the time.
pub fn margins_decide()
    ensures { MarginsDecide }
{}
