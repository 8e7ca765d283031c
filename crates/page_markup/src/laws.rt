//! What escaping comes to.

ghost use Rattle.page_markup.specs.Escaping.{EscapedIsPlain, EscapedReadsBack};

/// Reading an escaped text gives the text.
#[tactic(auto, using(crate::proofs::EscapingLemmas::reads_back))]
pub fn escaped_reads_back()
    ensures { EscapedReadsBack }
{}

/// An escaped text has no tag and no quote of its own, and each `&` in it begins a reference.
#[tactic(auto, using(crate::proofs::EscapingLemmas::is_plain))]
pub fn escaped_is_plain()
    ensures { EscapedIsPlain }
{}
