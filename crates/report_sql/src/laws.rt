//! What quoting comes to.

ghost use Rattle.report_sql.specs.Literals.{QuotedReadsBack};

/// A text that is quoted is read back, and nothing of what comes after it is.
#[tactic(auto, using(crate::proofs::LiteralLemmas::reads_back))]
pub fn quoted_reads_back()
    ensures { QuotedReadsBack }
{}
