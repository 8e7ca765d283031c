//! What the definitions of the input mean, in words that don't go byte by byte.

ghost use Rattle.program_runs.specs.Divider.{FirstDividerDivides};

/// The court's file is what comes before the first line `%%`, and the rows are what comes after it. Where no
/// line is that, all is the court's file.
pub fn first_divider_divides()
    ensures { FirstDividerDivides }
{}
