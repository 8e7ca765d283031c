//! The line of what is shown otherwise.
ghost use Rattle.std.specs.Prelude.{◌≡◌, OnOk};
ghost use Rattle.office_texts.specs.Words.{AddsText};
ghost use Rattle.docket_shifts.specs.Line.{counted_word, shift_line, subject_text};

use case_numbers::{Cases, push_case_text};
use docket_rows::Counted;
use std::alloc::AllocError;
use std::fmt::Write;

// What it is that is counted.
fn counted_word(counted: Counted) -> &'static str
    ensures { result.now ≡ counted_word counted }
{
    match counted {
        Counted::Deadline => "deadline",
        Counted::Motion => "motion",
    }
}

// Adds the deadline or the motion of a case.
fn push_subject(
    text: &mut String,
    cases: &Cases,
    case: u32,
    counted: Counted,
    number: u32,
) -> Result<(), AllocError>
    ensures { OnOk result (AddsText text.old text.new (subject_text cases.now.named case counted number)) }
{
    text.push_str("case ")?;
    push_case_text(text, cases, case)?;
    text.push_str(" ")?;
    text.push_str(counted_word(counted))?;
    write!(text, " {number}")
}

/// Adds the line of a deadline or a motion of which this was shown, and now that; none where both are alike. `Err` says that
/// memory ran out.
pub fn push_shift(
    text: &mut String,
    cases: &Cases,
    case: u32,
    counted: Counted,
    number: u32,
    was: &str,
    is: &str,
) -> Result<(), AllocError>
    ensures { OnOk result (AddsText text.old text.new (shift_line cases.now.named case counted number was.now is.now)) }
{
    if was == is {
        return Ok(());
    }
    text.push_str("  ")?;
    push_subject(text, cases, case, counted, number)?;
    write!(text, ": {was}, now {is}\n")
}
