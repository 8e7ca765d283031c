//! The line of a case that is open in one docket alone, or was filed on another day.
ghost use Rattle.std.specs.Prelude.{OnOk};
ghost use Rattle.office_texts.specs.Words.{AddsText};
ghost use Rattle.docket_shifts.specs.Filed.{closed_line, filed_again_line, filed_line, opened_line, opened_words};

use case_numbers::{Cases, push_case_text};
use court_clock::Day;
use std::alloc::AllocError;
use std::fmt::Write;

// Adds the line of a case that isn't open any more.
fn push_closed(text: &mut String, cases: &Cases, case: u32, was: Day) -> Result<(), AllocError>
    ensures { OnOk result (AddsText text.old text.new (closed_line cases.now.named case was)) }
{
    text.push_str("  case ")?;
    push_case_text(text, cases, case)?;
    write!(
        text,
        ": filed {was}, now not open; its number is given to no other case\n"
    )
}

// Adds that a case wasn't open, and when it is filed.
#[tactic(auto, unfolding(crate::specs::Filed::opened_words))]
fn push_opened_words(text: &mut String, is: Day) -> Result<(), AllocError>
    ensures { OnOk result (AddsText text.old text.new (opened_words is)) }
{
    write!(text, ": not open, now filed {is}\n")
}

// Adds the line of a case that wasn't open.
fn push_opened(text: &mut String, cases: &Cases, case: u32, is: Day) -> Result<(), AllocError>
    ensures { OnOk result (AddsText text.old text.new (opened_line cases.now.named case is)) }
{
    text.push_str("  case ")?;
    push_case_text(text, cases, case)?;
    push_opened_words(text, is)
}

// Adds the line of a case that was filed on the first day and now is on the second; none where both are one.
fn push_filed_again(
    text: &mut String,
    cases: &Cases,
    case: u32,
    was: Day,
    is: Day,
) -> Result<(), AllocError>
    ensures { OnOk result (AddsText text.old text.new (filed_again_line cases.now.named case was is)) }
{
    if was == is {
        return Ok(());
    }
    text.push_str("  case ")?;
    push_case_text(text, cases, case)?;
    write!(text, ": filed {was}, now filed {is}\n")
}

/// Adds the line of a case that was filed on the first of these days and now is on the second, each if it is open. `Err` says that
/// memory ran out.
pub(crate) fn push_filed(
    text: &mut String,
    before: &Cases,
    after: &Cases,
    case: u32,
    was: Option<Day>,
    is: Option<Day>,
) -> Result<(), AllocError>
    ensures { OnOk result (AddsText text.old text.new (filed_line before.now.named after.now.named case was is)) }
{
    match (was, is) {
        (None, None) => Ok(()),
        (Some(was), None) => push_closed(text, before, case, was),
        (None, Some(is)) => push_opened(text, after, case, is),
        (Some(was), Some(is)) => push_filed_again(text, after, case, was, is),
    }
}
