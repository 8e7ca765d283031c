//! The line of a case that is closed in one docket alone, or was closed otherwise.
ghost use Rattle.std.specs.Prelude.{OnOk};
ghost use Rattle.office_texts.specs.Words.{AddsText};
ghost use Rattle.docket_shifts.specs.Closings.{closing_shift, closing_told, told_line};

use case_numbers::{Cases, push_case_text};
use docket_rows::{Closure, View};
use std::alloc::{AllocError, Global};
use std::fmt::Write;

// Adds how a case was closed, or that it isn't.
fn push_told(text: &mut String, closed: Option<Closure>) -> Result<(), AllocError>
    ensures { OnOk result (AddsText text.old text.new (closing_told closed)) }
{
    match closed {
        None => text.push_str("not closed"),
        Some(Closure { why, dated }) => {
            write!(text, "closed {dated} ")?;
            text.push_str(why.word())
        }
    }
}

// Adds the line of a case of which the first was told and now the second is; none where both are one.
pub(crate) fn push_told_line(
    text: &mut String,
    cases: &Cases,
    case: u32,
    was: &str,
    is: &str,
) -> Result<(), AllocError>
    ensures { OnOk result (AddsText text.old text.new (told_line cases.now.named case was.now is.now)) }
{
    if was == is {
        return Ok(());
    }
    text.push_str("  case ")?;
    push_case_text(text, cases, case)?;
    write!(text, ": {was}, now {is}\n")
}

// Adds the line of a case that was closed so and now is closed so.
fn push_both(
    alloc: Global,
    text: &mut String,
    cases: &Cases,
    case: u32,
    was: Option<Closure>,
    is: Option<Closure>,
) -> Result<(), AllocError>
    ensures { OnOk result (AddsText text.old text.new (told_line cases.now.named case (closing_told was) (closing_told is))) }
{
    let mut before = String::new(alloc);
    push_told(&mut before, was)?;
    let mut after = String::new(alloc);
    push_told(&mut after, is)?;
    push_told_line(text, cases, case, before.as_str(), after.as_str())
}

/// Adds the line of a case that is closed otherwise by the second of two sheets than by the first, where it is open by both. `Err` says
/// that memory ran out.
pub(crate) fn push_closing(
    alloc: Global,
    text: &mut String,
    cases: &Cases,
    case: u32,
    was: &View,
    is: &View,
) -> Result<(), AllocError>
    ensures { OnOk result (AddsText text.old text.new (closing_shift cases.now.named case was.now is.now)) }
{
    match (was, is) {
        (View::Sheet(was), View::Sheet(is)) => {
            push_both(alloc, text, cases, case, was.closed, is.closed)
        }
        _ => Ok(()),
    }
}
