//! What rows call cases, deadlines and motions.

ghost use Rattle.std.specs.Prelude.{OnOk};
ghost use Rattle.office_texts.specs.Words.{AddsText};
ghost use Rattle.report_texts.specs.Called.{after_colon, beneath, both_beneath, both_in_brackets, called_after, called_beneath, in_brackets, label_after, title_after, title_beneath};

use crate::labels::Labels;
use docket_rows::Counted;
use std::alloc::AllocError;

/// Adds a label after a title.
fn push_after_colon(text: &mut String, label: &str) -> Result<(), AllocError>
    ensures { OnOk result (AddsText text.old text.new (after_colon label.now)) }
{
    if label.is_empty() {
        return Ok(());
    }
    text.push_str(": ")?;
    text.push_str(label)
}

/// Adds a text in brackets, if there is one.
fn push_in_brackets(text: &mut String, called: &str) -> Result<(), AllocError>
    ensures { OnOk result (AddsText text.old text.new (in_brackets called.now)) }
{
    if called.is_empty() {
        return Ok(());
    }
    text.push_str(" (")?;
    text.push_str(called)?;
    text.push_str(")")
}

/// Adds a title and a label in brackets, or the one that there is.
fn push_both_in_brackets(text: &mut String, title: &str, label: &str) -> Result<(), AllocError>
    ensures { OnOk result (AddsText text.old text.new (both_in_brackets title.now label.now)) }
{
    if title.is_empty() {
        return push_in_brackets(text, label);
    }
    text.push_str(" (")?;
    text.push_str(title)?;
    push_after_colon(text, label)?;
    text.push_str(")")
}

/// Adds a text as a line, if there is one.
fn push_beneath(text: &mut String, called: &str) -> Result<(), AllocError>
    ensures { OnOk result (AddsText text.old text.new (beneath called.now)) }
{
    if called.is_empty() {
        return Ok(());
    }
    text.push_str("    ")?;
    text.push_str(called)?;
    text.push_str("\n")
}

/// Adds a title and a label as a line, or the one that there is.
fn push_both_beneath(text: &mut String, title: &str, label: &str) -> Result<(), AllocError>
    ensures { OnOk result (AddsText text.old text.new (both_beneath title.now label.now)) }
{
    if title.is_empty() {
        return push_beneath(text, label);
    }
    text.push_str("    ")?;
    text.push_str(title)?;
    push_after_colon(text, label)?;
    text.push_str("\n")
}

/// Adds in brackets what a case is called, if a row says it. `Err` says that memory ran out.
pub fn push_title_after(text: &mut String, labels: &Labels<'_>, case: u32) -> Result<(), AllocError>
    ensures { OnOk result (AddsText text.old text.new (title_after labels.now case)) }
{
    push_in_brackets(text, labels.called.title_of(case))
}

/// Adds in brackets what the deadline or the motion of that number in a case is called, if a row says it. `Err` says that memory
/// ran out.
pub fn push_label_after(
    text: &mut String,
    labels: &Labels<'_>,
    case: u32,
    counted: Counted,
    number: u32,
) -> Result<(), AllocError>
    ensures { OnOk result (AddsText text.old text.new (label_after labels.now case counted number)) }
{
    push_in_brackets(text, labels.called.label_of(case, counted, number))
}

/// Adds in brackets what a deadline or a motion is called, after what its case is called, as far as rows say it. `Err` says that
/// memory ran out.
pub fn push_called_after(
    text: &mut String,
    labels: &Labels<'_>,
    case: u32,
    counted: Counted,
    number: u32,
) -> Result<(), AllocError>
    ensures { OnOk result (AddsText text.old text.new (called_after labels.now case counted number)) }
{
    let title = labels.called.title_of(case);
    push_both_in_brackets(text, title, labels.called.label_of(case, counted, number))
}

/// Adds the same as a line of its own. `Err` says that memory ran out.
pub(crate) fn push_called_beneath(
    text: &mut String,
    labels: &Labels<'_>,
    case: u32,
    counted: Counted,
    number: u32,
) -> Result<(), AllocError>
    ensures { OnOk result (AddsText text.old text.new (called_beneath labels.now case counted number)) }
{
    let title = labels.called.title_of(case);
    push_both_beneath(text, title, labels.called.label_of(case, counted, number))
}

/// Adds what a case is called as a line of its own, if a row says it. `Err` says that memory ran out.
pub(crate) fn push_title_beneath(
    text: &mut String,
    labels: &Labels<'_>,
    case: u32,
) -> Result<(), AllocError>
    ensures { OnOk result (AddsText text.old text.new (title_beneath labels.now case)) }
{
    push_beneath(text, labels.called.title_of(case))
}
