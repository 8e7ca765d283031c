//! A sheet, with what rows call its case, its deadlines and its motions.

ghost use Rattle.std.specs.Prelude.{OnOk, codes};
ghost use Rattle.std.specs.List.{flat_map};
ghost use Rattle.office_texts.specs.Words.{AddsText};
ghost use Rattle.report_texts.specs.Sheets.{case_lines, label_line, labelled_deadline, labelled_motion, labelled_sheet, line_after, title_line};

use crate::labels::Labels;
use court_clock::Clock;
use court_days::Court;
use docket_rows::{Counted, Sheet, SheetDeadline, SheetMotion};
use office_texts::{push_assigned_line, push_case_line, push_deadline, push_motion};
use std::alloc::AllocError;

/// Adds the text of a title as a line, if there is one.
fn push_title(text: &mut String, title: &str) -> Result<(), AllocError>
    ensures { OnOk result (AddsText text.old text.new (line_after (codes "title ") title.now)) }
{
    if title.is_empty() {
        return Ok(());
    }
    text.push_str("title ")?;
    text.push_str(title)?;
    text.push_str("\n")
}

/// Adds the text of a label as a line, if there is one.
fn push_label(text: &mut String, label: &str) -> Result<(), AllocError>
    ensures { OnOk result (AddsText text.old text.new (line_after (codes "label ") label.now)) }
{
    if label.is_empty() {
        return Ok(());
    }
    text.push_str("label ")?;
    text.push_str(label)?;
    text.push_str("\n")
}

/// Adds what the case is called, as a line, if a row says it.
fn push_title_line(text: &mut String, labels: &Labels<'_>, case: u32) -> Result<(), AllocError>
    ensures { OnOk result (AddsText text.old text.new (title_line labels.now case)) }
{
    push_title(text, labels.called.title_of(case))
}

/// Adds what the deadline or the motion of that number is called, as a line, if a row says it.
fn push_label_line(
    text: &mut String,
    labels: &Labels<'_>,
    case: u32,
    counted: Counted,
    number: u32,
) -> Result<(), AllocError>
    ensures { OnOk result (AddsText text.old text.new (label_line labels.now case counted number)) }
{
    push_label(text, labels.called.label_of(case, counted, number))
}

/// Adds the line of the case, that of its title, and that of who has it. `Err` says that memory ran out.
#[tactic(auto, unfolding(crate::specs::Sheets::case_lines))]
pub fn push_case_lines(
    text: &mut String,
    court: &Court,
    labels: &Labels<'_>,
    sheet: &Sheet,
) -> Result<(), AllocError>
    ensures { OnOk result (AddsText text.old text.new (case_lines court.now labels.now sheet.now)) }
{
    push_case_line(text, labels.cases, sheet)?;
    push_title_line(text, labels, sheet.case)?;
    push_assigned_line(text, court, sheet.assigned)
}

/// Adds the line of a deadline, and that of its label. `Err` says that memory ran out.
#[tactic(auto, unfolding(crate::specs::Sheets::labelled_deadline))]
pub fn push_labelled_deadline(
    text: &mut String,
    clock: &Clock,
    labels: &Labels<'_>,
    case: u32,
    deadline: &SheetDeadline,
) -> Result<(), AllocError>
    ensures { OnOk result (AddsText text.old text.new (labelled_deadline clock.now labels.now case deadline.now)) }
{
    push_deadline(text, clock, deadline)?;
    push_label_line(text, labels, case, Counted::Deadline, deadline.number)
}

/// Adds the lines of a motion, and that of its label. `Err` says that memory ran out.
#[tactic(auto, unfolding(crate::specs::Sheets::labelled_motion))]
pub fn push_labelled_motion(
    text: &mut String,
    court: &Court,
    labels: &Labels<'_>,
    case: u32,
    motion: &SheetMotion,
) -> Result<(), AllocError>
    ensures { OnOk result (AddsText text.old text.new (labelled_motion court.now labels.now case motion.now)) }
{
    push_motion(text, court, motion)?;
    push_label_line(text, labels, case, Counted::Motion, motion.number)
}

/// Adds the lines of each deadline.
pub(crate) fn push_labelled_deadlines(
    text: &mut String,
    clock: &Clock,
    labels: &Labels<'_>,
    case: u32,
    deadlines: &[SheetDeadline],
) -> Result<(), AllocError>
    ensures { OnOk result (AddsText text.old text.new (flat_map (labelled_deadline clock.now labels.now case) deadlines.now)) }
{
    for deadline in deadlines {
        push_labelled_deadline(text, clock, labels, case, deadline)?;
    }
    Ok(())
}

/// Adds the lines of each motion.
pub(crate) fn push_labelled_motions(
    text: &mut String,
    court: &Court,
    labels: &Labels<'_>,
    case: u32,
    motions: &[SheetMotion],
) -> Result<(), AllocError>
    ensures { OnOk result (AddsText text.old text.new (flat_map (labelled_motion court.now labels.now case) motions.now)) }
{
    for motion in motions {
        push_labelled_motion(text, court, labels, case, motion)?;
    }
    Ok(())
}

/// Adds the lines of a sheet: its case, then its deadlines, then its motions. `Err` says that memory ran out.
#[tactic(auto, unfolding(crate::specs::Sheets::labelled_sheet))]
pub fn push_labelled_sheet(
    text: &mut String,
    court: &Court,
    labels: &Labels<'_>,
    sheet: &Sheet,
) -> Result<(), AllocError>
    ensures { OnOk result (AddsText text.old text.new (labelled_sheet court.now labels.now sheet.now)) }
{
    let case = sheet.case;
    push_case_lines(text, court, labels, sheet)?;
    push_labelled_deadlines(
        text,
        court.clock(),
        labels,
        case,
        sheet.deadlines.as_slice(),
    )?;
    push_labelled_motions(text, court, labels, case, sheet.motions.as_slice())
}
