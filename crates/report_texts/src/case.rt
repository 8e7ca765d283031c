//! One page of a case.

ghost use Rattle.std.specs.Prelude.{◌++◌, OnOk, codes};
ghost use Rattle.std.specs.List.{flat_map};
ghost use Rattle.office_texts.specs.Words.{AddsText};
ghost use Rattle.report_texts.specs.Case.{case_page_text, deadlines_part, motions_part};
ghost use Rattle.report_texts.specs.Sheets.{labelled_deadline, labelled_motion};

use crate::labels::Labels;
use crate::sheets::{push_case_lines, push_labelled_deadlines, push_labelled_motions};
use court_clock::Clock;
use court_days::Court;
use docket_rows::{Sheet, SheetDeadline, SheetMotion};
use std::alloc::AllocError;

/// Adds the page of a case up to the entries of its log: what it is called and who has it, its deadlines, its motions with their
/// rulings and hearings, and the head of the entries. `Err` says that memory ran out.
#[tactic(auto, unfolding(crate::specs::Case::case_page_text))]
pub fn push_case_page(
    text: &mut String,
    court: &Court,
    labels: &Labels<'_>,
    sheet: &Sheet,
) -> Result<(), AllocError>
    ensures { OnOk result (AddsText text.old text.new (case_page_text court.now labels.now sheet.now)) }
{
    let case = sheet.case;
    push_case_lines(text, court, labels, sheet)?;
    push_deadlines(
        text,
        court.clock(),
        labels,
        case,
        sheet.deadlines.as_slice(),
    )?;
    push_motions(text, court, labels, case, sheet.motions.as_slice())?;
    push_entries_head(text)
}

/// Adds the head of the entries.
fn push_entries_head(text: &mut String) -> Result<(), AllocError>
    ensures { OnOk result (AddsText text.old text.new (codes "\nLast entries\n")) }
{
    text.push_str("\nLast entries\n")
}

/// Adds the deadlines, or that there is none.
fn push_deadlines(
    text: &mut String,
    clock: &Clock,
    labels: &Labels<'_>,
    case: u32,
    deadlines: &[SheetDeadline],
) -> Result<(), AllocError>
    ensures { OnOk result (AddsText text.old text.new (deadlines_part clock.now labels.now case deadlines.now)) }
{
    match deadlines {
        [] => text.push_str("\nNo deadlines.\n"),
        [_, ..] => push_some_deadlines(text, clock, labels, case, deadlines),
    }
}

/// Adds the deadlines below their head.
fn push_some_deadlines(
    text: &mut String,
    clock: &Clock,
    labels: &Labels<'_>,
    case: u32,
    deadlines: &[SheetDeadline],
) -> Result<(), AllocError>
    ensures { OnOk result (AddsText text.old text.new (codes "\nDeadlines\n" ++ flat_map (labelled_deadline clock.now labels.now case) deadlines.now)) }
{
    text.push_str("\nDeadlines\n")?;
    push_labelled_deadlines(text, clock, labels, case, deadlines)
}

/// Adds the motions, or that there is none.
fn push_motions(
    text: &mut String,
    court: &Court,
    labels: &Labels<'_>,
    case: u32,
    motions: &[SheetMotion],
) -> Result<(), AllocError>
    ensures { OnOk result (AddsText text.old text.new (motions_part court.now labels.now case motions.now)) }
{
    match motions {
        [] => text.push_str("\nNo motions.\n"),
        [_, ..] => push_some_motions(text, court, labels, case, motions),
    }
}

/// Adds the motions below their head.
fn push_some_motions(
    text: &mut String,
    court: &Court,
    labels: &Labels<'_>,
    case: u32,
    motions: &[SheetMotion],
) -> Result<(), AllocError>
    ensures { OnOk result (AddsText text.old text.new (codes "\nMotions\n" ++ flat_map (labelled_motion court.now labels.now case) motions.now)) }
{
    text.push_str("\nMotions\n")?;
    push_labelled_motions(text, court, labels, case, motions)
}
