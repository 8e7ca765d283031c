//! Sheets of cases that have names.
ghost use Rattle.std.specs.Prelude.{OnOk};
ghost use Rattle.office_texts.specs.Words.{AddsText};
ghost use Rattle.office_texts.specs.Named.Named.{named_case_line, named_sheet};

use crate::{push_and_closed, push_assigned_line, push_deadlines, push_motions};
use case_numbers::{Cases, push_case_text};
use court_days::Court;
use docket_rows::Sheet;
use std::alloc::AllocError;
use std::fmt::Write;

// Adds the lines of a sheet: its case and who has it, then its deadlines, then its motions.
#[tactic(auto, unfolding(crate::specs::Named::Named::named_sheet))]
pub(crate) fn push_sheet(
    text: &mut String,
    court: &Court,
    cases: &Cases,
    sheet: &Sheet,
) -> Result<(), AllocError>
    ensures { OnOk result (AddsText text.old text.new (named_sheet court.now cases.now.named sheet.now)) }
{
    push_case_line(text, cases, sheet)?;
    push_assigned_line(text, court, sheet.assigned)?;
    push_deadlines(text, court.clock(), sheet.deadlines.as_slice())?;
    push_motions(text, court, sheet.motions.as_slice())
}

/// Adds the line of the case, with its name where it has one. `Err` says that memory ran out.
pub fn push_case_line(text: &mut String, cases: &Cases, sheet: &Sheet) -> Result<(), AllocError>
    ensures { OnOk result (AddsText text.old text.new (named_case_line cases.now.named sheet.now)) }
{
    let filed = sheet.filed;
    text.push_str("case ")?;
    push_case_text(text, cases, sheet.case)?;
    write!(text, " filed {filed}")?;
    push_and_closed(text, sheet.closed)?;
    text.push_str("\n")
}
