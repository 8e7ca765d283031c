//! What is docketed: outages, and cases with all that is on their sheets.

ghost use Rattle.std.specs.Prelude.{◌≡◌, ◌++◌, map, IfOk, OnOk};
ghost use Rattle.std.specs.List.{flat_map};
ghost use Rattle.docket_rows.specs.Words.{Rows, setup_of};
ghost use Rattle.docket_core.specs.Words.{StandsFor};
ghost use Rattle.docket_selection.specs.Words.{open_sheets};
ghost use Rattle.desk_numbers.specs.Words.{numbered_sheet};
ghost use Rattle.report_sql.specs.Deadlines.{deadline_rows};
ghost use Rattle.report_sql.specs.Hearings.{motion_rows};
ghost use Rattle.report_sql.specs.Rows.{AddsValues, numbered};
ghost use Rattle.report_sql.specs.Script.{case_row, closing_row, closing_row_if_any, docketed_text, name_values, outage_row, sheet_rows};

use crate::assignments::push_assignment_if_any;
use crate::called::push_called;
use crate::deadlines::push_deadline;
use crate::hearings::push_motion;
use crate::script::Script;
use court_clock::Clock;
use court_days::{Court, Outage};
use desk_numbers::MovedNumbers;
use docket_core::Docket;
use docket_rows::{Closure, Sheet, SheetDeadline, SheetMotion};
use docket_selection::sheets_of;
use report_texts::{Labels, number_sheets};
use std::alloc::{AllocError, Global};

/// Adds each outage, and each open case with all that is on its sheet, where deadlines and motions have their numbers. `Err`
/// says that memory ran out.
pub(crate) fn push_docketed(
    alloc: Global,
    out: &mut Script,
    court: &Court,
    labels: &Labels<'_>,
    docket: &Docket,
) -> Result<(), AllocError>
    requires court { docket.now.setup ≡ setup_of court.now }
    ensures { (docketed : Rows) → StandsFor docket.now docketed → OnOk result (out.new ≡ out.old ++ docketed_text court.now labels.now docketed) }
{
    push_outages(out, docket.days().outages())?;
    let sheets = numbered_sheets(alloc, docket, labels.moved)?;
    push_sheets(out, court, labels, &sheets)?;
    Ok(())
}

/// The sheets of all open cases, with the numbers of deadlines and motions.
fn numbered_sheets(
    alloc: Global,
    docket: &Docket,
    moved: &MovedNumbers,
) -> Result<Vec<Sheet>, AllocError>
    ensures { (docketed : Rows) → StandsFor docket.now docketed → IfOk result (λ sheets. sheets.items ≡ map (numbered_sheet moved.now) (open_sheets docket.now.setup docketed)) }
{
    let mut sheets = sheets_of(alloc, docket)?;
    number_sheets(alloc, moved, &mut sheets);
    Ok(sheets)
}

/// Adds the outages, each with its number.
fn push_outages(out: &mut Script, outages: &[Outage]) -> Result<(), AllocError>
    ensures { OnOk result (out.new ≡ out.old ++ numbered outage_row 1 outages.now) }
{
    let mut place = 1u64;
    for outage in outages {
        push_outage(out, place, *outage)?;
        place += 1;
    }
    Ok(())
}

#[tactic(auto, unfolding(crate::specs::Script::outage_row))]
fn push_outage(out: &mut Script, place: u64, outage: Outage) -> Result<(), AllocError>
    ensures { OnOk result (out.new ≡ out.old ++ outage_row place outage) }
{
    out.begin_row("outages", place)?;
    out.day(outage.day())?;
    out.minute(u32::from(outage.from()))?;
    out.minute(u32::from(outage.to()))?;
    out.end_row()
}

/// Adds each case with all that is on its sheet.
fn push_sheets(
    out: &mut Script,
    court: &Court,
    labels: &Labels<'_>,
    sheets: &[Sheet],
) -> Result<(), AllocError>
    ensures { OnOk result (out.new ≡ out.old ++ flat_map (sheet_rows court.now labels.now) sheets.now) }
{
    for sheet in sheets {
        push_sheet(out, court, labels, sheet)?;
    }
    Ok(())
}

#[tactic(auto, unfolding(crate::specs::Script::sheet_rows))]
fn push_sheet(
    out: &mut Script,
    court: &Court,
    labels: &Labels<'_>,
    sheet: &Sheet,
) -> Result<(), AllocError>
    ensures { OnOk result (out.new ≡ out.old ++ sheet_rows court.now labels.now sheet.now) }
{
    push_case(out, labels, sheet)?;
    push_closing_if_any(out, sheet.case, sheet.closed)?;
    push_assignment_if_any(out, court, sheet.case, sheet.assigned)?;
    push_deadlines(out, court.clock(), sheet.case, sheet.deadlines.as_slice())?;
    push_motions(out, court, sheet.case, sheet.motions.as_slice())?;
    push_called(out, labels, sheet)
}

#[tactic(auto, unfolding(crate::specs::Script::case_row))]
fn push_case(out: &mut Script, labels: &Labels<'_>, sheet: &Sheet) -> Result<(), AllocError>
    ensures { OnOk result (out.new ≡ out.old ++ case_row labels.now.cases sheet.now) }
{
    out.begin_row("cases", u64::from(sheet.case))?;
    out.day(sheet.filed)?;
    push_name(out, labels, sheet.case)?;
    out.end_row()
}

/// Adds how a case was closed, if it was.
fn push_closing_if_any(
    out: &mut Script,
    case: u32,
    closed: Option<Closure>,
) -> Result<(), AllocError>
    ensures { OnOk result (out.new ≡ out.old ++ closing_row_if_any case closed) }
{
    match closed {
        Some(closed) => push_closing(out, case, closed),
        None => Ok(()),
    }
}

/// Adds how a case was closed.
#[tactic(auto, unfolding(crate::specs::Script::closing_row))]
fn push_closing(out: &mut Script, case: u32, closed: Closure) -> Result<(), AllocError>
    ensures { OnOk result (out.new ≡ out.old ++ closing_row case closed) }
{
    out.begin_row("closings", u64::from(case))?;
    out.day(closed.dated)?;
    out.text(closed.why.word())?;
    out.end_row()
}

/// Adds the name of a case, where the court's file has names.
fn push_name(out: &mut Script, labels: &Labels<'_>, case: u32) -> Result<(), AllocError>
    ensures { OnOk result (AddsValues out.old out.new (name_values labels.now.cases case)) }
{
    if labels.cases.named().is_empty() {
        return Ok(());
    }
    match labels.cases.name_of(case) {
        Some(name) => out.text(name),
        None => out.null(),
    }
}

/// Adds each deadline of a case.
fn push_deadlines(
    out: &mut Script,
    clock: &Clock,
    case: u32,
    deadlines: &[SheetDeadline],
) -> Result<(), AllocError>
    ensures { OnOk result (out.new ≡ out.old ++ flat_map (deadline_rows clock.now case) deadlines.now) }
{
    for deadline in deadlines {
        push_deadline(out, clock, case, deadline)?;
    }
    Ok(())
}

/// Adds each motion of a case.
fn push_motions(
    out: &mut Script,
    court: &Court,
    case: u32,
    motions: &[SheetMotion],
) -> Result<(), AllocError>
    ensures { OnOk result (out.new ≡ out.old ++ flat_map (motion_rows court.now case) motions.now) }
{
    for motion in motions {
        push_motion(out, court, case, motion)?;
    }
    Ok(())
}
