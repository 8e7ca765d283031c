//! The sheets of cases, with the reasons of each deadline.

ghost use Rattle.std.specs.Prelude.{◌≡◌, IfOk};
ghost use Rattle.docket_selection.specs.Explained.Explained.{AreAlike, AreExplained, IsExplained, IsSheetExplained};

use court_clock::{Clock, Day};
use court_days::Days;
use deadline_reasons::{Reason, reasons_of};
use docket_rows::{Assignment, Closure, Sheet, SheetDeadline, SheetMotions};
use reason_notes::{DaysByReading, other_end};
use rule6::Shown;
use std::alloc::{AllocError, Global};

/// A deadline of a sheet, with the reasons why its time ends when it does, and when it ends by another reading.
#[derive(Debug, Drop)]
pub struct ExplainedDeadline {
    /// The deadline.
    pub deadline: SheetDeadline,
    /// The reasons, each of which follows from those before it.
    pub reasons: Vec<Reason>,
    /// The earliest of the ends that other readings of the Rules give in place of the one that is shown, if one does.
    pub other: Option<Shown>,
}

/// The sheet of a case, with the reasons of each deadline.
#[derive(Debug, Drop)]
pub struct ExplainedSheet {
    /// The number of the case.
    pub case: u32,
    /// The day on which it was filed.
    pub filed: Day,
    /// How it was closed, if it was and wasn't reopened.
    pub closed: Option<Closure>,
    /// Who has it, if it was assigned.
    pub assigned: Option<Assignment>,
    /// Its deadlines, in the order in which they were started or entered.
    pub deadlines: Vec<ExplainedDeadline>,
    /// Its motions.
    pub motions: SheetMotions,
}

/// The sheets, with the reasons of each deadline by these days and this clock, and its end by another reading, where these days are
/// doubtful. `Err` says that memory ran out.
pub fn explained_sheets(
    alloc: Global,
    days: &Days,
    clock: &Clock,
    doubtful: &[Day],
    sheets: Vec<Sheet>,
) -> Result<Vec<ExplainedSheet>, AllocError>
    ensures { IfOk result (λ list. AreExplained days.now clock.now doubtful.now sheets.items list.items) }
{
    let days = DaysByReading::new(alloc, days, doubtful)?;
    explained_by(alloc, &days, clock, sheets)
}

/// The sheets, each with the reasons of each deadline.
fn explained_by(
    alloc: Global,
    days: &DaysByReading,
    clock: &Clock,
    sheets: Vec<Sheet>,
) -> Result<Vec<ExplainedSheet>, AllocError>
    ensures { IfOk result (λ list. AreAlike (IsSheetExplained days.now clock.now) sheets.items list.items) }
{
    let mut left = sheets;
    let mut list = Vec::new(alloc);
    while let Some(sheet) = left.pop() {
        list.push(explained_sheet(alloc, days, clock, sheet)?)?;
    }
    list.reverse();
    Ok(list)
}

/// The sheet, with the reasons of each deadline.
fn explained_sheet(
    alloc: Global,
    days: &DaysByReading,
    clock: &Clock,
    sheet: Sheet,
) -> Result<ExplainedSheet, AllocError>
    ensures { IfOk result (λ e. IsSheetExplained days.now clock.now sheet e) }
{
    let Sheet {
        case,
        filed,
        closed,
        assigned,
        deadlines,
        motions,
    } = sheet;
    Ok(ExplainedSheet {
        case,
        filed,
        closed,
        assigned,
        deadlines: explained_deadlines(alloc, days, clock, deadlines.into_vec())?,
        motions,
    })
}

/// The deadlines, each with its reasons.
fn explained_deadlines(
    alloc: Global,
    days: &DaysByReading,
    clock: &Clock,
    deadlines: Vec<SheetDeadline>,
) -> Result<Vec<ExplainedDeadline>, AllocError>
    ensures { IfOk result (λ list. AreAlike (IsExplained days.now clock.now) deadlines.items list.items) }
{
    let mut left = deadlines;
    let mut list = Vec::new(alloc);
    while let Some(deadline) = left.pop() {
        list.push(explained_deadline(alloc, days, clock, deadline)?)?;
    }
    list.reverse();
    Ok(list)
}

/// The deadline, with its reasons and the end by another reading.
fn explained_deadline(
    alloc: Global,
    days: &DaysByReading,
    clock: &Clock,
    deadline: SheetDeadline,
) -> Result<ExplainedDeadline, AllocError>
    ensures { IfOk result (λ e. IsExplained days.now clock.now deadline e) }
{
    let reasons = reasons_of(alloc, days.here(), clock, &deadline.row)?;
    let other = other_end(alloc, days, clock, &deadline.row)?;
    Ok(ExplainedDeadline {
        deadline,
        reasons,
        other,
    })
}
