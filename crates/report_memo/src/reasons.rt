//! The reasons of deadlines.

ghost use Rattle.std.specs.Prelude.{◌≡◌, ◌++◌, None, OnOk, string_bytes};
ghost use Rattle.rule_periods.specs.Words.{start_refusal};
ghost use Rattle.docket_rows.specs.Words.{Rows, setup_of, started};
ghost use Rattle.office_texts.specs.Run.Words.{Holds};
ghost use Rattle.report_memo.specs.Reasons.{AreReasons, AreReasonsDocketed, days_docketed, deadline_lines};
ghost use Rattle.report_memo.specs.Texts.{Pushes};

use crate::called::push_period_back;
use court_clock::Day;
use court_days::Court;
use deadline_reasons::{Reason, reasons_of};
use docket_core::Docket;
use reason_notes::{DaysByReading, push_readings};
use reason_texts::{Course, push_period_called, push_reasons};
use report_texts::Labels;
use rule_periods::{DeadlineRow, DocketRow, Event, Period, check_start};
use rule6::ServiceKind;
use std::alloc::{AllocError, Global};

/// Adds the period of the deadline by its Rule, its reasons, a line each, where the days are these, and the other readings that
/// give another end. `Err` says that memory ran out.
pub(crate) fn push_deadline_reasons(
    alloc: Global,
    text: &mut String,
    court: &Court,
    labels: &Labels<'_>,
    days: &DaysByReading,
    row: &DeadlineRow,
) -> Result<(), AllocError>
    ensures { Pushes (AreReasons court.now labels.now days.now row.now) result text.old text.new }
{
    let reasons = reasons_of(alloc, days.here(), court.clock(), row)?;
    push_lines(alloc, text, court, labels, days, row, reasons.as_slice())
}

/// Adds the period of the deadline by its Rule, a line for each reason, and the other readings that give another end.
fn push_lines(
    alloc: Global,
    text: &mut String,
    court: &Court,
    labels: &Labels<'_>,
    days: &DaysByReading,
    row: &DeadlineRow,
    reasons: &[Reason],
) -> Result<(), AllocError>
    ensures { OnOk result (string_bytes text.new ≡ string_bytes text.old ++ deadline_lines court.now labels.now days.now row.now reasons.now) }
{
    let mut back = String::new(alloc);
    push_period_back(alloc, &mut back, court, row.event().day(), &row.period())?;
    push_period_called(alloc, text, row, back.as_str())?;
    let course = Course::of(&row.period());
    push_reasons(text, court.clock(), labels.holidays, course, reasons)?;
    push_readings(alloc, text, days, court.clock(), row)
}

/// Adds the reasons of the docketed deadline at that place in its case, if there is one.
pub(crate) fn push_docketed_reasons(
    alloc: Global,
    text: &mut String,
    court: &Court,
    labels: &Labels<'_>,
    docket: &Docket,
    days: &DaysByReading,
    case: u32,
    place: u32,
) -> Result<(), AllocError>
    ensures { (docketed : Rows) → Holds (setup_of court.now) docket.now docketed → days.now ≡ days_docketed labels.now docketed →
        Pushes (AreReasonsDocketed court.now labels.now docketed case place) result text.old text.new }
{
    match docket.deadline(case, place) {
        Some(row) => push_deadline_reasons(alloc, text, court, labels, days, row.row()),
        None => Ok(()),
    }
}

/// Adds the reasons of a deadline that starts now, where it can start.
pub(crate) fn push_started_reasons(
    alloc: Global,
    text: &mut String,
    court: &Court,
    labels: &Labels<'_>,
    days: &DaysByReading,
    period: &Period,
    event: &Event,
    second: &Option<Day>,
    service: &Option<ServiceKind>,
) -> Result<(), AllocError>
    ensures { start_refusal days.now.here period.now event.now second.now service.now ≡ None →
        Pushes (AreReasons court.now labels.now days.now (started period.now event.now second.now service.now)) result text.old text.new }
{
    match check_start(days.here(), period, *event, *second, *service) {
        Ok(()) => {
            let row = DocketRow::start(alloc, *period, *event, *second, *service);
            push_deadline_reasons(alloc, text, court, labels, days, row.row())
        }
        Err(_) => Ok(()),
    }
}
