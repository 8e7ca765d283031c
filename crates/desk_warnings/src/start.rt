//! What a clerk is warned of a deadline before it starts.

ghost use Rattle.std.specs.Prelude.{◌≡◌, ◌++◌, None, IfNone, IfSome, OnOk, is_none, is_some, string_bytes, true};
ghost use Rattle.rule_periods.specs.Words.{has_length, start_refusal, suits};
ghost use Rattle.docket_rows.specs.Words.{setup_of, start_deadline_refusal, started};
ghost use Rattle.docket_core.specs.Words.{parts_held};
ghost use Rattle.desk_warnings.specs.Inside.Start.{on_view};
ghost use Rattle.desk_warnings.specs.Warnings.{among, at_start};

use crate::again::push_same_notes;
use crate::appeal::push_moved_notes;
use court_clock::Day;
use court_days::{Court, Days};
use desk_numbers::MovedNumbers;
use docket_core::Docket;
use docket_rows::{Query, SheetDeadline, View};
use reason_notes::push_start_notes;
use rule_periods::{DeadlineRow, DocketRow, Event, Period, check_start, shown};
use rule6::ServiceKind;
use std::alloc::{AllocError, Global};

/// Adds what a clerk is warned of a deadline that would start in a case, and isn't refused.
pub(crate) fn push_start(
    alloc: Global,
    text: &mut String,
    court: &Court,
    moved: &MovedNumbers,
    docket: &Docket,
    today: Option<Day>,
    case: u32,
    period: &Period,
    event: &Event,
    second: &Option<Day>,
    service: &Option<ServiceKind>,
) -> Result<(), AllocError>
    ensures { docket.now.setup ≡ setup_of court.now → start_deadline_refusal (setup_of court.now) (parts_held docket.now) case period.now event.now second.now service.now ≡ None → OnOk result (string_bytes text.new ≡ string_bytes text.old ++ at_start court.now moved.now (parts_held docket.now) today case ((parts_held docket.now).case case) (started period.now event.now second.now service.now)) }
{
    let view = docket.show(alloc, &Query::Sheet(case))?;
    let days = docket.days();
    let row = row_started(alloc, days, period, event, second, service);
    push_on_view(alloc, text, court, moved, days, today, &view, &row)
}

/// Adds the notes on a deadline that would start, by what is seen of its case.
fn push_on_view(
    alloc: Global,
    text: &mut String,
    court: &Court,
    moved: &MovedNumbers,
    days: &Days,
    today: Option<Day>,
    view: &View,
    row: &Option<DocketRow>,
) -> Result<(), AllocError>
    ensures { OnOk result (string_bytes text.new ≡ string_bytes text.old ++ on_view court.now moved.now days.now today view.now row.now) }
{
    match (view, row) {
        (View::Sheet(sheet), Some(row)) => {
            let row = row.row();
            let shown = shown(days, court.clock(), row);
            push_start_notes(
                alloc,
                text,
                days,
                court.clock(),
                sheet.filed,
                today,
                row,
                &shown,
            )?;
            push_among(
                alloc,
                text,
                moved,
                sheet.case,
                row,
                sheet.deadlines.as_slice(),
            )
        }
        _ => Ok(()),
    }
}

/// Adds the notes on a deadline that would start beside these of its case.
fn push_among(
    alloc: Global,
    text: &mut String,
    moved: &MovedNumbers,
    case: u32,
    row: &DeadlineRow,
    others: &[SheetDeadline],
) -> Result<(), AllocError>
    ensures { OnOk result (string_bytes text.new ≡ string_bytes text.old ++ among moved.now case row.now others.now) }
{
    push_moved_notes(text, row, others)?;
    push_same_notes(alloc, text, moved, case, row, others)
}

/// Whether the period can start with the event.
fn can_start(
    days: &Days,
    period: &Period,
    event: &Event,
    second: Option<Day>,
    service: Option<ServiceKind>,
) -> bool
    ensures value { result ≡ is_none (start_refusal days.now period.now event.now second service) }
    ensures suits { result ≡ true → suits period.now second service ≡ true }
    ensures length { result ≡ true → has_length period.now ≡ true }
{
    check_start(days, period, *event, second, service).is_ok()
}

/// The deadline as it would start, where its period can.
fn row_started(
    alloc: Global,
    days: &Days,
    period: &Period,
    event: &Event,
    second: &Option<Day>,
    service: &Option<ServiceKind>,
) -> Option<DocketRow>
    ensures some { IfSome result (λ row. (row ≡ started period.now event.now second.now service.now) × (start_refusal days.now period.now event.now second.now service.now ≡ None)) }
    ensures none { IfNone result (is_some (start_refusal days.now period.now event.now second.now service.now) ≡ true) }
{
    if can_start(days, period, event, *second, *service) {
        Some(started(alloc, period, event, *second, *service))
    } else {
        None
    }
}

/// A deadline that starts.
fn started(
    alloc: Global,
    period: &Period,
    event: &Event,
    second: Option<Day>,
    service: Option<ServiceKind>,
) -> DocketRow
    requires suits { suits period.now second service ≡ true }
    requires length { has_length period.now ≡ true }
    ensures { result ≡ started period.now event.now second service }
{
    let period = *period;
    let event = *event;
    DocketRow::start(alloc, period, event, second, service)
}
