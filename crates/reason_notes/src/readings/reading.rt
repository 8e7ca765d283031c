//! What is shown of a deadline by other readings.

ghost use Rattle.std.specs.Prelude.{◌≡◌, ◌==◌, ◌&&◌, true, IfOk};
ghost use Rattle.rule_periods.specs.Words.{act_due};
ghost use Rattle.reason_notes.specs.Readings.Changed.{adds_days, last_grant};
ghost use Rattle.reason_notes.specs.Readings.Readings.{counts_hours, extended_from_moved, hours_from_end, outage_before_added, outage_moves_nothing, outage_moves_service, shown_again, shown_by};

use crate::readings::by_reading::DaysByReading;
use crate::readings::changed::{
    adds_days, before_last, counted_again, day_after, last_grant, started_on, with_act,
    without_added,
};
use court_clock::{Clock, Day};
use court_days::Days;
use rule_periods::{DeadlineRow, Grant, Period, act_due, shown};
use rule6::{Act, Shown};
use std::alloc::{AllocError, Global};

/// Another reading of what the Rules leave open.
#[derive(Clone, Copy, Debug, PartialEq, Eq)]
pub enum Reading {
    /// An outage of some hours on the last day doesn't make the clerk's office inaccessible on it (Fed. R. Civ. P. 6(a)(3)).
    OutageMovesNothing,
    /// An outage moves a time for service too, since electronic service is made by filing (5(b)(2)(E)).
    OutageMovesService,
    /// An extension counts from the day to which an outage moved the time.
    ExtendedFromMovedDay,
    /// An outage moves the day from which the three days of 6(d) count.
    OutageBeforeAddedDays,
    /// Hours whose event has no time of day count from the end of its day.
    HoursFromEndOfDay,
    /// A Friday on which a Saturday's holiday is observed (5 U.S.C. 6103(b)(1)) isn't a legal holiday (Fed. R. Civ. P. 6(a)(6)).
    FridayIsOpen,
    /// A day that is marked as doubtful isn't one that the state declares a holiday (6(a)(6)(C)).
    DoubtfulIsOpen,
}

/// All of them, in the order of their lines.
pub(crate) const ALL: [Reading; 7] = [
    Reading::OutageMovesNothing,
    Reading::OutageMovesService,
    Reading::ExtendedFromMovedDay,
    Reading::OutageBeforeAddedDays,
    Reading::HoursFromEndOfDay,
    Reading::FridayIsOpen,
    Reading::DoubtfulIsOpen,
];

/// What is shown of the deadline by another reading. None where the reading doesn't bear on the deadline. `Err` says that memory
/// ran out.
pub fn shown_by(
    alloc: Global,
    days: &DaysByReading,
    clock: &Clock,
    row: &DeadlineRow,
    reading: Reading,
) -> Result<Option<Shown>, AllocError>
    ensures { IfOk result (λ other. other ≡ shown_by days.now clock.now row.now reading) }
{
    match reading {
        Reading::OutageMovesNothing => outage_moves_nothing(alloc, days.here(), clock, row),
        Reading::OutageMovesService => outage_moves_service(alloc, days.here(), clock, row),
        Reading::ExtendedFromMovedDay => extended_from_moved(alloc, days.here(), clock, row),
        Reading::OutageBeforeAddedDays => outage_before_added(alloc, days.here(), clock, row),
        Reading::HoursFromEndOfDay => hours_from_end(alloc, days.here(), clock, row),
        Reading::FridayIsOpen => Ok(Some(shown(days.fridays_open(), clock, row))),
        Reading::DoubtfulIsOpen => Ok(Some(shown(days.doubtful_open(), clock, row))),
    }
}

/// By the reading that an outage of some hours counts for nothing.
fn outage_moves_nothing(
    alloc: Global,
    days: &Days,
    clock: &Clock,
    row: &DeadlineRow,
) -> Result<Option<Shown>, AllocError>
    ensures { IfOk result (λ other. other ≡ outage_moves_nothing days.now clock.now row.now (act_due row.now)) }
{
    match act_due(row) {
        Act::Filing => {
            let other = with_act(alloc, row, Act::Service)?;
            Ok(Some(shown(days, clock, &other)))
        }
        Act::Service => Ok(None),
    }
}

/// By the reading that an outage moves a time for service too.
fn outage_moves_service(
    alloc: Global,
    days: &Days,
    clock: &Clock,
    row: &DeadlineRow,
) -> Result<Option<Shown>, AllocError>
    ensures { IfOk result (λ other. other ≡ outage_moves_service days.now clock.now row.now (act_due row.now)) }
{
    match act_due(row) {
        Act::Filing => Ok(None),
        Act::Service => {
            let other = with_act(alloc, row, Act::Filing)?;
            Ok(Some(shown(days, clock, &other)))
        }
    }
}

/// By the reading that an extension counts from the day to which an outage moved the time.
fn extended_from_moved(
    alloc: Global,
    days: &Days,
    clock: &Clock,
    row: &DeadlineRow,
) -> Result<Option<Shown>, AllocError>
    ensures { IfOk result (λ other. other ≡ extended_from_moved days.now clock.now row.now (last_grant row.now) (act_due row.now)) }
{
    match (last_grant(row), act_due(row)) {
        (Some(Grant::ByDays(n)), Act::Filing) => {
            let before = before_last(alloc, row)?;
            Ok(shown_again(alloc, days, clock, n, shown(days, clock, &before)))
        }
        _ => Ok(None),
    }
}

/// By the reading that an outage moves the day from which the three days count.
fn outage_before_added(
    alloc: Global,
    days: &Days,
    clock: &Clock,
    row: &DeadlineRow,
) -> Result<Option<Shown>, AllocError>
    ensures { IfOk result (λ other. other ≡ outage_before_added days.now clock.now row.now (act_due row.now) row.now.grants (adds_days row.now)) }
{
    match act_due(row) {
        Act::Filing if row.grants().is_empty() && adds_days(row) => {
            let before = without_added(alloc, row)?;
            Ok(shown_again(alloc, days, clock, 3, shown(days, clock, &before)))
        }
        _ => Ok(None),
    }
}

/// By the reading that hours whose event has no time of day count from the end of its day.
fn hours_from_end(
    alloc: Global,
    days: &Days,
    clock: &Clock,
    row: &DeadlineRow,
) -> Result<Option<Shown>, AllocError>
    ensures { IfOk result (λ other. other ≡ hours_from_end days.now clock.now row.now (counts_hours row.now.period && (row.now.event.minute == 0))) }
{
    if !counts_hours(row.period()) || row.event().minute() != 0 {
        return Ok(None);
    }
    match day_after(row.event().day()) {
        Some(next) => {
            let other = started_on(alloc, row, next)?;
            Ok(Some(shown(days, clock, &other)))
        }
        None => Ok(None),
    }
}

/// Whether hours are counted, so that no order sets the end.
fn counts_hours(period: Period) -> bool
    ensures { result ≡ counts_hours period }
{
    period.is_in_hours() && !period.is_set()
}

/// What is shown where this number of days, if it is a length of a period, is counted from a day that is shown, to file.
fn shown_again(alloc: Global, days: &Days, clock: &Clock, number: u32, from: Shown) -> Option<Shown>
    ensures { result ≡ shown_again days.now clock.now number from }
{
    match from {
        Shown::Last { day, .. } if 1 <= number && number <= 3_650 => {
            Some(shown(days, clock, &counted_again(alloc, day, number)))
        }
        Shown::Beyond => Some(Shown::Beyond),
        _ => None,
    }
}
