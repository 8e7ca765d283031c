//! The reasons of extensions and of orders that set the end, one after another, and of the end that they leave.

ghost use Rattle.std.specs.Prelude.{◌≡◌, ◌≤◌, ◌*◌, true, false, [], ◌∷◌, List, Option, option_map, IfOk};
ghost use Rattle.court_clock.specs.Words.{ClockView, instant_of};
ghost use Rattle.court_days.specs.Words.{DaysView};
ghost use Rattle.rule6.specs.declared.timeliness.Shown.{Shown};
ghost use Rattle.rule_periods.specs.declared.expiry.Expiry.{Expiry as ExpiryData};
ghost use Rattle.rule_periods.specs.declared.expiry.Expiry.TheVariants.{OnDay, AtInstant};
ghost use Rattle.rule_periods.specs.declared.grant.Grant.{Grant as GrantData};
ghost use Rattle.rule_periods.specs.declared.grant.Grant.TheVariants as granted;
ghost use Rattle.rule_periods.specs.Words.{DeadlineRowView, is_grant_length, is_in_hours};
ghost use Rattle.deadline_reasons.specs.Standing.{Ended};
ghost use Rattle.deadline_reasons.specs.Inside.Leading.{LeadsOn, with_day, with_end, with_instant, last_day, last_instant, leads};

use crate::access::close_on;
use crate::by_hours::close_at;
use crate::reason::{Reason, push};
use crate::row::in_hours;
use crate::{by_days, by_hours};
use court_clock::{Clock, Day, Direction, Instant};
use court_days::Days;
use rule_periods::{DeadlineRow, Event, Expiry, Grant};
use std::alloc::AllocError;

/// Adds the reasons after the last day of a period, if it has one.
pub(crate) fn finish_days(
    days: &Days,
    clock: &Clock,
    row: &DeadlineRow,
    reasons: &mut Vec<Reason>,
    last: Option<Day>,
) -> Result<(), AllocError>
    ensures { IfOk result (λ _. (shown : Shown) × LeadsOn days.now clock.now row.now reasons.old.items reasons.new.items (with_day last (record { three = false; grants = row.now.grants })) (Ended shown)) }
{
    finish(days, clock, row, reasons, on_day(last))
}

/// Adds the reasons after the instant at which a period ends, if there is one.
pub(crate) fn finish_hours(
    days: &Days,
    clock: &Clock,
    row: &DeadlineRow,
    reasons: &mut Vec<Reason>,
    end: Option<Instant>,
) -> Result<(), AllocError>
    ensures { IfOk result (λ _. (shown : Shown) × LeadsOn days.now clock.now row.now reasons.old.items reasons.new.items (with_instant end row.now.grants) (Ended shown)) }
{
    finish(days, clock, row, reasons, at_instant(end))
}

/// Adds the reasons after an end of either kind.
fn finish(
    days: &Days,
    clock: &Clock,
    row: &DeadlineRow,
    reasons: &mut Vec<Reason>,
    end: Option<Expiry>,
) -> Result<(), AllocError>
    ensures { IfOk result (λ _. (shown : Shown) × LeadsOn days.now clock.now row.now reasons.old.items reasons.new.items (with_end end row.now.grants) (Ended shown)) }
{
    let extended = extend_all(days, clock, row, reasons, end)?;
    close(days, clock, row, reasons, extended)
}

/// A last day as an end.
fn on_day(last: Option<Day>) -> Option<Expiry>
    ensures { result ≡ option_map OnDay last }
{
    Some(Expiry::OnDay(last?))
}

/// An instant as an end.
fn at_instant(end: Option<Instant>) -> Option<Expiry>
    ensures { result ≡ option_map AtInstant end }
{
    Some(Expiry::AtInstant(end?))
}

/// Goes on by each extension in turn.
fn extend_all(
    days: &Days,
    clock: &Clock,
    row: &DeadlineRow,
    reasons: &mut Vec<Reason>,
    end: Option<Expiry>,
) -> Result<Option<Expiry>, AllocError>
    ensures { IfOk result (λ extended. LeadsOn days.now clock.now row.now reasons.old.items reasons.new.items (with_end end row.now.grants) (with_end extended [])) }
{
    let mut extended = end;
    for grant in row.grants() {
        extended = extend(days, clock, row, reasons, extended, *grant)?;
    }
    Ok(extended)
}

/// Goes on by one extension, or to the end that an order sets.
fn extend(
    days: &Days,
    clock: &Clock,
    row: &DeadlineRow,
    reasons: &mut Vec<Reason>,
    end: Option<Expiry>,
    grant: Grant,
) -> Result<Option<Expiry>, AllocError>
    requires { is_grant_length grant ≡ true }
    ensures { (grants : List GrantData) → IfOk result (λ extended. LeadsOn days.now clock.now row.now reasons.old.items reasons.new.items (with_end end (grant ∷ grants)) (with_end extended grants)) }
{
    match grant {
        Grant::ByDays(n) => more_days(days, row, reasons, end, n),
        Grant::ByHours(h) => more_hours(days, clock, row, reasons, end, h),
        Grant::Until(day) => until(row, reasons, day),
        Grant::Reset(day) => to_day(reasons, day),
        Grant::ResetAt(at) => to_time(clock, reasons, at),
    }
}

/// Goes on by days from a last day.
fn more_days(
    days: &Days,
    row: &DeadlineRow,
    reasons: &mut Vec<Reason>,
    end: Option<Expiry>,
    n: u32,
) -> Result<Option<Expiry>, AllocError>
    requires { n ≤ 3650 }
    ensures { (clock : ClockView) (grants : List GrantData) → IfOk result (λ extended. LeadsOn days.now clock row.now reasons.old.items reasons.new.items (with_end end (granted.ByDays n ∷ grants)) (with_end extended grants)) }
{
    let Some(day) = last_day(row, end) else {
        return not_extended(reasons, Grant::ByDays(n));
    };
    push(reasons, Reason::Extended(Grant::ByDays(n)))?;
    let counted = by_days::count(days, reasons, day, n, Direction::After)?;
    Ok(on_day(counted))
}

/// Goes on by hours from an instant.
fn more_hours(
    days: &Days,
    clock: &Clock,
    row: &DeadlineRow,
    reasons: &mut Vec<Reason>,
    end: Option<Expiry>,
    h: u32,
) -> Result<Option<Expiry>, AllocError>
    requires { h ≤ 8760 }
    ensures { (grants : List GrantData) → IfOk result (λ extended. LeadsOn days.now clock.now row.now reasons.old.items reasons.new.items (with_end end (granted.ByHours h ∷ grants)) (with_end extended grants)) }
{
    let Some(instant) = last_instant(row, end) else {
        return not_extended(reasons, Grant::ByHours(h));
    };
    push(reasons, Reason::Extended(Grant::ByHours(h)))?;
    let counted = by_hours::count(days, clock, reasons, instant, h, Direction::After)?;
    Ok(at_instant(counted))
}

/// The last day from which a period in days is extended by days.
fn last_day(row: &DeadlineRow, end: Option<Expiry>) -> Option<Day>
    ensures { result ≡ last_day (is_in_hours row.now.period) end }
{
    if in_hours(row) {
        return None;
    }
    match end? {
        Expiry::OnDay(day) => Some(day),
        Expiry::AtInstant(_) => None,
    }
}

/// The instant from which a period in hours is extended by hours.
fn last_instant(row: &DeadlineRow, end: Option<Expiry>) -> Option<Instant>
    ensures { result ≡ last_instant (is_in_hours row.now.period) end }
{
    if !in_hours(row) {
        return None;
    }
    match end? {
        Expiry::AtInstant(instant) => Some(instant),
        Expiry::OnDay(_) => None,
    }
}

/// Goes on to a date certain, in a period in days.
fn until(
    row: &DeadlineRow,
    reasons: &mut Vec<Reason>,
    day: Day,
) -> Result<Option<Expiry>, AllocError>
    ensures { (days : DaysView) (clock : ClockView) (end : Option ExpiryData) (grants : List GrantData) → IfOk result (λ extended. LeadsOn days clock row.now reasons.old.items reasons.new.items (with_end end (granted.Until day ∷ grants)) (with_end extended grants)) }
{
    if in_hours(row) {
        return not_extended(reasons, Grant::Until(day));
    }
    push(reasons, Reason::Extended(Grant::Until(day)))?;
    Ok(Some(Expiry::OnDay(day)))
}

/// Goes on to the day that an order sets, of whichever kind the end so far is.
fn to_day(reasons: &mut Vec<Reason>, day: Day) -> Result<Option<Expiry>, AllocError>
    ensures { (days : DaysView) (clock : ClockView) (row : DeadlineRowView) (end : Option ExpiryData) (grants : List GrantData) → IfOk result (λ extended. LeadsOn days clock row reasons.old.items reasons.new.items (with_end end (granted.Reset day ∷ grants)) (with_end extended grants)) }
{
    push(reasons, Reason::Extended(Grant::Reset(day)))?;
    Ok(Some(Expiry::OnDay(day)))
}

/// Goes on to the minute of a day that an order sets, in the same way.
fn to_time(
    clock: &Clock,
    reasons: &mut Vec<Reason>,
    at: Event,
) -> Result<Option<Expiry>, AllocError>
    ensures { (days : DaysView) (row : DeadlineRowView) (end : Option ExpiryData) (grants : List GrantData) → IfOk result (λ extended. LeadsOn days clock.now row reasons.old.items reasons.new.items (with_end end (granted.ResetAt at ∷ grants)) (with_end extended grants)) }
{
    let instant = instant_at(clock, at);
    push(reasons, Reason::Extended(Grant::ResetAt(at)))?;
    Ok(Some(Expiry::AtInstant(instant)))
}

/// The instant of a minute of a day.
fn instant_at(clock: &Clock, at: Event) -> Instant
    ensures { result ≡ instant_of clock.now.zone at.day (60 * at.minute) }
{
    clock.instant_of(at.day(), 60 * u32::from(at.minute()))
}

/// Says that an extension gives no end.
fn not_extended(reasons: &mut Vec<Reason>, grant: Grant) -> Result<Option<Expiry>, AllocError>
    ensures { (days : DaysView) (clock : ClockView) (row : DeadlineRowView) (end : Option ExpiryData) (grants : List GrantData) → leads (is_in_hours row.period) end grant ≡ false → IfOk result (λ extended. LeadsOn days clock row reasons.old.items reasons.new.items (with_end end (grant ∷ grants)) (with_end extended grants)) }
{
    push(reasons, Reason::NotExtended(grant))?;
    Ok(None)
}

/// Ends the time, if it has an end.
fn close(
    days: &Days,
    clock: &Clock,
    row: &DeadlineRow,
    reasons: &mut Vec<Reason>,
    end: Option<Expiry>,
) -> Result<(), AllocError>
    ensures { IfOk result (λ _. (shown : Shown) × LeadsOn days.now clock.now row.now reasons.old.items reasons.new.items (with_end end []) (Ended shown)) }
{
    let Some(expiry) = end else {
        push(reasons, Reason::Beyond)?;
        return Ok(());
    };
    match expiry {
        Expiry::OnDay(day) => close_on(days, clock, row, reasons, day),
        Expiry::AtInstant(instant) => close_at(days, clock, row, reasons, instant),
    }
}
