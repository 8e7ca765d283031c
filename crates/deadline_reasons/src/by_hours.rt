//! The reasons of a period that is stated in hours, and of a time of day that an order sets.

ghost use Rattle.std.specs.Prelude.{◌≡◌, ◌<◌, ◌≤◌, ◌+ℤ◌, ◌&&◌, true, false, [], List, IfSome, IfNone, IfOk};
ghost use Rattle.std.specs.List.{list_any};
ghost use Rattle.court_clock.specs.Words.{IsInstantSecond, offset_seconds};
ghost use Rattle.rule6.specs.declared.timeliness.Shown.{Shown};
ghost use Rattle.rule6.specs.Words.{hours_from, meets_last_hour};
ghost use Rattle.rule_periods.specs.declared.grant.Grant.{Grant as GrantData};
ghost use Rattle.rule_periods.specs.declared.period.Length.TheVariants as stated;
ghost use Rattle.rule_periods.specs.Words.{DeadlineRowView};
ghost use Rattle.deadline_reasons.specs.Passing.{IsFirstOutage, away_from_event, day_later, for_access};
ghost use Rattle.deadline_reasons.specs.Row.{length_of, needs_access, access_holidays};
ghost use Rattle.deadline_reasons.specs.Standing.{Aim, Hour, AccessibleHour, Unstarted, CountingHours, HoursEnd, Looking, RunsUntil, MovedUntil, Nowhere, Ended};
ghost use Rattle.deadline_reasons.specs.Inside.Leading.{LeadsOn, with_instant, moved_to};

use crate::extended::finish_hours;
use crate::look::{Look, away_from_event, day_later, for_access, look_for};
use crate::reason::{Reason, push};
use crate::row::{access_holidays, needs_access};
use court_clock::{Clock, Day, Direction, Instant};
use court_days::{Days, Outage};
use rule_periods::DeadlineRow;
use rule6::meets_last_hour;
use std::alloc::AllocError;

/// The seconds of an hour.
const HOUR: i64 = 3_600;

/// Adds the reasons of a period of `h` hours.
pub(crate) fn push_hours(
    days: &Days,
    clock: &Clock,
    row: &DeadlineRow,
    reasons: &mut Vec<Reason>,
    h: u32,
) -> Result<(), AllocError>
    requires hours { length_of row.now row.now.period ≡ stated.Hours h }
    requires length { h ≤ 8760 }
    ensures { IfOk result (λ _. (shown : Shown) × LeadsOn days.now clock.now row.now reasons.old.items reasons.new.items Unstarted (Ended shown)) }
{
    let event = row.event();
    let begins = clock.instant_of(event.day(), 60 * u32::from(event.minute()));
    push(reasons, Reason::HoursFrom(begins))?;
    let end = count(days, clock, reasons, begins, h, row.period().direction())?;
    finish_hours(days, clock, row, reasons, end)
}

/// Adds the reasons of a deadline for which an order sets the time at which it ends.
pub(crate) fn push_set_time(
    days: &Days,
    clock: &Clock,
    row: &DeadlineRow,
    reasons: &mut Vec<Reason>,
) -> Result<(), AllocError>
    requires { length_of row.now row.now.period ≡ stated.ToTime }
    ensures { IfOk result (λ _. (shown : Shown) × LeadsOn days.now clock.now row.now reasons.old.items reasons.new.items Unstarted (Ended shown)) }
{
    let event = row.event();
    let end = clock.instant_of(event.day(), 60 * u32::from(event.minute()));
    push(reasons, Reason::SetAt(end))?;
    finish_hours(days, clock, row, reasons, Some(end))
}

/// Counts `h` hours, and looks for the day on which they end.
pub(crate) fn count(
    days: &Days,
    clock: &Clock,
    reasons: &mut Vec<Reason>,
    from: Instant,
    h: u32,
    direction: Direction,
) -> Result<Option<Instant>, AllocError>
    requires { h ≤ 8760 }
    ensures { (row : DeadlineRowView) (grants : List GrantData) → IfOk result (λ end. LeadsOn days.now clock.now row reasons.old.items reasons.new.items (CountingHours from h direction grants) (with_instant end grants)) }
{
    let Some(end) = counted(from, h, direction) else {
        push(reasons, Reason::NotCovered)?;
        return Ok(None);
    };
    push(
        reasons,
        Reason::HoursCounted(h, end, forward(clock, from, end)),
    )?;
    end_hours(days, clock, reasons, end, direction)
}

/// The instant that lies `h` hours from `event`.
fn counted(event: Instant, h: u32, direction: Direction) -> Option<Instant>
    requires { h ≤ 8760 }
    ensures some { IfSome result (λ end. end ≡ hours_from event h direction) }
    ensures none { IfNone result (¬ IsInstantSecond (hours_from event h direction)) }
{
    let seconds = HOUR * i64::from(h);
    match direction {
        Direction::After => Instant::new(event.seconds() + seconds),
        Direction::Before => Instant::new(event.seconds() - seconds),
    }
}

/// How many seconds further ahead of UTC the clock is at the end than where the hours begin.
fn forward(clock: &Clock, from: Instant, end: Instant) -> i32
    ensures { offset_seconds clock.now.zone end ≡ offset_seconds clock.now.zone from +ℤ result }
{
    clock.offset_at(end) - clock.offset_at(from)
}

/// Ends hours at an instant, or continues them to the same time on another day.
fn end_hours(
    days: &Days,
    clock: &Clock,
    reasons: &mut Vec<Reason>,
    end: Instant,
    direction: Direction,
) -> Result<Option<Instant>, AllocError>
    ensures { (row : DeadlineRowView) (grants : List GrantData) → IfOk result (λ at. LeadsOn days.now clock.now row reasons.old.items reasons.new.items (HoursEnd end direction grants) (with_instant at grants)) }
{
    let Some(shown) = clock.civil_of(end) else {
        push(reasons, Reason::NotCovered)?;
        return Ok(None);
    };
    let (day, second) = shown;
    if days.is_permitted(day, direction) {
        push(reasons, Reason::EndsOn(day))?;
        return Ok(Some(end));
    }
    push(reasons, Reason::Continued(day, second))?;
    same_time(
        days,
        clock,
        reasons,
        day.number(),
        away_from_event(direction),
        second,
    )
}

/// Looks for a day from that number on, and goes on to that second of it.
fn same_time(
    days: &Days,
    clock: &Clock,
    reasons: &mut Vec<Reason>,
    start: i32,
    look: Look,
    second: u32,
) -> Result<Option<Instant>, AllocError>
    requires { second < 86_400 }
    ensures hours { (row : DeadlineRowView) (grants : List GrantData) → IfOk result (λ at. LeadsOn days.now clock.now row reasons.old.items reasons.new.items (Looking start look (Hour second grants)) (with_instant at grants)) }
    ensures access { (row : DeadlineRowView) → IfOk result (λ at. LeadsOn days.now clock.now row reasons.old.items reasons.new.items (Looking start look (AccessibleHour second)) (moved_to at)) }
{
    let found = look_for(days, reasons, start, look)?;
    let Some(day) = found else {
        return Ok(None);
    };
    let instant = clock.instant_of(day, second);
    push(reasons, Reason::SameTime(day, instant))?;
    Ok(Some(instant))
}

/// Ends a time that runs until an instant.
pub(crate) fn close_at(
    days: &Days,
    clock: &Clock,
    row: &DeadlineRow,
    reasons: &mut Vec<Reason>,
    end: Instant,
) -> Result<(), AllocError>
    ensures { IfOk result (λ _. (shown : Shown) × LeadsOn days.now clock.now row.now reasons.old.items reasons.new.items (RunsUntil end []) (Ended shown)) }
{
    let Some(outage) = shutting_outage(days, clock, row, end) else {
        push(reasons, Reason::UntilInstant(end))?;
        return Ok(());
    };
    close_later(days, clock, row, reasons, end, outage)
}

/// Ends a time that runs until an instant in whose last hour the clerk's office was inaccessible.
fn close_later(
    days: &Days,
    clock: &Clock,
    row: &DeadlineRow,
    reasons: &mut Vec<Reason>,
    end: Instant,
    outage: Outage,
) -> Result<(), AllocError>
    requires access { needs_access row.now ≡ true }
    requires outage { IsFirstOutage (meets_last_hour clock.now end) days.now.outages outage }
    requires meets { meets_last_hour clock.now end outage ≡ true }
    requires met { list_any (meets_last_hour clock.now end) days.now.outages ≡ true }
    ensures { IfOk result (λ _. (shown : Shown) × LeadsOn days.now clock.now row.now reasons.old.items reasons.new.items (RunsUntil end []) (Ended shown)) }
{
    let Some(shown) = clock.civil_of(end) else {
        push(reasons, Reason::NotCovered)?;
        push(reasons, Reason::Beyond)?;
        return Ok(());
    };
    let (day, second) = shown;
    push(reasons, Reason::LastHour(outage, day, second))?;
    let look = for_access(access_holidays(row));
    let later = same_time(days, clock, reasons, day_later(days, day), look, second)?;
    let Some(instant) = later else {
        push(reasons, Reason::Beyond)?;
        return Ok(());
    };
    push(reasons, Reason::UntilInstant(instant))?;
    Ok(())
}

/// The outage that moves the time from an instant, if one does.
fn shutting_outage(days: &Days, clock: &Clock, row: &DeadlineRow, end: Instant) -> Option<Outage>
    ensures access { IfSome result (λ _. needs_access row.now ≡ true) }
    ensures some { IfSome result (λ outage. IsFirstOutage (meets_last_hour clock.now end) days.now.outages outage × (meets_last_hour clock.now end outage ≡ true)) }
    ensures met { IfSome result (λ _. list_any (meets_last_hour clock.now end) days.now.outages ≡ true) }
    ensures none { IfNone result ((needs_access row.now && list_any (meets_last_hour clock.now end) days.now.outages) ≡ false) }
{
    if !needs_access(row) {
        return None;
    }
    outage_in_last_hour(days, clock, end)
}

/// The first outage that meets the last hour before the instant, if one does.
fn outage_in_last_hour(days: &Days, clock: &Clock, end: Instant) -> Option<Outage>
    ensures some { IfSome result (λ outage. IsFirstOutage (meets_last_hour clock.now end) days.now.outages outage × (meets_last_hour clock.now end outage ≡ true)) }
    ensures met { IfSome result (λ _. list_any (meets_last_hour clock.now end) days.now.outages ≡ true) }
    ensures none { IfNone result (list_any (meets_last_hour clock.now end) days.now.outages ≡ false) }
{
    for outage in days.outages() {
        if meets_last_hour(clock, end, *outage) {
            return Some(*outage);
        }
    }
    None
}
