//! The reasons of a period that is stated in days, and of a day that an order sets.

ghost use Rattle.std.specs.Prelude.{◌≡◌, ◌≤◌, false, IfOk};
ghost use Rattle.court_clock.specs.Words.{ClockView, counted_from};
ghost use Rattle.rule6.specs.declared.timeliness.Shown.{Shown};
ghost use Rattle.rule_periods.specs.declared.period.Length.TheVariants as stated;
ghost use Rattle.rule_periods.specs.Words.{DeadlineRowView};
ghost use Rattle.deadline_reasons.specs.Row.{length_of, adds_three};
ghost use Rattle.deadline_reasons.specs.Standing.{ToCome, Unstarted, Counting, Ended};
ghost use Rattle.deadline_reasons.specs.Inside.Leading.{LeadsOn, with_day};

use crate::extended::finish_days;
use crate::look::{away_from_event, covered_day, look_for};
use crate::reason::{Reason, push};
use crate::row::{adding_kind, event_day};
use court_clock::{Clock, Day, Direction};
use court_days::Days;
use rule_periods::DeadlineRow;
use std::alloc::AllocError;

/// The days that are added after service by mail, on the clerk or by other means (Fed. R. Civ. P. 6(d)).
const ADDED_DAYS: u32 = 3;

/// Adds the reasons of a period of `n` days.
pub(crate) fn push_days(
    days: &Days,
    clock: &Clock,
    row: &DeadlineRow,
    reasons: &mut Vec<Reason>,
    n: u32,
) -> Result<(), AllocError>
    requires days { length_of row.now row.now.period ≡ stated.Days n }
    requires length { n ≤ 3650 }
    ensures { IfOk result (λ _. (shown : Shown) × LeadsOn days.now clock.now row.now reasons.old.items reasons.new.items Unstarted (Ended shown)) }
{
    let event = event_day(row);
    push(reasons, Reason::Excluded(event))?;
    let expiry = count(days, reasons, event, n, row.period().direction())?;
    let last = three_more(days, row, reasons, expiry)?;
    finish_days(days, clock, row, reasons, last)
}

/// Adds the reasons of a deadline for which an order sets the day on which it ends.
pub(crate) fn push_set_day(
    days: &Days,
    clock: &Clock,
    row: &DeadlineRow,
    reasons: &mut Vec<Reason>,
) -> Result<(), AllocError>
    requires { length_of row.now row.now.period ≡ stated.ToDay }
    ensures { IfOk result (λ _. (shown : Shown) × LeadsOn days.now clock.now row.now reasons.old.items reasons.new.items Unstarted (Ended shown)) }
{
    let day = row.event().day();
    push(reasons, Reason::Set(day))?;
    finish_days(days, clock, row, reasons, Some(day))
}

/// Counts `n` days, and looks for the last day from there.
pub(crate) fn count(
    days: &Days,
    reasons: &mut Vec<Reason>,
    from: Day,
    n: u32,
    direction: Direction,
) -> Result<Option<Day>, AllocError>
    requires { n ≤ 3650 }
    ensures { (clock : ClockView) (row : DeadlineRowView) (rest : ToCome) → IfOk result (λ last. LeadsOn days.now clock row reasons.old.items reasons.new.items (Counting from n direction rest) (with_day last rest)) }
{
    let Some(day) = covered_day(days, counted(from, n, direction)) else {
        push(reasons, Reason::NotCovered)?;
        return Ok(None);
    };
    push(reasons, Reason::Counted(n, day))?;
    let found = look_for(days, reasons, day.number(), away_from_event(direction))?;
    let Some(last) = found else {
        return Ok(None);
    };
    push(reasons, Reason::RunsTo(last))?;
    Ok(Some(last))
}

/// The number of the day that lies `n` days from an event.
fn counted(event: Day, n: u32, direction: Direction) -> i32
    requires { n ≤ 3650 }
    ensures { result ≡ counted_from event n direction }
{
    let count = n as i32;
    match direction {
        Direction::After => event.number() + count,
        Direction::Before => event.number() - count,
    }
}

/// Counts three days more, where the service adds them.
fn three_more(
    days: &Days,
    row: &DeadlineRow,
    reasons: &mut Vec<Reason>,
    expiry: Option<Day>,
) -> Result<Option<Day>, AllocError>
    ensures { (clock : ClockView) → IfOk result (λ last. LeadsOn days.now clock row.now reasons.old.items reasons.new.items (with_day expiry (record { three = adds_three row.now row.now.period; grants = row.now.grants })) (with_day last (record { three = false; grants = row.now.grants }))) }
{
    let Some(kind) = adding_kind(row) else {
        return Ok(expiry);
    };
    let Some(day) = expiry else {
        return Ok(None);
    };
    push(reasons, Reason::ThreeAdded(kind))?;
    count(days, reasons, day, ADDED_DAYS, Direction::After)
}
