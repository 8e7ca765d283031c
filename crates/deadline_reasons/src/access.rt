//! The end of a deadline: the last day of its period, or a later day where the clerk's office was inaccessible.

ghost use Rattle.std.specs.Prelude.{◌≡◌, ◌&&◌, true, false, [], IfSome, IfNone, IfOk};
ghost use Rattle.std.specs.Ordering.{int_eq};
ghost use Rattle.court_days.specs.Words.{has_outage};
ghost use Rattle.rule6.specs.declared.timeliness.Shown.{Shown};
ghost use Rattle.rule6.specs.declared.timeliness.Shown.TheVariants as shown;
ghost use Rattle.deadline_reasons.specs.Follows.{Closes};
ghost use Rattle.deadline_reasons.specs.Passing.{IsFirstOutage};
ghost use Rattle.deadline_reasons.specs.Row.{needs_access};
ghost use Rattle.deadline_reasons.specs.Standing.{Runs, Ended};
ghost use Rattle.deadline_reasons.specs.Inside.Leading.{LeadsOn};

use crate::look::{day_later, for_access, look_for};
use crate::reason::{Reason, push};
use crate::row::{access_holidays, needs_access};
use court_clock::{Clock, Day};
use court_days::{Days, Outage};
use rule_periods::{DeadlineRow, act_due};
use rule6::Act;
use std::alloc::AllocError;

/// Ends a time that runs to a last day.
pub(crate) fn close_on(
    days: &Days,
    clock: &Clock,
    row: &DeadlineRow,
    reasons: &mut Vec<Reason>,
    last: Day,
) -> Result<(), AllocError>
    ensures { IfOk result (λ _. (shown : Shown) × LeadsOn days.now clock.now row.now reasons.old.items reasons.new.items (Runs last (record { three = false; grants = [] })) (Ended shown)) }
{
    let Some(outage) = shutting_outage(days, row, last) else {
        push(reasons, closing(clock, act_due(row), last))?;
        return Ok(());
    };
    close_later(days, clock, row, reasons, last, outage)
}

/// Ends a time that runs to a last day on which the clerk's office was inaccessible.
fn close_later(
    days: &Days,
    clock: &Clock,
    row: &DeadlineRow,
    reasons: &mut Vec<Reason>,
    last: Day,
    outage: Outage,
) -> Result<(), AllocError>
    requires access { needs_access row.now ≡ true }
    requires outage { IsFirstOutage (λ o. int_eq o.day last) days.now.outages outage }
    requires day { outage.day ≡ last }
    ensures { IfOk result (λ _. (shown : Shown) × LeadsOn days.now clock.now row.now reasons.old.items reasons.new.items (Runs last (record { three = false; grants = [] })) (Ended shown)) }
{
    push(reasons, Reason::Inaccessible(outage))?;
    let look = for_access(access_holidays(row));
    let found = look_for(days, reasons, day_later(days, last), look)?;
    let Some(day) = found else {
        push(reasons, Reason::Beyond)?;
        return Ok(());
    };
    push(reasons, Reason::RunsTo(day))?;
    push(reasons, closing(clock, act_due(row), day))?;
    Ok(())
}

/// When the last day ends (Fed. R. Civ. P. 6(a)(4)).
fn closing(clock: &Clock, act: Act, day: Day) -> Reason
    ensures { Closes clock.now act day result (Ended (shown.Last day act)) }
{
    match act {
        Act::Service => Reason::UntilMidnight(day),
        Act::Filing => Reason::UntilClosing(day, clock.closes(), clock.efiling_until()),
    }
}

/// The outage that moves the time from its last day, if one does.
fn shutting_outage(days: &Days, row: &DeadlineRow, last: Day) -> Option<Outage>
    ensures access { IfSome result (λ _. needs_access row.now ≡ true) }
    ensures some { IfSome result (λ outage. IsFirstOutage (λ o. int_eq o.day last) days.now.outages outage × (outage.day ≡ last)) }
    ensures none { IfNone result ((needs_access row.now && has_outage days.now last) ≡ false) }
{
    if !needs_access(row) {
        return None;
    }
    outage_on(days, last)
}

/// The first outage that lies on the day, if one does.
fn outage_on(days: &Days, day: Day) -> Option<Outage>
    ensures some { IfSome result (λ outage. IsFirstOutage (λ o. int_eq o.day day) days.now.outages outage × (outage.day ≡ day)) }
    ensures none { IfNone result (has_outage days.now day ≡ false) }
{
    for outage in days.outages() {
        if outage.day() == day {
            return Some(*outage);
        }
    }
    None
}
