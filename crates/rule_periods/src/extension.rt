//! Whether the time may be extended (Fed. R. Civ. P. 6(b)), and whether an order may set another end.

ghost use Rattle.std.specs.Prelude.{◌≡◌, true, OnOk};
ghost use Rattle.std.specs.Result.{result_err};
ghost use Rattle.court_clock.specs.Words.{civil_of};
ghost use Rattle.rule_periods.specs.Deadline.{with_grant};
ghost use Rattle.rule_periods.specs.Extension.{extension_refusal, request_refusal, reset_refusal, is_covered_grant, is_beyond, is_never, asks_findings, is_asked_in_time, is_later, is_by_day, is_after_day, is_no_later, fits_end};
ghost use Rattle.rule_periods.specs.Grant.{grant_fits, is_grant_length};
ghost use Rattle.rule_periods.specs.Period.{is_in_hours};
ghost use Rattle.rule_periods.specs.Showing.{shown_of};

use crate::deadline::DeadlineRow;
use crate::due::{act_due, extension_due};
use crate::event::Event;
use crate::extended::{extended, granted};
use crate::grant::{Grant, Request, grant_fits, is_certain, is_grant_length};
use crate::refusal::PeriodRefusal;
use crate::rule::ExtensionRule;
use crate::showing::{shown, shown_after};
use court_clock::{Clock, Day, Direction, Instant};
use court_days::Days;
use rule6::{Act, Filing, Means, Shown, is_timely};

/// Whether the request may be granted, or an order's end set, by the first refusal that applies to it.
#[tactic(auto, unfolding(crate::specs::Extension::extension_refusal))]
pub fn may_extend(
    days: &Days,
    clock: &Clock,
    row: &DeadlineRow,
    request: &Request,
) -> Result<(), PeriodRefusal>
    ensures refusal { result_err result ≡ extension_refusal days.now clock.now row.now request.now }
    // A deadline with the extension requires these.
    ensures length { OnOk result (is_grant_length request.now.grant ≡ true) }
    ensures fits { OnOk result (grant_fits (is_in_hours row.now.period) request.now.grant ≡ true) }
{
    if request.grant.is_order() {
        check_order(days, clock, row, request)
    } else {
        check_request(days, clock, row, request)
    }
}

/// Whether an order may set the end (2009 Note to Fed. R. Civ. P. 6(a)). The first refusal that applies: `BadDay` where the day of
/// the order or that of the end isn't covered; `NotExtendable` where the time must not be extended, and the end would be later.
#[tactic(auto, unfolding(crate::specs::Extension::reset_refusal))]
fn check_order(
    days: &Days,
    clock: &Clock,
    row: &DeadlineRow,
    request: &Request,
) -> Result<(), PeriodRefusal>
    requires { is_grant_length request.now.grant ≡ true }
    ensures { result_err result ≡ reset_refusal days.now clock.now row.now request.now }
{
    let now = shown(days, clock, row);
    let then = shown_with(days, clock, row, request.grant);
    if !(days.covered(request.asked.day()) && is_covered_grant(days, request.grant)) {
        return Err(PeriodRefusal::BadDay);
    }
    if is_never(extension_due(row)) && !is_no_later(clock, &now, &then) {
        return Err(PeriodRefusal::NotExtendable);
    }
    Ok(())
}

/// Whether the request may be granted (Fed. R. Civ. P. 6(b); 4(m) for a period of that Rule). The first refusal that
/// applies: `BadDay` where the day asked, or that of a date certain, isn't covered; `Beyond` where the deadline is;
/// `NotExtendable`; `WrongGrant`, by the kind of the period and by that of the end as it is; `BadLength`; then, unless the
/// period is one of Rule 4(m), `NoGoodCause`, and, where the request came after the time had expired, `LateWithoutMotion`
/// and `LateWithoutNeglect`; `Beyond` where the extended deadline would be; `NotLonger` where it wouldn't be later. A
/// request is in time where an electronic filing at its moment would be timely.
#[tactic(auto, unfolding(crate::specs::Extension::request_refusal))]
fn check_request(
    days: &Days,
    clock: &Clock,
    row: &DeadlineRow,
    request: &Request,
) -> Result<(), PeriodRefusal>
    ensures refusal { result_err result ≡ request_refusal days.now clock.now row.now request.now }
    ensures length { OnOk result (is_grant_length request.now.grant ≡ true) }
    ensures fits { OnOk result (grant_fits (is_in_hours row.now.period) request.now.grant ≡ true) }
{
    let now = shown(days, clock, row);
    let rule = extension_due(row);
    if !(days.covered(request.asked.day()) && is_covered_grant(days, request.grant)) {
        return Err(PeriodRefusal::BadDay);
    }
    if is_beyond(&now) {
        return Err(PeriodRefusal::Beyond);
    }
    if is_never(rule) {
        return Err(PeriodRefusal::NotExtendable);
    }
    if !grant_fits(row.period().is_in_hours(), request.grant) {
        return Err(PeriodRefusal::WrongGrant);
    }
    if !fits_end(&now, request.grant) {
        return Err(PeriodRefusal::WrongGrant);
    }
    if !is_grant_length(request.grant) {
        return Err(PeriodRefusal::BadLength);
    }
    if asks_findings(rule) && !request.cause {
        return Err(PeriodRefusal::NoGoodCause);
    }
    let late = !is_asked_in_time(clock, &now, request.asked);
    if asks_findings(rule) && late && !request.motion {
        return Err(PeriodRefusal::LateWithoutMotion);
    }
    if asks_findings(rule) && late && !request.neglect {
        return Err(PeriodRefusal::LateWithoutNeglect);
    }
    let then = shown_with(days, clock, row, request.grant);
    if is_beyond(&then) {
        return Err(PeriodRefusal::Beyond);
    }
    if !is_later(&now, &then) {
        return Err(PeriodRefusal::NotLonger);
    }
    Ok(())
}

/// What would be shown with one more extension, which is of the period's kind or leaves the deadline without an end.
pub fn shown_with(days: &Days, clock: &Clock, row: &DeadlineRow, grant: Grant) -> Shown
    requires { is_grant_length grant ≡ true }
    ensures { result ≡ shown_of days.now clock.now (with_grant row.now grant) }
{
    let hours = row.period().is_in_hours();
    let act = act_due(row);
    let certain = is_certain(&grant);
    let so_far = extended(days, clock, row);
    let end = granted(days, clock, hours, so_far, grant);
    shown_after(days, clock, act, certain, Direction::After, end)
}

/// Whether the time must not be extended.
fn is_never(rule: ExtensionRule) -> bool
    ensures { result ≡ is_never rule }
{
    matches!(rule, ExtensionRule::Never)
}

/// Whether the findings of Rule 6(b)(1) are required.
fn asks_findings(rule: ExtensionRule) -> bool
    ensures { result ≡ asks_findings rule }
{
    matches!(rule, ExtensionRule::GoodCause)
}

/// Whether the second end is later than the first.
fn is_later(now: &Shown, then: &Shown) -> bool
    ensures { result ≡ is_later now.now then.now }
{
    match *now {
        Shown::Last { day, act } => is_day_before(day, act, then),
        Shown::Until(instant) => is_instant_before(instant, then),
        Shown::Beyond => false,
    }
}

fn is_day_before(now: Day, _act: Act, then: &Shown) -> bool
    ensures { result ≡ is_later (Shown.Last now _act) then.now }
{
    match *then {
        Shown::Last { day, .. } => now.number() < day.number(),
        _ => false,
    }
}

fn is_instant_before(now: Instant, then: &Shown) -> bool
    ensures { result ≡ is_later (Shown.Until now) then.now }
{
    match *then {
        Shown::Until(instant) => now.seconds() < instant.seconds(),
        _ => false,
    }
}

/// Whether the extension is of the kind of the end as it is, which is another than the period's where an order set it: by days or to a
/// date from a last day, and by hours from an instant.
fn fits_end(now: &Shown, grant: Grant) -> bool
    ensures { result ≡ fits_end now.now grant }
{
    match *now {
        Shown::Last { .. } => grant_fits(false, grant),
        Shown::Until(_) => grant_fits(true, grant),
        Shown::Beyond => true,
    }
}

/// Whether the second end is no later than the first. A last day and a time of day are compared by their days.
fn is_no_later(clock: &Clock, now: &Shown, then: &Shown) -> bool
    ensures { result ≡ is_no_later clock.now now.now then.now }
{
    match *now {
        Shown::Last { day, act } => is_no_later_day(clock, day, act, then),
        Shown::Until(instant) => is_no_later_instant(clock, instant, then),
        Shown::Beyond => false,
    }
}

fn is_no_later_day(clock: &Clock, now: Day, _act: Act, then: &Shown) -> bool
    ensures { result ≡ is_no_later clock.now (Shown.Last now _act) then.now }
{
    match *then {
        Shown::Last { day, .. } => day.number() <= now.number(),
        Shown::Until(instant) => is_by_day(clock, now, instant),
        Shown::Beyond => false,
    }
}

fn is_no_later_instant(clock: &Clock, now: Instant, then: &Shown) -> bool
    ensures { result ≡ is_no_later clock.now (Shown.Until now) then.now }
{
    match *then {
        Shown::Last { day, .. } => is_after_day(clock, day, now),
        Shown::Until(instant) => instant.seconds() <= now.seconds(),
        Shown::Beyond => false,
    }
}

/// Whether the court's clock shows the day or an earlier one at the instant.
fn is_by_day(clock: &Clock, day: Day, instant: Instant) -> bool
    ensures { result ≡ is_by_day day (civil_of clock.now.zone instant) }
{
    match clock.civil_of(instant) {
        Some((shown, _)) => shown.number() <= day.number(),
        None => false,
    }
}

/// Whether it shows a later day.
fn is_after_day(clock: &Clock, day: Day, instant: Instant) -> bool
    ensures { result ≡ is_after_day day (civil_of clock.now.zone instant) }
{
    match clock.civil_of(instant) {
        Some((shown, _)) => day.number() < shown.number(),
        None => false,
    }
}

/// Whether an electronic filing at the moment of the request would be timely.
fn is_asked_in_time(clock: &Clock, now: &Shown, asked: Event) -> bool
    ensures { result ≡ is_asked_in_time clock.now now.now asked }
{
    let filing = Filing {
        day: asked.day(),
        minute: asked.minute(),
        means: Means::Electronic,
    };
    is_timely(clock, now, filing)
}

fn is_covered_grant(days: &Days, grant: Grant) -> bool
    ensures { result ≡ is_covered_grant days.now grant }
{
    match grant {
        Grant::ByDays(_) | Grant::ByHours(_) => true,
        Grant::Until(day) => days.covered(day),
        Grant::Reset(day) => days.covered(day),
        Grant::ResetAt(at) => days.covered(at.day()),
    }
}

fn is_beyond(shown: &Shown) -> bool
    ensures { result ≡ is_beyond shown.now }
{
    match *shown {
        Shown::Beyond => true,
        _ => false,
    }
}
