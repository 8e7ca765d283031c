//! What happened, in words.

ghost use Rattle.std.specs.Prelude.{◌≡◌, ◌++◌, OnOk, codes, option_copied, string_bytes};
ghost use Rattle.reason_texts.specs.Times.{minute_time};
ghost use Rattle.reason_texts.specs.What.{cause_called, cause_named, cause_shown, cause_text, cause_unnamed, change_text, change_words, days_or_hours, detail_text, end_times, first_words, grant_text, grant_words, hours_text, kind_text, last_words, name_of_cause, outage_text, time_set, ungranted_words, what_text};

use crate::names::{HolidayName, name_on, push_federal_name, push_legal};
use crate::times::{push_day_end, push_minute, push_time_at};
use court_clock::{Clock, Day, Direction, Instant};
use court_days::Outage;
use deadline_reasons::{Cause, Reason};
use rule_periods::Grant;
use rule6::ServiceKind;
use std::alloc::AllocError;
use std::fmt::Write;

/// Adds what happened. A holiday is called by the first of these names that its day has, if it has one. `Err` says that memory
/// ran out.
#[tactic(auto, unfolding(crate::specs::What::what_text))]
pub fn push_what(
    text: &mut String,
    clock: &Clock,
    names: &[HolidayName],
    direction: Direction,
    reason: &Reason,
) -> Result<(), AllocError>
    ensures { OnOk result (string_bytes text.new ≡ string_bytes text.old ++ what_text clock.now names.now direction reason.now) }
{
    text.push_str(first_words(reason))?;
    push_detail(text, clock, names, direction, reason)?;
    text.push_str(last_words(reason))
}

/// The words that a reason begins with.
fn first_words(reason: &Reason) -> &'static str
    ensures { result.now ≡ first_words reason.now }
{
    match *reason {
        Reason::Excluded(_) => "day of the event, excluded",
        Reason::Set(_) => "set for this day by an order",
        Reason::SetAt(_) => "set by an order for ",
        Reason::Counted(_, _) => "day ",
        Reason::PassedOver(_, _) => "",
        Reason::RunsTo(_) => "the time runs to this day",
        Reason::ThreeAdded(_) => "3 days added, served ",
        Reason::Extended(grant) => grant_words(grant),
        Reason::NotExtended(grant) => ungranted_words(grant),
        Reason::HoursFrom(_) => "the event, at ",
        Reason::HoursCounted(_, _, _) => "hour ",
        Reason::EndsOn(_) => "the hours end on this day",
        Reason::Continued(_, _) => "the hours end, and are continued",
        Reason::SameTime(_, _) => "the same time, ",
        Reason::Inaccessible(_) | Reason::LastHour(_, _, _) => "clerk's office inaccessible ",
        Reason::UntilMidnight(_) => "last day, to midnight",
        Reason::UntilClosing(_, _, _) => "last day, to ",
        Reason::UntilInstant(_) => "the time ends at ",
        Reason::NotCovered => "a day that is needed isn't covered",
        Reason::Beyond => "beyond the days covered",
    }
}

/// Adds what is particular to a reason.
fn push_detail(
    text: &mut String,
    clock: &Clock,
    names: &[HolidayName],
    direction: Direction,
    reason: &Reason,
) -> Result<(), AllocError>
    ensures { OnOk result (string_bytes text.new ≡ string_bytes text.old ++ detail_text clock.now names.now direction reason.now) }
{
    match *reason {
        Reason::Counted(n, _) => write!(text, "{n}"),
        Reason::PassedOver(day, cause) => push_cause(text, names, day, cause),
        Reason::ThreeAdded(kind) => text.push_str(kind_words(kind)),
        Reason::Extended(grant) | Reason::NotExtended(grant) => push_grant(text, grant),
        Reason::SetAt(instant)
        | Reason::HoursFrom(instant)
        | Reason::SameTime(_, instant)
        | Reason::UntilInstant(instant) => push_time_at(text, clock, instant),
        Reason::HoursCounted(h, instant, forward) => push_hours(
            text, clock, direction, h, instant, forward,
        ),
        Reason::Inaccessible(outage) | Reason::LastHour(outage, _, _) => push_outage(text, outage),
        Reason::UntilClosing(_, closes, until) => push_end_times(text, closes, until),
        _ => Ok(()),
    }
}

/// The words that a reason ends with.
fn last_words(reason: &Reason) -> &'static str
    ensures { result.now ≡ last_words reason.now }
{
    match *reason {
        Reason::Counted(_, _) => ", every day counted",
        Reason::PassedOver(_, _) => ", passed over",
        _ => "",
    }
}

/// Adds how many hours are counted, when they end, and how the clocks were changed meanwhile.
fn push_hours(
    text: &mut String,
    clock: &Clock,
    direction: Direction,
    hours: u32,
    end: Instant,
    forward: i32,
) -> Result<(), AllocError>
    ensures { OnOk result (string_bytes text.new ≡ string_bytes text.old ++ hours_text clock.now direction hours end forward) }
{
    write!(text, "{hours}, at ")?;
    push_time_at(text, clock, end)?;
    push_change(text, direction, forward)
}

/// Adds by how many minutes the clocks were changed.
fn push_change(text: &mut String, direction: Direction, forward: i32) -> Result<(), AllocError>
    ensures { OnOk result (string_bytes text.new ≡ string_bytes text.old ++ change_text direction forward) }
{
    if forward == 0 {
        return Ok(());
    }
    text.push_str(change_words(direction, forward))?;
    let minutes = forward.unsigned_abs() / 60;
    write!(text, "{minutes} min")
}

/// That the clocks were set forward or back. `forward` is the number of seconds by which the clock is further ahead at the
/// end of the hours than where they begin. Hours before an event end earlier than they begin.
fn change_words(direction: Direction, forward: i32) -> &'static str
    ensures { result.now ≡ change_words direction forward }
{
    match direction {
        Direction::After if forward > 0 => ", clocks forward ",
        Direction::After => ", clocks back ",
        Direction::Before if forward > 0 => ", clocks back ",
        Direction::Before => ", clocks forward ",
    }
}

/// Adds when the clerk's office was inaccessible.
fn push_outage(text: &mut String, outage: Outage) -> Result<(), AllocError>
    ensures { OnOk result (string_bytes text.new ≡ string_bytes text.old ++ outage_text outage) }
{
    push_minute(text, outage.from())?;
    text.push_str(" to ")?;
    push_minute(text, outage.to())
}

/// Adds when the last day ends for filing on paper, and for electronic filing.
fn push_end_times(text: &mut String, closes: u16, until: Option<u16>) -> Result<(), AllocError>
    ensures { OnOk result (string_bytes text.new ≡ string_bytes text.old ++ end_times closes until) }
{
    push_minute(text, closes)?;
    text.push_str(", e-filing to ")?;
    push_day_end(text, until)
}

/// What is done: the time is extended, or an order sets another end.
fn grant_words(grant: Grant) -> &'static str
    ensures { result.now ≡ grant_words grant }
{
    match grant {
        Grant::ByDays(_) | Grant::ByHours(_) | Grant::Until(_) => "extended ",
        Grant::Reset(_) | Grant::ResetAt(_) => "reset ",
    }
}

/// What isn't done, where the end is of another kind than the period.
fn ungranted_words(grant: Grant) -> &'static str
    ensures { result.now ≡ ungranted_words grant }
{
    match grant {
        Grant::ByDays(_) | Grant::ByHours(_) | Grant::Until(_) => "not extended ",
        Grant::Reset(_) | Grant::ResetAt(_) => "not reset ",
    }
}

/// Adds how far the time is extended, or to when it is reset.
fn push_grant(text: &mut String, grant: Grant) -> Result<(), AllocError>
    ensures { OnOk result (string_bytes text.new ≡ string_bytes text.old ++ grant_text grant) }
{
    match grant {
        Grant::ByDays(n) => push_by(text, n, " day", " days"),
        Grant::ByHours(h) => push_by(text, h, " hour", " hours"),
        Grant::Until(_) => text.push_str("to this day"),
        Grant::Reset(_) => text.push_str("to this day by an order"),
        Grant::ResetAt(at) => push_time_set(text, at.minute()),
    }
}

/// Adds to which time of the day an order sets the end.
fn push_time_set(text: &mut String, minute: u16) -> Result<(), AllocError>
    ensures { OnOk result (string_bytes text.new ≡ string_bytes text.old ++ time_set minute) }
{
    text.push_str("to ")?;
    push_ordered_time(text, minute)
}

/// Adds a time of the day, and that an order sets it.
fn push_ordered_time(text: &mut String, minute: u16) -> Result<(), AllocError>
    ensures { OnOk result (string_bytes text.new ≡ string_bytes text.old ++ minute_time minute ++ codes " of this day by an order") }
{
    push_minute(text, minute)?;
    text.push_str(" of this day by an order")
}

/// Adds by how many days or hours, as one or as many are called.
fn push_by(text: &mut String, number: u32, one: &str, many: &str) -> Result<(), AllocError>
    ensures { OnOk result (string_bytes text.new ≡ string_bytes text.old ++ codes "by " ++ days_or_hours number one.now many.now) }
{
    write!(text, "by {number}")?;
    if number == 1 {
        text.push_str(one)
    } else {
        text.push_str(many)
    }
}

/// Adds a cause by the name that the court's file gives it, or else as it is called without one.
fn push_cause(
    text: &mut String,
    names: &[HolidayName],
    day: Day,
    cause: Cause,
) -> Result<(), AllocError>
    ensures { OnOk result (string_bytes text.new ≡ string_bytes text.old ++ cause_shown names.now day cause) }
{
    push_called(text, day, cause, name_of_cause(names, day, cause))
}

/// Adds a cause with this name, or with none.
fn push_called(
    text: &mut String,
    day: Day,
    cause: Cause,
    name: Option<&str>,
) -> Result<(), AllocError>
    ensures { OnOk result (string_bytes text.new ≡ string_bytes text.old ++ cause_called day cause (option_copied name.entry)) }
{
    match name {
        Some(name) => push_named(text, day, cause, name),
        None => push_unnamed(text, day, cause),
    }
}

/// Adds a cause to which the court's file gives this name.
fn push_named(text: &mut String, day: Day, cause: Cause, name: &str) -> Result<(), AllocError>
    ensures { OnOk result (string_bytes text.new ≡ string_bytes text.old ++ cause_named day cause name.now) }
{
    match cause {
        Cause::FederalHoliday => push_federal_name(text, day, name),
        _ => text.push_str(name),
    }
}

/// Adds a cause to which the court's file gives no name.
fn push_unnamed(text: &mut String, day: Day, cause: Cause) -> Result<(), AllocError>
    ensures { OnOk result (string_bytes text.new ≡ string_bytes text.old ++ cause_unnamed day cause) }
{
    match cause {
        Cause::FederalHoliday => push_legal(text, day),
        _ => text.push_str(cause_word(cause)),
    }
}

/// The name that the court's file gives a holiday, where it gives one; other causes have none.
fn name_of_cause(names: &[HolidayName], day: Day, cause: Cause) -> Option<&str>
    ensures { option_copied result ≡ name_of_cause names.now day cause }
{
    match cause {
        Cause::FederalHoliday | Cause::StateHoliday => name_on(names, day),
        _ => None,
    }
}

fn cause_word(cause: Cause) -> &'static str
    ensures { result.now ≡ cause_text cause }
{
    match cause {
        Cause::Saturday => "Saturday",
        Cause::Sunday => "Sunday",
        Cause::FederalHoliday => "legal holiday",
        Cause::StateHoliday => "legal holiday of the state",
        Cause::Inaccessible => "inaccessible",
    }
}

fn kind_words(kind: ServiceKind) -> &'static str
    ensures { result.now ≡ kind_text kind }
{
    match kind {
        ServiceKind::HandA => "by hand",
        ServiceKind::LeftB => "at office or home",
        ServiceKind::MailC => "by mail",
        ServiceKind::ClerkD => "by leaving with the clerk",
        ServiceKind::ElectronicE => "electronically",
        ServiceKind::OtherF => "by other means",
    }
}
