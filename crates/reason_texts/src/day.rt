//! The day that a reason is about.

ghost use Rattle.std.specs.Prelude.{◌≡◌, ◌++◌, OnOk, option_map, string_bytes};
ghost use Rattle.court_clock.specs.Words.{civil_of};
ghost use Rattle.reason_texts.specs.Day.{day_column, day_shown, day_of_civil, day_of_grant, weekday_name};

use court_clock::{Clock, Day, Instant};
use deadline_reasons::Reason;
use rule_periods::Grant;
use std::alloc::AllocError;
use std::fmt::Write;

/// The day that a reason is about, where it is about one. An instant lies on the day that the court's clock shows.
pub fn day_shown(clock: &Clock, reason: &Reason) -> Option<Day>
    ensures { result ≡ day_shown clock.now reason.now }
{
    match *reason {
        Reason::Excluded(day)
        | Reason::Set(day)
        | Reason::Counted(_, day)
        | Reason::PassedOver(day, _)
        | Reason::RunsTo(day)
        | Reason::EndsOn(day)
        | Reason::Continued(day, _)
        | Reason::UntilMidnight(day)
        | Reason::UntilClosing(day, _, _) => Some(day),
        Reason::SetAt(instant)
        | Reason::HoursFrom(instant)
        | Reason::HoursCounted(_, instant, _)
        | Reason::SameTime(_, instant)
        | Reason::UntilInstant(instant) => day_at(clock, instant),
        Reason::Extended(grant) | Reason::NotExtended(grant) => day_of_grant(grant),
        Reason::Inaccessible(outage) | Reason::LastHour(outage, _, _) => Some(outage.day()),
        Reason::ThreeAdded(_) | Reason::NotCovered | Reason::Beyond => None,
    }
}

/// The day that the court's clock shows at an instant.
fn day_at(clock: &Clock, instant: Instant) -> Option<Day>
    ensures { result ≡ day_of_civil (civil_of clock.now.zone instant) }
{
    match clock.civil_of(instant) {
        Some((day, _)) => Some(day),
        None => None,
    }
}

/// The date certain of an extension to one, or the day that an order sets.
fn day_of_grant(grant: Grant) -> Option<Day>
    ensures { result ≡ day_of_grant grant }
{
    match grant {
        Grant::Until(day) | Grant::Reset(day) => Some(day),
        Grant::ResetAt(at) => Some(at.day()),
        Grant::ByDays(_) | Grant::ByHours(_) => None,
    }
}

/// Adds the day's weekday and date, or as many spaces.
pub(crate) fn push_day(text: &mut String, day: Option<Day>) -> Result<(), AllocError>
    ensures { OnOk result (string_bytes text.new ≡ string_bytes text.old ++ day_column day) }
{
    match day {
        Some(day) => {
            text.push_str(weekday_name(day.weekday()))?;
            write!(text, " {day}")
        }
        None => text.push_str("              "),
    }
}

/// The name of a day of the week, counted from 0 for Monday.
fn weekday_name(weekday: u8) -> &'static str
    ensures { result.now ≡ weekday_name weekday }
{
    match weekday {
        0 => "Mon",
        1 => "Tue",
        2 => "Wed",
        3 => "Thu",
        4 => "Fri",
        5 => "Sat",
        _ => "Sun",
    }
}
