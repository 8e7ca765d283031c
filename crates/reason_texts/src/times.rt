//! Times of day.

ghost use Rattle.std.specs.Prelude.{◌≡◌, ◌++◌, OnOk, string_bytes};
ghost use Rattle.court_clock.specs.Words.{civil_of};
ghost use Rattle.reason_texts.specs.Times.{day_end_time, minute_time, second_time, time_of_civil, two_digits};

use court_clock::{Clock, Instant};
use std::alloc::AllocError;
use std::fmt::Write;

/// Adds the time that the court's clock shows at an instant. `Err` says that memory ran out.
pub fn push_time_at(text: &mut String, clock: &Clock, instant: Instant) -> Result<(), AllocError>
    ensures { OnOk result (string_bytes text.new ≡ string_bytes text.old ++ time_of_civil (civil_of clock.now.zone instant)) }
{
    match clock.civil_of(instant) {
        Some((_, second)) => push_second(text, second),
        None => Ok(()),
    }
}

/// Adds the second of a day, counted from midnight, as hours, minutes and seconds. `Err` says that memory ran out.
#[tactic(auto, unfolding(crate::specs::Times::second_time))]
pub fn push_second(text: &mut String, second: u32) -> Result<(), AllocError>
    ensures { OnOk result (string_bytes text.new ≡ string_bytes text.old ++ second_time second) }
{
    push_two_digits(text, second / 3600)?;
    text.push_str(":")?;
    push_two_digits(text, second / 60 % 60)?;
    text.push_str(":")?;
    push_two_digits(text, second % 60)
}

/// Adds the minute of a day, counted from midnight, as hours and minutes. `Err` says that memory ran out.
#[tactic(auto, unfolding(crate::specs::Times::minute_time))]
pub fn push_minute(text: &mut String, minute: u16) -> Result<(), AllocError>
    ensures { OnOk result (string_bytes text.new ≡ string_bytes text.old ++ minute_time minute) }
{
    push_two_digits(text, u32::from(minute / 60))?;
    text.push_str(":")?;
    push_two_digits(text, u32::from(minute % 60))
}

/// Adds the minute at which a day ends, counted from midnight, as hours and minutes, or that it ends at midnight. `Err` says
/// that memory ran out.
pub fn push_day_end(text: &mut String, end: Option<u16>) -> Result<(), AllocError>
    ensures { OnOk result (string_bytes text.new ≡ string_bytes text.old ++ day_end_time end) }
{
    match end {
        Some(minute) => push_minute(text, minute),
        None => text.push_str("midnight"),
    }
}

/// Adds a number with at least two digits.
#[tactic(auto, unfolding(crate::specs::Times::two_digits))]
fn push_two_digits(text: &mut String, number: u32) -> Result<(), AllocError>
    ensures { OnOk result (string_bytes text.new ≡ string_bytes text.old ++ two_digits number) }
{
    if number < 10 {
        write!(text, "0{number}")
    } else {
        write!(text, "{number}")
    }
}
