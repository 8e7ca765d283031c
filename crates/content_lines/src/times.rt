//! Days and instants.

ghost use Rattle.std.specs.Prelude.{◌≡◌, ◌<◌, ◌+◌, ◌++◌, OnOk, encode_utf8, string_bytes};
ghost use Rattle.std.specs.List.{flat_map};
ghost use Rattle.content_lines.specs.Times.{date_digits, time_digits, two_digits, undashed, utc_second, utc_text};

use court_clock::{Day, Instant};
use std::alloc::AllocError;
use std::fmt::Write;

/// The seconds of a day.
const DAY: i64 = 86_400;

/// Adds the date of the day of that number, without its dashes. `room` is a place to work in, and is emptied first. `Err` says that
/// memory ran out.
#[tactic(auto, unfolding(crate::specs::Times::date_digits))]
pub fn push_date(text: &mut String, room: &mut String, number: i32) -> Result<(), AllocError>
    ensures { OnOk result (string_bytes text.new ≡ string_bytes text.old ++ date_digits number) }
{
    match Day::new(number) {
        Some(day) => {
            room.clear();
            write!(room, "{day}")?;
            push_undashed(text, room.as_str())
        }
        None => Ok(()),
    }
}

/// Adds a date without its dashes.
fn push_undashed(text: &mut String, date: &str) -> Result<(), AllocError>
    ensures { OnOk result (string_bytes text.new ≡ string_bytes text.old ++ flat_map undashed date.now) }
{
    for c in date.chars() {
        push_undashed_char(text, c)?;
    }
    Ok(())
}

/// Adds a character, unless it is a dash.
fn push_undashed_char(text: &mut String, c: char) -> Result<(), AllocError>
    ensures { OnOk result (string_bytes text.new ≡ string_bytes text.old ++ flat_map undashed (encode_utf8 c)) }
{
    match c {
        '-' => Ok(()),
        c => text.push(c),
    }
}

/// Adds a second of the day, counted from midnight, as six digits.
#[tactic(auto, unfolding(crate::specs::Times::time_digits))]
fn push_time(text: &mut String, second: u32) -> Result<(), AllocError>
    requires { second < 86_400 }
    ensures { OnOk result (string_bytes text.new ≡ string_bytes text.old ++ time_digits second) }
{
    push_two_digits(text, second / 3600)?;
    push_two_digits(text, second / 60 % 60)?;
    push_two_digits(text, second % 60)
}

/// Adds a number below 100 as two digits.
fn push_two_digits(text: &mut String, number: u32) -> Result<(), AllocError>
    requires { number < 100 }
    ensures { OnOk result (string_bytes text.new ≡ string_bytes text.old ++ two_digits number) }
{
    text.push(digit(number / 10))?;
    text.push(digit(number % 10))
}

/// The digit of a number below 10.
fn digit(number: u32) -> char
    requires { number < 10 }
    ensures { result ≡ 48 + number }
{
    char::from(b'0' + number as u8)
}

/// Adds an instant, in UTC. `room` is a place to work in, and is emptied first. `Err` says that
/// memory ran out.
#[tactic(auto, unfolding(crate::specs::Times::utc_text))]
pub fn push_utc(text: &mut String, room: &mut String, instant: Instant) -> Result<(), AllocError>
    ensures { OnOk result (string_bytes text.new ≡ string_bytes text.old ++ utc_text instant) }
{
    push_date(text, room, instant.seconds().div_euclid(DAY) as i32)?;
    text.push_str("T")?;
    push_time(text, second_of_utc(instant))?;
    text.push_str("Z")
}

/// The second of its day of UTC.
fn second_of_utc(instant: Instant) -> u32
    ensures value { result ≡ utc_second instant }
    ensures within { result < 86_400 }
{
    instant.seconds().rem_euclid(DAY) as u32
}
