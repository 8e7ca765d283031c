//! A day as an option says it: by its date, or by a word that counts from today.

ghost use Rattle.std.specs.Prelude.{◌≡◌, ℤ};
ghost use Rattle.program_main.specs.Texts.Days.{before_today, count_of_days, counted, day_on, day_said, last_of_days, nearest_day, next_weekday, today_by};

use crate::texts::numbers::number_of;
use court_clock::{Clock, Day, Instant};

/// The first number that a day may have.
const FIRST_DAY: i64 = -110_000;

/// The last one.
const LAST_DAY: i64 = 110_000;

/// A day as an option says it.
#[derive(Clone, Copy, Debug, PartialEq, Eq)]
pub enum DaySaid {
    /// `2025-09-15`: that day.
    Date(Day),
    /// `today`, `tomorrow` or `+7d`: so many days after today.
    After(u32),
    /// `yesterday` or `-3d`: so many days before today.
    Before(u32),
    /// `monday` to `sunday`: today, or else the next day, of that weekday, from 0 for Monday to 6 for Sunday.
    Next(u8),
}

impl DaySaid {
    /// The day, where that day is today. A day that would be too far away is the first or the last that there is.
    pub fn on(self, today: Day) -> Day
        ensures { result ≡ day_on today self }
    {
        let number = i64::from(today.number());
        match self {
            DaySaid::Date(day) => day,
            DaySaid::After(count) => nearest_day(number + i64::from(count)),
            DaySaid::Before(count) => nearest_day(number - i64::from(count)),
            DaySaid::Next(weekday) => nearest_day(next_weekday(today, weekday)),
        }
    }
}

/// The number of today, or else of the next day, that has the weekday.
fn next_weekday(today: Day, weekday: u8) -> i64
    ensures { result ≡ next_weekday today weekday }
{
    let ahead = (i64::from(weekday) - i64::from(today.weekday())).rem_euclid(7);
    i64::from(today.number()) + ahead
}

/// The day of that number, or else the one that is nearest to it.
fn nearest_day(number: i64) -> Day
    ensures { result ≡ nearest_day number }
{
    let within = if number < FIRST_DAY {
        FIRST_DAY
    } else if number > LAST_DAY {
        LAST_DAY
    } else {
        number
    };
    match Day::new(within as i32) {
        Some(day) => day,
        None => unreachable!(),
    }
}

/// The day that the court's clock shows at the instant; where that is no `Day`, the first day of 1970.
pub fn today_by(clock: &Clock, instant: Instant) -> Day
    ensures { result ≡ today_by clock.now instant }
{
    match clock.civil_of(instant) {
        Some((day, _)) => day,
        None => nearest_day(0),
    }
}

/// The day that a text says. None for a text that says none.
pub fn day_said(text: &str) -> Option<DaySaid>
    ensures { result ≡ day_said text.now }
{
    match text {
        "today" => Some(DaySaid::After(0)),
        "tomorrow" => Some(DaySaid::After(1)),
        "yesterday" => Some(DaySaid::Before(1)),
        "monday" => Some(DaySaid::Next(0)),
        "tuesday" => Some(DaySaid::Next(1)),
        "wednesday" => Some(DaySaid::Next(2)),
        "thursday" => Some(DaySaid::Next(3)),
        "friday" => Some(DaySaid::Next(4)),
        "saturday" => Some(DaySaid::Next(5)),
        "sunday" => Some(DaySaid::Next(6)),
        _ => counted(text),
    }
}

/// The day of a date, or so many days after today, or before it.
fn counted(text: &str) -> Option<DaySaid>
    ensures { result ≡ counted text.now }
{
    match text.strip_prefix('+') {
        Some(count) => Some(DaySaid::After(count_of_days(count)?)),
        None => before_today(text),
    }
}

/// The day of a date, or so many days before today.
fn before_today(text: &str) -> Option<DaySaid>
    ensures { result ≡ before_today text.now }
{
    match text.strip_prefix('-') {
        Some(count) => Some(DaySaid::Before(count_of_days(count)?)),
        None => Some(DaySaid::Date(Day::from_text(text)?)),
    }
}

/// The last of so many days, of which today is the first: `7` says the sixth after today. None for a text that writes no number, or 0.
pub(crate) fn last_of_days(text: &str) -> Option<DaySaid>
    ensures { result ≡ last_of_days text.now }
{
    let count = number_of(text)?;
    if count == 0 {
        return None;
    }
    Some(DaySaid::After(count - 1))
}

/// A number of days, as `7d`.
fn count_of_days(text: &str) -> Option<u32>
    ensures { result ≡ count_of_days text.now }
{
    number_of(text.strip_suffix('d')?)
}
