//! The text of a day.

ghost use Rattle.std.specs.Prelude.{◌≡◌, ◌+◌, ◌/◌, ◌%◌, ◌<◌, ◌↔◌, ◌&&◌, true, Some, IsSome, IfSome, int_le, unsigned_abs};
ghost use Rattle.std.specs.Str.{bytes_eq};
ghost use Rattle.jiff_core.specs.Calendar.{days_from_civil};
ghost use Rattle.jiff_core.specs.Date.{epoch_day};
ghost use Rattle.jiff_fmt.specs.Text.{date_text as jiff_date_text};
ghost use Rattle.court_clock.specs.Day.{IsDayNumber};
ghost use Rattle.court_clock.specs.Day.Date.{day_text, day_of_text, is_written_day};

use crate::day::Day;
use jiff::civil::Date;
use std::fmt;

/// 1900-01-01.
const FIRST_WRITTEN: i32 = -25_567;

/// 2199-12-31.
const LAST_WRITTEN: i32 = 84_005;

impl Day {
    /// The day that `text` spells as `YYYY-MM-DD`, exactly as `Display` writes it, with a year from 1900 to 2199.
    /// None for any other text, also for a date that the calendar doesn't have.
    #[tactic(auto, using(crate::proofs::DayLemmas::TextLemmas::unreadable, crate::proofs::DayLemmas::TextLemmas::reads_none))]
    pub fn from_text(text: &str) -> Option<Day>
        ensures { result ≡ day_of_text text.now }
    {
        let date = text.parse::<Date>().ok()?;
        if !is_spelled_by(date, text) {
            return None;
        }
        day_of(date)
    }

    /// The date of this day.
    pub(crate) fn date(self) -> Date
        ensures date { epoch_day result ≡ self }
        ensures day { IsDayNumber self }
    {
        match jiff_core::civil::Date::from_unix_epoch_day(i64::from(self.number())) {
            Ok(date) => Date::from_plain(date),
            Err(_) => unreachable!(),
        }
    }
}

/// Writes the day as `YYYY-MM-DD`.
impl fmt::Display for Day {
    ghost output = { λ d. Some (day_text d) };

    #[tactic(auto, using(crate::proofs::DayLemmas::TextLemmas::written_date))]
    fn fmt<W: fmt::Write>(&self, f: &mut fmt::Formatter<W>) -> fmt::Result {
        let date = self.date();
        write!(f, "{date}")
    }
}

/// The day that has the date, if it is one.
fn day_of(date: Date) -> Option<Day>
    ensures some { IsSome result ↔ IsDayNumber (epoch_day date) }
    ensures value { IfSome result (λ d. d ≡ epoch_day date) }
{
    let number = date.to_plain().to_unix_epoch_day();
    Day::new(number)
}

/// Whether the date is one of the years 1900 to 2199 and the text is how it is written.
fn is_spelled_by(date: Date, text: &str) -> bool
    ensures { result ≡ (is_written_day (epoch_day date) && bytes_eq (jiff_date_text date) text.now) }
{
    is_written(date) && is_text_of(date, text)
}

/// Whether the date is one of the years 1900 to 2199.
#[tactic(auto, using(crate::proofs::DayLemmas::TextLemmas::first_written_day, crate::proofs::DayLemmas::TextLemmas::last_written_day))]
fn is_written(date: Date) -> bool
    ensures { result ≡ is_written_day (epoch_day date) }
{
    let number = date.to_plain().to_unix_epoch_day();
    FIRST_WRITTEN <= number && number <= LAST_WRITTEN
}

/// Whether the text has the digits of the date. The date is one of those years, so its year has four digits.
#[tactic(auto, using(crate::proofs::DayLemmas::TextLemmas::written_digits))]
fn is_text_of(date: Date, text: &str) -> bool
    requires { is_written_day (epoch_day date) ≡ true }
    ensures { result ≡ bytes_eq (jiff_date_text date) text.now }
{
    let year = year_number(date);
    let (century, rest) = (year / 100, year % 100);
    let date = date.to_plain();
    let (month, day) = (u16::from(date.month), u16::from(date.day));
    let digits = [
        tens(century),
        ones(century),
        tens(rest),
        ones(rest),
        b'-',
        tens(month),
        ones(month),
        b'-',
        tens(day),
        ones(day),
    ];
    &digits[..] == text.as_bytes()
}

/// The number of the date's year.
fn year_number(date: Date) -> u16
    ensures value { result ≡ unsigned_abs date.year }
    ensures bound { result < 10_000 }
{
    date.year().unsigned_abs()
}

/// The first of the two digits of a number below 100.
fn tens(number: u16) -> u8
    requires { number < 100 }
    ensures { result ≡ 48 + number / 10 }
{
    b'0' + (number / 10) as u8
}

/// The second of the two digits of a number below 100.
fn ones(number: u16) -> u8
    ensures { result ≡ 48 + number % 10 }
{
    b'0' + (number % 10) as u8
}
