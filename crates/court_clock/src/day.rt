//! Days, counted from 1970-01-01.

ghost use Rattle.std.specs.Prelude.{◌≡◌, ◌↔◌, ℤ, IsSome, IfSome};
ghost use Rattle.court_clock.specs.Day.{IsDayNumber, weekday_of};

use std::marker::Model;

mod date;
mod months;

/// A day of the calendar: whole days from 1970-01-01, from -110,000 to 110,000.
#[derive(Clone, Copy, Debug, PartialEq, Eq, PartialOrd, Ord)]
pub struct Day {
    number: i32,
}

impl Model for Day {
    ghost Value = { ℤ };

    ghost view = { λ d. d.number };

    ghost invariant = { λ d. IsDayNumber d.number };

    ghost inverse = { λ n. record { number = n } };
}

impl Day {
    /// The day that is `number` days after 1970-01-01, or before it for a negative number.
    /// None outside -110,000 to 110,000.
    pub fn new(number: i32) -> Option<Day>
        ensures some { IsSome result ↔ IsDayNumber number }
        ensures value { IfSome result (λ d. d ≡ number) }
    {
        if number < -110_000 || number > 110_000 {
            return None;
        }
        Some(Day { number })
    }

    /// Whole days from 1970-01-01.
    pub fn number(self) -> i32
        ensures value { result ≡ self }
        ensures in_range { IsDayNumber result }
    {
        self.number
    }

    /// The day of the week, from 0 for Monday to 6 for Sunday.
    pub fn weekday(self) -> u8
        ensures { result ≡ weekday_of self }
    {
        (self.number + 3).rem_euclid(7) as u8
    }
}
