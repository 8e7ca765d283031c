//! The moment of an event.

ghost use Rattle.std.specs.Prelude.{◌≡◌, ◌<◌, min};
ghost use Rattle.rule_periods.specs.Event.{EventView};

use court_clock::Day;
use std::marker::Model;

/// The last minute of a day.
pub(crate) const LAST_MINUTE: u16 = 1439;

/// When something happened: a day, and a minute of it counted from midnight in the court's zone.
#[derive(Clone, Copy, Debug, PartialEq, Eq)]
pub struct Event {
    day: Day,
    minute: u16,
}

impl Model for Event {
    ghost Value = { EventView };

    ghost view = { λ e. record { day = e.day; minute = e.minute } };

    ghost invariant = { λ e. e.minute < 1440 };

    ghost inverse = { λ v. record { day = v.day; minute = v.minute } };
}

impl Event {
    /// The moment at that minute of the day. A minute of 1,440 or more is taken as 1,439, the last of the day.
    pub fn new(day: Day, minute: u16) -> Event
        ensures { result ≡ record { day = day; minute = min minute 1439 } }
    {
        Event {
            day,
            minute: minute.min(LAST_MINUTE),
        }
    }

    // The same minute of another day.
    pub(crate) fn on(self, day: Day) -> Event
        ensures { result ≡ record { day = day; minute = self.minute } }
    {
        Event {
            day,
            minute: self.minute,
        }
    }

    /// The day.
    pub fn day(self) -> Day
        ensures { result ≡ self.day }
    {
        self.day
    }

    /// The minute of the day, counted from midnight.
    pub fn minute(self) -> u16
        ensures value { result ≡ self.minute }
        ensures in_the_day { result < 1440 }
    {
        self.minute
    }
}
