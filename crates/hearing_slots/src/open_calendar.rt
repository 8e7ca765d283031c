//! A calendar that is changed in place.

ghost use Rattle.std.specs.Prelude.{◌≡◌, ◌≤◌, Some};
ghost use Rattle.hearing_slots.specs.Booking.{IsWithinDay};
ghost use Rattle.hearing_slots.specs.Calendar.{IsCalendar, IsFree, HoldsWith, HoldsWithout, without_motion, with_booking};

use crate::booking::Booking;
use crate::calendar::Calendar;
use crate::indexed::Indexed;
use std::marker::Model;

/// A calendar that has room for one booking more, so that no change of it takes memory. `Calendar::open` makes it.
#[derive(Debug, Drop)]
pub struct OpenCalendar {
    indexed: Box<Indexed>,
}

impl Model for OpenCalendar {
    ghost use Rattle.std.specs.Prelude.{◌≤◌, List};
    ghost use Rattle.hearing_slots.specs.declared.booking.Booking.{Booking};
    ghost use Rattle.hearing_slots.specs.Calendar.{IsCalendar};

    ghost Value = { List Booking };

    ghost view = { λ c. c.indexed.value.bookings };

    ghost invariant = { λ c. IsCalendar c.indexed.value.bookings × (1 ≤ c.indexed.value.room) };
}

impl OpenCalendar {
    /// The calendar of these bookings.
    pub(crate) fn of(indexed: Box<Indexed>) -> OpenCalendar
        requires calendar { IsCalendar indexed.value.bookings }
        requires room { 1 ≤ indexed.value.room }
        ensures value { result ≡ indexed.value.bookings }
        ensures calendar { IsCalendar result }
    {
        OpenCalendar { indexed }
    }

    /// The calendar with the booking in its place, and without an older one of its case and motion. A booking after all
    /// others moves none.
    pub fn put(self, booking: Booking) -> Calendar
        requires within_day { IsWithinDay booking }
        requires free { IsFree self booking.day booking.first booking.count (Some (booking.case, booking.motion)) }
        ensures value { result ≡ with_booking booking self }
        ensures calendar { IsCalendar result }
        ensures holds { HoldsWith booking self result }
    {
        let mut indexed = self.indexed;
        indexed.put(booking);
        Calendar::own(indexed)
    }

    /// The calendar without the booking of the case and motion; where there is none, the calendar as it is.
    pub fn take_out(self, case: u32, motion: u32) -> Calendar
        ensures value { result ≡ without_motion case motion self }
        ensures calendar { IsCalendar result }
        ensures holds { HoldsWithout case motion self result }
    {
        let mut indexed = self.indexed;
        indexed.remove(case, motion);
        Calendar::own(indexed)
    }

    /// The calendar as it is.
    pub fn close(self) -> Calendar
        ensures value { result ≡ self }
        ensures calendar { IsCalendar result }
    {
        Calendar::own(self.indexed)
    }
}
