//! A list of bookings that is handed out.

ghost use Rattle.std.specs.Prelude.{◌≡◌, List};

use crate::booking::Booking;
use std::marker::Model;

/// A list of bookings, which contracts see as such.
#[derive(Debug, Drop)]
pub struct Bookings {
    list: Vec<Booking>,
}

impl Model for Bookings {
    ghost use Rattle.std.specs.Prelude.{List};
    ghost use Rattle.hearing_slots.specs.declared.booking.Booking.{Booking};

    ghost Value = { List Booking };

    ghost view = { λ b. b.list.items };
}

impl Bookings {
    /// The bookings of the list, in its order.
    pub fn from_vec(list: Vec<Booking>) -> Bookings
        ensures { result ≡ list.items }
    {
        Bookings { list }
    }

    /// The bookings as a slice.
    pub fn as_slice(&self) -> &[Booking]
        ensures { result.now ≡ self.now }
    {
        &self.list
    }

    /// The list itself.
    pub fn into_vec(self) -> Vec<Booking>
        ensures { result.items ≡ self }
    {
        let Bookings { list: bookings } = self;
        bookings
    }
}
