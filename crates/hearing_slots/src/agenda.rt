//! The bookings of a calendar in order, for calendars of which there are many copies.

ghost use Rattle.std.specs.Prelude.{◌≡◌, ◌+◌, ◌≤◌, [], Some, IfOk};
ghost use Rattle.hearing_slots.specs.Booking.{IsWithinDay};
ghost use Rattle.hearing_slots.specs.Calendar.{IsCalendar, IsFree, on_day, without_motion, with_booking, first_conflict};

use crate::booking::Booking;
use crate::ordered::{first_of, part_of_day, place_in, take_out_of};
use court_clock::Day;
use std::alloc::{AllocError, Global};
use std::marker::Model;

/// Bookings by day and on a day by first slot, no two of which share a slot. There is no mask of the slots that are
/// taken, since to copy it would cost as much as to copy the bookings.
#[derive(Debug, Drop)]
pub(crate) struct Agenda {
    bookings: Vec<Booking>,
}

impl Model for Agenda {
    ghost use Rattle.std.specs.Prelude.{List};
    ghost use Rattle.hearing_slots.specs.declared.booking.Booking.{Booking};
    ghost use Rattle.hearing_slots.specs.Calendar.{IsCalendar};

    ghost Value = { List Booking };

    ghost view = { λ a. a.bookings.items };

    ghost invariant = { λ a. IsCalendar a.bookings.items };
}

impl Agenda {
    /// No bookings.
    pub(crate) fn new(alloc: Global) -> Agenda
        ensures { result ≡ [] }
    {
        Agenda {
            bookings: Vec::new(alloc),
        }
    }

    /// All bookings, in order.
    pub(crate) fn all(&self) -> &[Booking]
        ensures value { result.now ≡ self.now }
        ensures calendar { IsCalendar self.now }
    {
        &self.bookings
    }

    /// The bookings of the day, by first slot.
    pub(crate) fn on_day(&self, day: Day) -> &[Booking]
        ensures { result.now ≡ on_day day self.now }
    {
        part_of_day(&self.bookings, day)
    }

    /// The first booking, in order, that shares a slot of the day with the span, other than the excepted one.
    pub(crate) fn conflict(
        &self,
        day: Day,
        first: u8,
        count: u8,
        except: Option<(u32, u32)>,
    ) -> Option<Booking>
        requires { first + count ≤ 96 }
        ensures { result ≡ first_conflict self.now day first count except }
    {
        first_of(self.on_day(day), day, first, count, except)
    }

    /// A copy with the new booking, and without an older one of its case and motion. `Err` says that memory ran out.
    pub(crate) fn with(&self, alloc: Global, booking: Booking) -> Result<Agenda, AllocError>
        requires within_day { IsWithinDay booking }
        requires free { IsFree self.now booking.day booking.first booking.count (Some (booking.case, booking.motion)) }
        ensures { IfOk result (λ agenda. agenda ≡ with_booking booking self.now) }
    {
        let mut bookings = self.duplicate(alloc)?;
        take_out_of(&mut bookings, booking.case, booking.motion);
        bookings.reserve(1)?;
        place_in(&mut bookings, booking);
        Ok(Agenda { bookings })
    }

    /// A copy without the booking of the case and motion. `Err` says that memory ran out.
    pub(crate) fn without(
        &self,
        alloc: Global,
        case: u32,
        motion: u32,
    ) -> Result<Agenda, AllocError>
        ensures { IfOk result (λ agenda. agenda ≡ without_motion case motion self.now) }
    {
        let mut bookings = self.duplicate(alloc)?;
        take_out_of(&mut bookings, case, motion);
        Ok(Agenda { bookings })
    }

    /// A copy of the bookings, with room for one more unless there are as many as can be.
    fn duplicate(&self, alloc: Global) -> Result<Vec<Booking>, AllocError>
        ensures value { IfOk result (λ bookings. bookings.items ≡ self.now) }
        ensures calendar { IfOk result (λ bookings. IsCalendar bookings.items) }
    {
        let mut bookings = Vec::with_capacity(alloc, self.bookings.len().saturating_add(1))?;
        bookings.extend_from_slice(&self.bookings)?;
        Ok(bookings)
    }
}
