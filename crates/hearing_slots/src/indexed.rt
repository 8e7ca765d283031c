//! A timetable that finds each booking by its case and motion.

ghost use Rattle.std.specs.Prelude.{◌≡◌, ◌≤◌, [], Some, IfOk, OnOk};
ghost use Rattle.hearing_slots.specs.Booking.{IsWithinDay};
ghost use Rattle.hearing_slots.specs.Calendar.{IsCalendar, IsFree, without_motion, with_booking};
ghost use Rattle.hearing_slots.specs.Motions.{NotesBookings};

use crate::booking::Booking;
use crate::motions::{Motions, forget, note};
use crate::timetable::Timetable;
use std::alloc::AllocError;
use std::marker::Model;

/// Bookings in order that change in place: the place of one is found by its case and motion.
#[derive(Debug, Drop)]
pub(crate) struct Indexed {
    timetable: Timetable,
    motions: Motions,
}

impl Model for Indexed {
    ghost use Rattle.std.specs.Prelude.{min};
    ghost use Rattle.std.specs.HashMap.{spare};
    ghost use Rattle.hearing_slots.specs.Calendar.{IsCalendar};
    ghost use Rattle.hearing_slots.specs.Motions.{NotesBookings};
    ghost use Rattle.hearing_slots.specs.Timetable.{TimetableView};

    ghost Value = { TimetableView };

    ghost view = { λ t. record { bookings = t.timetable.bookings; room = min t.timetable.room (spare t.motions) } };

    ghost invariant = { λ t. IsCalendar t.timetable.bookings × NotesBookings t.timetable.bookings t.motions };
}

impl Indexed {
    /// The bookings of the timetable, each of which is noted for its motion.
    pub(crate) fn of(timetable: Timetable, motions: Motions) -> Indexed
        requires calendar { IsCalendar timetable.bookings }
        requires noted { NotesBookings timetable.bookings motions }
        ensures { result.bookings ≡ timetable.bookings }
    {
        Indexed { timetable, motions }
    }

    /// The bookings in order.
    pub(crate) fn timetable(&self) -> &Timetable
        ensures value { result.now.bookings ≡ self.now.bookings }
        ensures calendar { IsCalendar self.now.bookings }
    {
        &self.timetable
    }

    /// Makes room for one booking more.
    pub(crate) fn make_room(&mut self) -> Result<(), AllocError>
        ensures value { self.new.bookings ≡ self.old.bookings }
        ensures calendar { IsCalendar self.new.bookings }
        ensures room { OnOk result (1 ≤ self.new.room) }
    {
        self.timetable.make_room()?;
        self.motions.reserve(1)
    }

    /// Takes out the booking of the case and motion, if there is one.
    pub(crate) fn remove(&mut self, case: u32, motion: u32)
        ensures value { self.new.bookings ≡ without_motion case motion self.old.bookings }
        ensures calendar { IsCalendar self.new.bookings }
    {
        let gone = forget(&mut self.motions, case, motion);
        self.timetable.remove(case, motion, gone);
    }

    /// Puts the booking in its place, and takes out an older one of its case and motion.
    pub(crate) fn put(&mut self, booking: Booking)
        requires within_day { IsWithinDay booking }
        requires free { IsFree self.old.bookings booking.day booking.first booking.count (Some (booking.case, booking.motion)) }
        requires room { 1 ≤ self.old.room }
        ensures value { self.new.bookings ≡ with_booking booking self.old.bookings }
        ensures calendar { IsCalendar self.new.bookings }
    {
        let older = forget(&mut self.motions, booking.case, booking.motion);
        note(&mut self.motions, &booking);
        self.timetable.put(booking, older);
    }
}
