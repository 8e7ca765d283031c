//! The bookings of a calendar in order, and the slots that are taken on each day.

ghost use Rattle.std.specs.Prelude.{◌≡◌, ◌+◌, ◌≤◌, [], Some, IfOk, OnOk, IfSome, IfNone, false, All, Option, find};
ghost use Rattle.hearing_slots.specs.Booking.{is_of, IsWithinDay, SharesSlot};
ghost use Rattle.hearing_slots.specs.Calendar.{IsCalendar, IsFree, IsLeastConflict, on_day, in_place, without_motion, with_booking, first_conflict};

use crate::booking::Booking;
use crate::day_slots::{DaySlots, lower, mark, slots_from, taken_on};
use crate::ordered::{first_of, part_of_day, place_in, slots_on, take_out};
use court_clock::Day;
use std::alloc::{AllocError, Global};
use std::marker::Model;

/// Bookings by day and on a day by first slot, no two of which share a slot.
#[derive(Debug, Drop)]
pub(crate) struct Timetable {
    bookings: Vec<Booking>,
    // For each day with a booking the slots that are taken on it.
    days: Vec<DaySlots>,
}

impl Model for Timetable {
    ghost use Rattle.std.specs.Prelude.{◌-◌, min, vec_len, vec_capacity};
    ghost use Rattle.hearing_slots.specs.Calendar.{IsCalendar};
    ghost use Rattle.hearing_slots.specs.Slots.{MarksBookings};
    ghost use Rattle.hearing_slots.specs.Timetable.{TimetableView};

    ghost Value = { TimetableView };

    ghost view = { λ t. record { bookings = t.bookings.items; room = min (vec_capacity t.bookings - vec_len t.bookings) (vec_capacity t.days - vec_len t.days) } };

    ghost invariant = { λ t. IsCalendar t.bookings.items × MarksBookings t.bookings.items t.days.items };
}

impl Timetable {
    /// A timetable with no bookings.
    pub(crate) fn new(alloc: Global) -> Timetable
        ensures value { result.bookings ≡ [] }
        ensures calendar { IsCalendar result.bookings }
    {
        Timetable {
            bookings: Vec::new(alloc),
            days: Vec::new(alloc),
        }
    }

    /// A copy, with room for one booking more.
    pub(crate) fn duplicate(&self, alloc: Global) -> Result<Timetable, AllocError>
        ensures value { IfOk result (λ t. t.bookings ≡ self.now.bookings) }
        ensures calendar { IfOk result (λ t. IsCalendar t.bookings) }
        ensures room { IfOk result (λ t. 1 ≤ t.room) }
    {
        let mut bookings = Vec::with_capacity(alloc, self.bookings.len().saturating_add(1))?;
        bookings.extend_from_slice(&self.bookings)?;
        let mut days = Vec::with_capacity(alloc, self.days.len().saturating_add(1))?;
        days.extend_from_slice(&self.days)?;
        let mut copy = Timetable { bookings, days };
        copy.make_room()?;
        Ok(copy)
    }

    /// Makes room for one booking more.
    pub(crate) fn make_room(&mut self) -> Result<(), AllocError>
        ensures value { self.new.bookings ≡ self.old.bookings }
        ensures calendar { IsCalendar self.new.bookings }
        ensures room { OnOk result (1 ≤ self.new.room) }
    {
        self.bookings.reserve(1)?;
        self.days.reserve(1)
    }

    /// All bookings, in order.
    pub(crate) fn all(&self) -> &[Booking]
        ensures value { result.now ≡ self.now.bookings }
        ensures calendar { IsCalendar self.now.bookings }
    {
        &self.bookings
    }

    /// The bookings of the day, by first slot.
    pub(crate) fn on_day(&self, day: Day) -> &[Booking]
        ensures { result.now ≡ on_day day self.now.bookings }
    {
        part_of_day(&self.bookings, day)
    }

    /// The first booking, in order, that shares a slot of the day with the span, other than the excepted one. It is
    /// looked for only where some slot of the span is taken.
    pub(crate) fn conflict(
        &self,
        day: Day,
        first: u8,
        count: u8,
        except: Option<(u32, u32)>,
    ) -> Option<Booking>
        requires some_slot { 1 ≤ count }
        requires ends { first + count ≤ 96 }
        ensures value { result ≡ first_conflict self.now.bookings day first count except }
        ensures some { IfSome result (IsLeastConflict self.now.bookings day first count except) }
        ensures none { IfNone result (IsFree self.now.bookings day first count except) }
    {
        if taken_on(&self.days, day) & slots_from(first, count) == 0 {
            return None;
        }
        first_of(part_of_day(&self.bookings, day), day, first, count, except)
    }

    /// Takes out the booking of the case and motion, which the caller has found, if there is one.
    pub(crate) fn remove(&mut self, case: u32, motion: u32, found: Option<Booking>)
        requires { found ≡ find (is_of case motion) self.old.bookings }
        ensures value { self.new.bookings ≡ without_motion case motion self.old.bookings }
        ensures room { self.old.room ≤ self.new.room }
    {
        let Some(gone) = found else {
            return;
        };
        self.take(gone);
    }

    /// Puts the booking in its place, and takes out an older one of its case and motion, which the caller has found.
    pub(crate) fn put(&mut self, booking: Booking, older: Option<Booking>)
        requires within_day { IsWithinDay booking }
        requires free { IsFree self.old.bookings booking.day booking.first booking.count (Some (booking.case, booking.motion)) }
        requires found { older ≡ find (is_of booking.case booking.motion) self.old.bookings }
        requires room { 1 ≤ self.old.room }
        ensures value { self.new.bookings ≡ with_booking booking self.old.bookings }
        ensures calendar { IsCalendar self.new.bookings }
    {
        self.remove(booking.case, booking.motion, older);
        self.place(booking);
    }

    /// Takes out the booking, which is one of these.
    fn take(&mut self, gone: Booking)
        requires { find (is_of gone.case gone.motion) self.old.bookings ≡ Some gone }
        ensures value { self.new.bookings ≡ without_motion gone.case gone.motion self.old.bookings }
        ensures calendar { IsCalendar self.new.bookings }
        ensures room { self.old.room ≤ self.new.room }
    {
        let day = gone.day;
        take_out(&mut self.bookings, gone);
        let left = slots_on(&self.bookings, day);
        lower(&mut self.days, day, left);
    }

    /// Puts the booking in its place, where none is of its case and motion and none shares a slot with it.
    fn place(&mut self, booking: Booking)
        requires within_day { IsWithinDay booking }
        requires free { All (λ b. SharesSlot b booking.day booking.first booking.count → ⊥) self.old.bookings }
        requires only { All (λ b. is_of booking.case booking.motion b ≡ false) self.old.bookings }
        requires room { 1 ≤ self.old.room }
        ensures value { self.new.bookings ≡ in_place booking self.old.bookings }
        ensures calendar { IsCalendar self.new.bookings }
    {
        let day = booking.day;
        place_in(&mut self.bookings, booking);
        let taken = slots_on(&self.bookings, day);
        mark(&mut self.days, day, taken);
    }
}
