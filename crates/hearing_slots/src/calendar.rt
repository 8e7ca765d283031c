//! The calendar of one judge or of one room.

ghost use Rattle.std.specs.Prelude.{◌≡◌, ◌+◌, ◌≤◌, [], Some, IfOk, IfErr, IfSome, IfNone};
ghost use Rattle.std.specs.Option.{option_copied};
ghost use Rattle.hearing_slots.specs.Booking.{IsWithinDay};
ghost use Rattle.hearing_slots.specs.Calendar.{IsCalendar, IsFree, IsLeastConflict, HoldsWith, HoldsWithout, HoldsDay, on_day, without_motion, with_booking, first_conflict};
ghost use Rattle.hearing_slots.specs.Timetable.{kept_in};

use crate::booking::Booking;
use crate::bookings::Bookings;
use crate::indexed::Indexed;
use crate::motions::noted_motions;
use crate::open_calendar::OpenCalendar;
use crate::timetable::Timetable;
use court_clock::Day;
use std::alloc::{AllocError, Global};
use std::marker::Model;

/// The bookings of one judge or one room, by day and on a day by first slot. No two of them share a slot of a day, and
/// each case and motion has one at most. A calendar is changed in place by `open`. `with`, `without` and `copy` copy all
/// bookings; where there are many copies, a `SharedCalendar` is better.
#[derive(Debug, Drop)]
pub struct Calendar {
    held: Holder,
}

/// Who holds the bookings.
#[derive(Debug, Drop)]
enum Holder {
    // There are none, which takes no memory.
    Empty,
    // They lie in a box, so that a calendar is small to move.
    Own(Box<Indexed>),
}

impl Model for Calendar {
    ghost use Rattle.std.specs.Prelude.{List};
    ghost use Rattle.hearing_slots.specs.declared.booking.Booking.{Booking};

    ghost Value = { List Booking };

    ghost use Rattle.hearing_slots.specs.Calendar.{IsCalendar};
    ghost use Rattle.hearing_slots.specs.Holder.{bookings_of};

    ghost view = { bookings_of };

    ghost invariant = { λ c. IsCalendar (bookings_of c) };
}

impl Calendar {
    /// A calendar with no bookings.
    pub fn empty() -> Calendar
        ensures value { result ≡ [] }
        ensures calendar { IsCalendar result }
    {
        Calendar {
            held: Holder::Empty,
        }
    }

    /// All bookings, by day, then by first slot.
    pub fn all(&self) -> &[Booking]
        ensures value { result.now ≡ self.now }
        ensures calendar { IsCalendar self.now }
    {
        match self.timetable() {
            None => &[],
            Some(timetable) => timetable.all(),
        }
    }

    /// Of the bookings that share a slot of the day with the `count` slots from `first` on, other than the booking of
    /// the excepted case and motion, the one with the least first slot. None where there is none.
    #[tactic(auto, unfolding(crate::specs::Calendar::first_conflict))]
    pub fn conflict(
        &self,
        day: Day,
        first: u8,
        count: u8,
        except: Option<(u32, u32)>,
    ) -> Option<Booking>
        requires some_slot { 1 ≤ count }
        requires ends { first + count ≤ 96 }
        ensures value { result ≡ first_conflict self.now day first count except }
        ensures some { IfSome result (IsLeastConflict self.now day first count except) }
        ensures none { IfNone result (IsFree self.now day first count except) }
    {
        match self.timetable() {
            None => None,
            Some(timetable) => timetable.conflict(day, first, count, except),
        }
    }

    /// A calendar with the bookings of this one and the new booking, and without an older one of its case and motion.
    /// `Err` says that memory ran out.
    pub fn with(&self, alloc: Global, booking: Booking) -> Result<Calendar, AllocError>
        requires within_day { IsWithinDay booking }
        requires free { IsFree self.now booking.day booking.first booking.count (Some (booking.case, booking.motion)) }
        ensures value { IfOk result (λ calendar. calendar ≡ with_booking booking self.now) }
        ensures calendar { IfOk result IsCalendar }
        ensures holds { IfOk result (HoldsWith booking self.now) }
    {
        let opened = self.open_copy(alloc)?;
        Ok(opened.put(booking))
    }

    /// A calendar with the bookings of this one but that of the case and motion; where there is none, with the same
    /// bookings. `Err` says that memory ran out.
    pub fn without(&self, alloc: Global, case: u32, motion: u32) -> Result<Calendar, AllocError>
        ensures value { IfOk result (λ calendar. calendar ≡ without_motion case motion self.now) }
        ensures calendar { IfOk result IsCalendar }
        ensures holds { IfOk result (HoldsWithout case motion self.now) }
    {
        let opened = self.open_copy(alloc)?;
        Ok(opened.take_out(case, motion))
    }

    /// The bookings of the day, by first slot. `Err` says that memory ran out.
    pub fn on_day(&self, alloc: Global, day: Day) -> Result<Bookings, AllocError>
        ensures value { IfOk result (λ bookings. bookings ≡ on_day day self.now) }
        ensures holds { IfOk result (HoldsDay day self.now) }
    {
        let list = Vec::from_slice(alloc, self.part_of_day(day))?;
        Ok(Bookings::from_vec(list))
    }

    /// The same calendar. Its bookings are copied. `Err` says that memory ran out.
    pub fn copy(&self, alloc: Global) -> Result<Calendar, AllocError>
        ensures value { IfOk result (λ calendar. calendar ≡ self.now) }
        ensures calendar { IfOk result IsCalendar }
    {
        match self.timetable() {
            None => Ok(Calendar::empty()),
            Some(timetable) => Ok(Calendar::own(indexed_copy(alloc, timetable)?)),
        }
    }

    /// The calendar with room for one booking more, so that it can be changed in place with no more memory. `Err`
    /// says that memory ran out, and gives the calendar back.
    pub fn open(self, alloc: Global) -> Result<OpenCalendar, Calendar>
        ensures ok { IfOk result (λ opened. (opened ≡ self) × IsCalendar opened) }
        ensures err { IfErr result (λ calendar. (calendar ≡ self) × IsCalendar calendar) }
    {
        match self.held {
            Holder::Empty => match no_bookings(alloc) {
                Ok(indexed) => with_room(indexed),
                Err(_) => Err(Calendar::empty()),
            },
            Holder::Own(indexed) => with_room(indexed),
        }
    }

    /// A copy that can be changed in place.
    fn open_copy(&self, alloc: Global) -> Result<OpenCalendar, AllocError>
        ensures { IfOk result (λ opened. opened ≡ self.now) }
    {
        match self.copy(alloc)?.open(alloc) {
            Ok(opened) => Ok(opened),
            Err(_) => Err(AllocError),
        }
    }

    /// The bookings of the day.
    fn part_of_day(&self, day: Day) -> &[Booking]
        ensures { result.now ≡ on_day day self.now }
    {
        match self.timetable() {
            None => &[],
            Some(timetable) => timetable.on_day(day),
        }
    }

    /// The bookings in order, if there are any.
    fn timetable(&self) -> Option<&Timetable>
        ensures { kept_in (option_copied result) ≡ self.now }
    {
        match &self.held {
            Holder::Empty => None,
            Holder::Own(indexed) => Some(indexed.timetable()),
        }
    }

    /// The calendar that holds these bookings.
    pub(crate) fn own(indexed: Box<Indexed>) -> Calendar
        requires { IsCalendar indexed.value.bookings }
        ensures value { result ≡ indexed.value.bookings }
        ensures calendar { IsCalendar result }
    {
        Calendar {
            held: Holder::Own(indexed),
        }
    }
}

/// Makes room for one booking more.
fn with_room(indexed: Box<Indexed>) -> Result<OpenCalendar, Calendar>
    ensures ok { IfOk result (λ opened. (opened ≡ indexed.value.bookings) × IsCalendar opened) }
    ensures err { IfErr result (λ calendar. (calendar ≡ indexed.value.bookings) × IsCalendar calendar) }
{
    let mut indexed = indexed;
    match indexed.make_room() {
        Ok(()) => Ok(OpenCalendar::of(indexed)),
        Err(_) => Err(Calendar::own(indexed)),
    }
}

/// A box for bookings, which as yet has none.
fn no_bookings(alloc: Global) -> Result<Box<Indexed>, AllocError>
    ensures value { IfOk result (λ indexed. indexed.value.bookings ≡ []) }
{
    let motions = noted_motions(alloc, &[])?;
    Ok(Box::new(alloc, Indexed::of(Timetable::new(alloc), motions))?)
}

/// A box with a copy of the bookings.
fn indexed_copy(alloc: Global, timetable: &Timetable) -> Result<Box<Indexed>, AllocError>
    ensures value { IfOk result (λ indexed. indexed.value.bookings ≡ timetable.now.bookings) }
    ensures calendar { IfOk result (λ indexed. IsCalendar indexed.value.bookings) }
{
    let motions = noted_motions(alloc, timetable.all())?;
    let copy = timetable.duplicate(alloc)?;
    Ok(Box::new(alloc, Indexed::of(copy, motions))?)
}
