//! A calendar of either kind, as it is seen.

ghost use Rattle.std.specs.Prelude.{◌≡◌, ◌+◌, ◌≤◌, [], IfOk, IfSome, IfNone, option_copied, unwrap_or};
ghost use Rattle.hearing_slots.specs.Calendar.{IsFree, IsLeastConflict, HoldsDay, on_day, first_conflict};

use crate::booking::Booking;
use crate::bookings::Bookings;
use crate::calendar::Calendar;
use crate::shared_calendar::SharedCalendar;
use court_clock::Day;
use std::alloc::{AllocError, Global};

/// A calendar that is seen. Where there is none, there are no bookings.
#[derive(Clone, Copy, Debug)]
pub enum CalendarRef<'a> {
    /// There is no calendar.
    Absent,
    /// A calendar that is changed in place.
    InPlace(&'a Calendar),
    /// A calendar whose copies share its bookings.
    Shared(&'a SharedCalendar),
}

impl<'a> CalendarRef<'a> {
    ghost use Rattle.hearing_slots.specs.CalendarRef.{bookings_seen};

    /// The calendar that is changed in place, if there is one.
    pub fn in_place(calendar: Option<&'a Calendar>) -> CalendarRef<'a>
        ensures { bookings_seen result ≡ unwrap_or (option_copied calendar.entry) [] }
    {
        match calendar {
            None => CalendarRef::Absent,
            Some(calendar) => CalendarRef::InPlace(calendar),
        }
    }

    /// The calendar whose copies share its bookings, if there is one.
    pub fn shared(calendar: Option<&'a SharedCalendar>) -> CalendarRef<'a>
        ensures { bookings_seen result ≡ unwrap_or (option_copied calendar.entry) [] }
    {
        match calendar {
            None => CalendarRef::Absent,
            Some(calendar) => CalendarRef::Shared(calendar),
        }
    }

    /// What `Calendar::conflict` gives.
    #[tactic(auto, unfolding(crate::specs::Calendar::first_conflict))]
    pub fn conflict(
        &self,
        day: Day,
        first: u8,
        count: u8,
        except: Option<(u32, u32)>,
    ) -> Option<Booking>
        requires some_slot { 1 ≤ count }
        requires ends { first + count ≤ 96 }
        ensures value { result ≡ first_conflict (bookings_seen self.now) day first count except }
        ensures some { IfSome result (IsLeastConflict (bookings_seen self.now) day first count except) }
        ensures none { IfNone result (IsFree (bookings_seen self.now) day first count except) }
    {
        match self {
            CalendarRef::Absent => None,
            CalendarRef::InPlace(calendar) => calendar.conflict(day, first, count, except),
            CalendarRef::Shared(calendar) => calendar.conflict(day, first, count, except),
        }
    }

    /// What `Calendar::on_day` gives.
    pub fn on_day(&self, alloc: Global, day: Day) -> Result<Bookings, AllocError>
        ensures value { IfOk result (λ bookings. bookings ≡ on_day day (bookings_seen self.now)) }
        ensures holds { IfOk result (HoldsDay day (bookings_seen self.now)) }
    {
        match self {
            CalendarRef::Absent => Ok(Bookings::from_vec(Vec::new(alloc))),
            CalendarRef::InPlace(calendar) => calendar.on_day(alloc, day),
            CalendarRef::Shared(calendar) => calendar.on_day(alloc, day),
        }
    }
}
