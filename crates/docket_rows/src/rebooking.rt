//! What a booking, a move, a cancellation or a ruling does to the calendars of judges and rooms.

use crate::hearing::Hearing;
use hearing_slots::Booking;

/// What becomes of a calendar.
#[derive(Clone, Copy)]
pub enum CalendarChange {
    /// It stays as it is.
    Stays,
    /// The booking is put in, in place of an older one of its case and motion.
    Put(Booking),
    /// The booking of that case and motion is taken out.
    TakeOut(u32, u32),
}

/// A hearing that is to be on the calendar.
#[derive(Clone, Copy)]
pub struct Placement {
    /// The hearing.
    pub hearing: Hearing,
    /// Its booking for the calendars of its judges, beside the number of its room.
    pub with_room: Booking,
    /// Its booking for the calendar of its room, beside the number of its first judge.
    pub with_judge: Booking,
}

/// What a booking, a move, a cancellation or a ruling does to calendars.
#[derive(Clone, Copy)]
pub struct Rebooking {
    /// The number of the case.
    pub case: u32,
    /// The number of the motion in its case.
    pub motion: u32,
    /// The motion's hearing that is to be taken off the calendar.
    pub before: Option<Hearing>,
    /// The one that is to be put on it.
    pub after: Option<Placement>,
}
