//! The calendar of one judge or one room, in which no two bookings share a slot.
#![tactic(auto)]

mod agenda;
mod block;
mod block_list;
mod blocks;
mod booking;
mod bookings;
mod calendar;
mod calendar_ref;
mod day_notes;
mod day_slots;
mod indexed;
mod laws;
mod motions;
mod need;
mod open_calendar;
mod ordered;
mod panel;
mod shared_calendar;
mod timetable;

pub use block::Block;
pub use booking::{Booking, MINUTES_PER_SLOT, SLOTS_PER_DAY};
pub use bookings::Bookings;
pub use calendar::Calendar;
pub use calendar_ref::CalendarRef;
pub use laws::{
    booking_is_put_last, booking_keeps_calendar, order_holds_the_same, overlap_is_a_shared_slot,
    parts_stand_in_order, removal_keeps_calendar, same_bookings_same_calendar, slots_of_a_day,
};
pub use need::Need;
pub use open_calendar::OpenCalendar;
pub use panel::Panel;
pub use shared_calendar::SharedCalendar;
