//! What is due, as a calendar in the form of iCalendar (RFC 5545), for calendar programs.
#![tactic(auto)]

mod appointment;
mod calendar;
mod cancelled;
mod events;
mod laws;
mod left;
mod lists;
mod lost;
mod summary;
mod times;
mod words;

pub use appointment::{Appointment, appointments_of};
pub use calendar::icalendar;
pub use laws::calendars_are_sent_whole;
pub use lists::push_if;
pub use times::slot_begins;
