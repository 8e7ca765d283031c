//! The text of replies in which cases have names.

mod bookings;
mod laws;
mod refusals;
mod reply;
mod sheets;

pub use bookings::push_named_calendar;
pub use laws::without_names_as_before;
pub use refusals::push_motion_called;
pub use reply::{push_named_answer, push_named_line, push_named_reply};
pub use sheets::push_case_line;
