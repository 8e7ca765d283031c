//! What is selected of a docket, with the numbers that deadlines and motions keep.

mod bookings;
mod explained;
mod items;
mod pending;
mod sheets;

pub use bookings::{number_days, numbered_calendars};
pub use explained::explained_selection;
pub use items::{counted_in, number_item, number_items};
pub use pending::number_all_pending;
pub use sheets::number_sheets;
