//! Days and their dates, minutes of a day, instants, and the clock of a court's time zone.
#![tactic(auto)]

mod clock;
mod day;
mod direction;
mod laws;

pub use clock::{Clock, Instant, minute_from_text, zone_from_text};
pub use day::Day;
pub use direction::Direction;
pub use laws::{
    days_have_dates, instants_are_earliest, months_pass, texts_are_days, texts_name_clocks,
};
