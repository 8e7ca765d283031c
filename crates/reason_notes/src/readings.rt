//! Other readings of what the Rules leave open, and the days that they give.

mod by_reading;
mod changed;
mod earlier;
mod laws;
mod lines;
mod others;
mod reading;

pub use by_reading::DaysByReading;
pub use laws::{
    counted_again_shows_the_same, no_other_end_has_no_line, other_end_is_earliest,
    same_act_shows_the_same,
};
pub use lines::push_readings;
pub use others::other_end;
pub use reading::{Reading, shown_by};
