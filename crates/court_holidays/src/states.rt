//! The days that a state's law sets aside and the federal list lacks.

mod calendar;
mod days;
mod easter;
mod kept;
mod laws;
mod listed;
mod lists;
mod names;
mod state;
mod statute;

pub use calendar::state_holiday_on;
pub use laws::easter_is_a_sunday;
pub use listed::StateDay;
pub use state::State;
pub use statute::{StateHoliday, WeekendRule};
