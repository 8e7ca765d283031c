//! The text of a deadline's reasons: a line each, with the day, what happened, and the section of the Rules.
#![tactic(auto)]

mod course;
mod day;
mod line;
mod names;
mod note;
mod older_event;
mod periods;
mod section;
mod spaces;
mod times;
mod what;

pub use course::{Course, Search};
pub use day::day_shown;
pub use line::{push_reason, push_reasons};
pub use names::{HolidayName, push_legal};
pub use note::push_note;
pub use periods::{event_words, push_heading, push_period_called, rule_section, rule_words};
pub use section::push_section;
pub use spaces::push_spaces;
pub use times::{push_day_end, push_minute, push_second, push_time_at};
pub use what::push_what;
