//! Options of a command line that take a text: the case that one calls, the day that one writes, and what is said of a text
//! that does neither.

mod argument;
mod days;
mod laws;
mod numbers;
mod taken;

pub use argument::{text_argument, with_needed, with_source, with_subcommand, with_text};
pub use days::{DaySaid, day_said, today_by};
pub use laws::weekdays_come_next;
pub use numbers::number_of;
pub use taken::{case_option, case_said, day_option, days_option, said_option};
