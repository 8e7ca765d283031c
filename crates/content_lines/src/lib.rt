//! The content lines of iCalendar (RFC 5545, 3.1): how a value is escaped, how a day and an instant are written, and how a
//! line is folded. It knows nothing of courts.
#![tactic(auto)]

mod escaping;
mod folding;
mod laws;
mod property;
mod stamp;
mod times;

pub use laws::{
    escaped_values_read_back, folds_are_between_characters, instants_are_in_utc,
    sent_lines_are_short, unfolding_gives_the_lines,
};
pub use property::push_property;
pub use stamp::stamp_of_text;
pub use times::{push_date, push_utc};
