//! The text of periods: how long one is, what is to be done within it, from which event it runs, and which Rule sets it.

mod called;
mod heading;
mod words;

pub use called::push_period_called;
pub use heading::push_heading;
pub use words::{event_words, rule_section, rule_words};
