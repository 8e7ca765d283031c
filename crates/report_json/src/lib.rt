//! A docket as JSON: the court, what each row was answered, the sheets of cases and the calendars of judges.
#![tactic(auto)]

mod answers;
mod bookings;
mod called;
mod cases;
mod deadlines;
mod document;
mod lines;
mod motions;
mod names;
mod periods;
mod reasons;
mod sheets;
mod simple;
mod spans;
mod to_json;
mod writer;

pub use document::json_text;
pub use lines::answer_lines;
