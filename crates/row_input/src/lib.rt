//! Inputs as people write them, read as plain rows, and what is said of their faults.
#![tactic(auto)]

mod advice;
mod later;
mod line_rows;
mod nearest;
mod objects;
mod periods;
mod reading;
mod report;
mod shown;
mod triggers;
mod wording;

pub use later::json_of_said;
pub use objects::json_of;
pub use reading::{FaultyLine, Reading, read_input};
pub use report::report_of;
