//! What is said of a court's file, a line for each fault and each warning.

mod fault_lines;
mod hints;
mod near_key;
mod period_lines;
mod report;
mod sheet;
mod short_lines;
mod syntax_lines;
mod warning_lines;

pub use report::{Report, report_of};
