//! A run of a program over streams: a court's file and rows are read and checked, then a whole text of them is written; or one fault is.
#![tactic(auto)]

mod checking;
mod division;
mod endings;
mod fault;
mod fault_lines;
mod laws;
mod parallel;
mod report;
mod run;
mod text;

pub use checking::{CheckedInput, check_input};
pub use division::divide;
pub use endings::{ended_by, helped, missing, refused, unread};
pub use fault::OfficeFault;
pub use fault_lines::{fault_line, status_of};
pub use laws::first_divider_divides;
pub use parallel::read_rows_by;
pub use report::{Finding, Report};
pub use run::run_report;
