//! What the court's calendar reads of its words, and what it writes of a docket after all its rows.
#![tactic(auto)]

mod appointments;
mod asked;
mod case;
mod chosen;
mod clock;
mod docket;
mod due;
mod ics;
mod lost;
mod missing;
mod opened;
mod page;
mod past;
mod pending;
mod report;
mod sheet;
mod subcommands;
mod taken;
mod week;

pub use asked::{Asked, Task, asked_by};
pub use clock::clock_time;
pub use past::Past;
pub use report::report_of_rows;
pub use subcommands::with_reports;
pub use taken::report_of_docket;
