//! Clerks in threads of their own: their seats, the office that they share, and its journal.
//! What refuses a body that always answers want of memory is said in docs/PROMISES.md.
#![tactic(auto)]

mod book;
mod closing;
mod done;
mod fault;
mod journal;
mod looking;
mod names_office;
mod office;
mod seat;
mod settling;
mod tally;

pub use done::Done;
pub use fault::{CloseError, CommitError, OfficeError, PerformError};
pub use journal::Journal;
pub use names_office::NamesOffice;
pub use office::{CloseRefused, Office};
pub use seat::Seat;
pub use tally::Tally;
