//! The docket as it is published: clerks in threads of their own read it without waiting, and one of them at a time publishes.
//! What refuses a body that always answers want of memory is said in docs/PROMISES.md.
#![tactic(auto)]

mod board;
mod cell;
mod cells;
mod change;
mod held;
mod known;
mod law;
mod protocol;
mod publisher;
mod reading;
mod sight;
mod trail;

pub use board::Board;
pub use known::Known;
pub use protocol::{DocketReader, DocketReading, Growing, See, enter};
pub use publisher::Publisher;
pub use reading::{calendar, read_all, show};
pub use trail::Trail;
