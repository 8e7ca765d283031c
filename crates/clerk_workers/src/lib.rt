//! Clerks at work in threads of their own, each of whom takes its rows in order.
//! What refuses a body that always answers want of memory is said in docs/PROMISES.md.
#![tactic(auto)]

mod answer;
mod duty;
mod gates;
mod hired;
mod merge;
mod notes;
mod noting;
mod outcome;
mod progress;
mod run;
mod serving;
mod shared;
mod threads;
mod worker;
mod workers;

pub use answer::SharedReply;
pub use gates::{Gate, OpenGate};
pub use notes::Notes;
pub use noting::run_noting;
pub use outcome::{Noted, Ran, RunFault};
pub use run::run_clerks;
pub use shared::{SharedText, run_shared};
