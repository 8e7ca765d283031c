//! Optimistic commit over any parts, and all its interleavings.
//! What refuses a body that always answers want of memory is said in docs/PROMISES.md.
#![tactic(auto)]

mod decision;
mod draft;
mod entry;
mod found;
mod laws;
mod moves;
mod parted;
mod run;
mod stale;
mod state;
mod step;
mod store;
mod stored;

pub use decision::PartsDecision;
pub use draft::{Draft, ReadNote};
pub use entry::Entry;
pub use laws::{
    finished_commands_stand_once, fresh_means_untouched, serial_history, versions_are_last_touches,
};
pub use parted::Parted;
pub use run::{World, run_steps, run_steps_in};
pub use stale::Stale;
pub use step::{Outcome, Step};
pub use store::{Change, Store};
