//! Readers and writers that are watched: the whole of an input is read, and the whole of a text is written, or there is one fault.
#![tactic(auto)]

mod fault;
mod gathered;
mod input;
mod made;
mod output;
mod watched;

pub use fault::StreamFault;
pub use gathered::Gathered;
pub use input::{MAX_INPUT_BYTES, MAX_READ_CALLS, read_all};
pub use made::{MadeText, write_text};
pub use output::write_all;
pub use watched::Watched;
