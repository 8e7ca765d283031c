//! The command line of the clerk's office: how many clerks there are and how many entries the journal takes, read
//! from the words after the program's name.

mod command;
mod fault;
mod options;
mod reading;
mod words;

pub use fault::OptionsFault;
pub use options::Options;
pub use reading::{fault_from, options_of};
pub use words::{argument_texts, arguments_of};
