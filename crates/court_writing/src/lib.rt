//! The text of a court's file, with its holidays, for years that are asked.
#![tactic(auto)]

mod comments;
mod courts;
mod days;
mod extended;
mod fault;
mod grown;
mod holiday;
mod lines;
mod listed;
mod lists;
mod names;
mod notes;
mod own;
mod put;
mod short_names;
mod sources;
mod update;
mod writing;
mod zones;

pub use courts::CourtName;
pub use fault::WriteFault;
pub use names::{NamesFault, names_in};
pub use own::CourtOwn;
pub use update::{UpdateFault, Updated, court_said, court_update};
pub use writing::court_text;
pub use zones::ZoneName;
