//! What a reader is warned of: what is docketed is lawful, and may be a mistake.

mod deadline;
mod end;
mod event;
mod extension;
mod hearing;
mod holidays;
mod set;

pub use deadline::{push_deadline_notes, push_start_notes};
pub(crate) use end::moves_appeal;
pub use end::push_notes_of_act;
pub use extension::push_extension_notes;
pub use hearing::push_hearing_notes;
