//! Why a docket refuses a command, with the entries on which that rests.

mod entries;
mod reasons;

pub use entries::{deadline_at, motion_at};
pub use reasons::push_why_refused;
