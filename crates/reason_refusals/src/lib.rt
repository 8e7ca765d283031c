//! Why a command or a question is refused.
#![tactic(auto)]

mod asked;
mod commands;
mod deadlines;
mod hearings;
mod lines;
mod ranges;

pub use asked::{deadline_asked, motion_of_refusal, request_asked};
pub use commands::{deadline_at, motion_at, push_why_refused};
pub use lines::push_refusal;
pub use ranges::push_query_refusal;
