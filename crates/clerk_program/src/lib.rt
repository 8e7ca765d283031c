//! What the clerk's program reads of its words, and what it writes: the answers of one clerk, or of several who share a
//! docket.
#![tactic(auto)]

mod answers;
mod clerk_text;
mod laws;
mod office;
mod program;
mod text;

pub use answers::Answers;
pub use clerk_text::ClerkText;
pub use laws::texts_are_unique;
pub use office::run_office;
pub use program::{ClerkOffice, run_clerk_office};
