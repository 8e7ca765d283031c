//! The docket of one thread, which commands change in place; what is decided on the parts that were read, with what the
//! command writes into copies of them; and what a query shows.
#![tactic(auto)]

mod decisions;
mod docket;
mod holdings;
mod rebooking;
mod views;
mod writes;

pub use decisions::decide;
pub use docket::Docket;
pub use views::view_of;
