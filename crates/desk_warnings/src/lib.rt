//! Rows that are kept only if nothing speaks against them, or if the clerk says so: what a clerk is warned of a row before it is
//! kept, and the register that holds such rows back where that is asked for. It takes the rows of a line together, or none.
#![tactic(auto)]

mod again;
mod against;
mod appeal;
mod dated;
mod deadline;
mod hearings;
mod instead;
mod laws;
mod long;
mod office;
mod refused;
mod register;
mod rows;
mod start;
mod warnings;

pub use laws::{
    careful_is_history, line_is_kept_whole, nothing_is_held_back, refused_are_held,
    warnings_keep_nothing,
};
pub use register::{CarefulRegister, CarefulStanding, HeldBack};
pub use warnings::warnings_on;
