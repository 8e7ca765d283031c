//! What differs between two dockets of the same cases, as one stands now and as it would stand otherwise: which cases are open and
//! which are closed, who has them, the ends of deadlines, the hearings of motions and how they were ruled on, by their numbers, with a
//! line for each.
#![tactic(auto)]

mod assignments;
mod closings;
mod compared;
mod filed;
mod line;
mod sheets;
mod shifts;
mod texts;

pub use compared::Compared;
pub use line::push_shift;
pub use shifts::push_shifts;
