//! By how much an act was in time or late, by the definition that decides whether it was timely, or that this isn't decided.

mod ahead;
mod ends;
mod laws;
mod lines;
mod margin;

pub use ahead::push_ahead;
pub use ends::{end_day, push_end_time};
pub use laws::margins_decide;
pub use lines::{push_act, push_recorded};
pub use margin::{Margin, margin_of};
