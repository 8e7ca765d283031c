//! One page of the court's calendar: what is due, the judges' hearings, and the sheets of the cases; and one of what has been pending
//! for long. Each is one file with no script, and loads nothing. Each text in it is escaped.
#![tactic(auto)]

mod cases;
mod deadlines;
mod due;
mod judges;
mod laws;
mod load;
mod months;
mod motions;
mod page;
mod pending;
mod phrases;
mod reasons;
mod tables;
mod weeks;

pub use laws::{content_is_markup, pending_is_markup};
pub use page::push_page;
pub use pending::push_pending_page;
