//! Why deadlines are the days that they are: the answers to rows, with the reasons of each deadline that they show, or the whole
//! sheet of a case.
#![tactic(auto)]

mod about_case;
mod asked;
mod calendars;
mod called;
mod case;
mod court_name;
mod detail;
mod head;
mod laws;
mod memo;
mod notes;
mod page;
mod reasons;
mod replies;
mod report;
mod sheets;
mod sources;
mod subcommand;
mod whole;

pub use asked::{Asked, asked_by, day_made};
pub use laws::{margins_say_the_state, page_is_markup};
pub use report::memo_of;
pub use subcommand::with_memo;
