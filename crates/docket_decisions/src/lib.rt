//! What a command is refused by, answered and reads, and how it changes its case: decided on the parts that are seen.
#![tactic(auto)]

mod answers;
mod called;
mod cases;
mod commands;
mod deadlines;
mod facts;
mod hearings;
mod holidays;
mod motions;
mod next;
mod outages;
mod reads;
mod resumed;
mod rules;
mod seen;
mod sight;
mod values;

pub use commands::{answer_if_made, case_of_command, change_case, refusal};
pub use deadlines::{shown_at_start, start_refusal};
pub use hearings::{hearing_asked, is_court_day, lacks_last_service, later, missed_service, sits};
pub use reads::Seen;
pub use rules::DocketRules;
pub use seen::{
    deadline_in, facts_in, has_case, hearing_in, if_ahead, is_beyond, motion_in, shown_now,
};
pub use sight::Sight;
pub use values::{calendar_of, case_of, days_of};
