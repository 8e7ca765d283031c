//! The docket that clerks share: its rules over parts, and all interleavings of their small steps.
//! What refuses a body that always answers want of memory is said in docs/PROMISES.md.
#![tactic(auto)]

mod laws;
mod parts;
mod steps;

pub use laws::{
    a_legal_history_is_one_docket, clerks_share_one_docket, each_finished_command_stands_once,
    every_deadline_is_that_of_the_rules, every_hearing_is_noticed,
    no_judge_or_room_is_double_booked,
};
pub use parts::DocketParts;
pub use steps::docket_steps;
