//! A session of lines, each of which is kept in a journal before it is answered. It knows nothing of courts.
#![tactic(auto)]

mod account;
mod asking;
mod batch;
mod clock;
mod fault;
mod gather;
mod keeper;
mod lines;
mod outcome;
mod publish;
mod reading;
mod register;
mod session;
mod short_lines;
mod together;
mod turns;

pub use account::account_of;
pub use asking::answer;
pub use clock::second_of;
pub use fault::SessionFault;
pub use gather::MAX_LINE;
pub use lines::{
    BETWEEN_ROWS, SplitLine, after_mark, is_finished, mark_of, number_after,
    numbered_lines_are_lines, split_line, unmarked,
};
pub use outcome::{Outcome, Tally};
pub use reading::read_lines;
pub use register::Register;
pub use session::serve;
pub use short_lines::{
    ShortLines, cut_lines_are_no_text, long_lines_are_cut, short_lines_are_short, short_lines_stay,
};
pub use together::{StoppedLine, serve_together};
pub use turns::{each_line_is_in_place, turns_keep_one_history, turns_tell_what_they_kept};
