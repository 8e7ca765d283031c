//! A court's docket as the entries of a journal keep it: what stands after all of them, which of them are a history, what they come to,
//! and what reports take of them. What one row leaves and is answered is in `desk_register`, of which the crates above have their
//! types and functions from here.
#![tactic(auto)]

mod docketed;
mod export;
mod fault;
mod follow;
mod laws;
mod past;
mod reported;
mod review;
mod what_stands;

pub use desk_register::{
    Difference, DocketRegister, LineCause, LineFault, MOST_CLERKS, MOST_ENTRIES, Questions,
    Standing, StrikeFault, court_entry, entry_at, is_row, later_file, push_unfound, standing_file,
    too_many_words,
};
pub use docketed::Docketed;
pub use export::push_row;
pub use fault::HistoryFault;
pub use laws::{
    a_restore_leaves_the_docket, an_answer_shows_its_number, answers_are_the_runs,
    going_on_is_opening_anew, reports_are_of_the_docket, rows_are_written_as_they_are,
};
pub use past::{Corrected, corrections_in, refused_rows, struck_rows};
pub use reported::{Reported, standing_rows};
pub use review::{Review, decided_again};
