//! The register to which a court's docket comes: what the next line leaves in a journal and is answered, which entries may follow,
//! and which rows can be struck or restored.
#![tactic(auto)]

mod called;
mod case_line;
mod cause;
mod differences;
mod entry;
mod fault;
mod laws;
mod line_faults;
mod next_entry;
mod next_line;
mod outcome;
mod questions;
mod register;
mod same;
mod shifts;
mod standing;
mod striking;
mod subject;

pub use case_line::{with_field, with_suspender};
pub use cause::{LineCause, Unfound, UnfoundCause, push_unfound, too_many_words};
pub use differences::{Difference, decide_entry};
pub use entry::{court_entry, is_row, later_file, standing_file};
pub use fault::StrikeFault;
pub use laws::{
    a_case_keeps_its_number, a_case_number_is_one_case, a_struck_row_is_left_out,
    faultless_lines_say_rows, other_lines_are_read_as_they_are, others_are_told_their_answers,
    refused_are_told_their_answers, rows_keep_their_numbers, what_is_left_follows,
    what_is_left_is_history,
};
pub use line_faults::LineFault;
pub use questions::Questions;
pub use register::{DocketRegister, MOST_CLERKS, MOST_ENTRIES, MOST_ROWS, RowTypes};
pub use standing::Standing;
pub use striking::entry_at;
pub use subject::before_number;
