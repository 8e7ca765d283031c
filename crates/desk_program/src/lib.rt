//! A court's docket that lasts, over any disk: it is opened, entered, tried, asked, written out and given another court's
//! file. The program over these calls only opens files and streams.
#![tactic(auto)]

mod as_of;
mod asking;
mod cases;
mod change;
mod changed;
mod changed_text;
mod copy;
mod correction;
mod court;
mod desk;
mod entry_kind;
mod fault_lines;
mod fault_words;
mod faults;
mod file;
mod log;
mod log_json;
mod log_last;
mod log_text;
mod note;
mod remembered;
mod row_case;
mod row_correction;
mod rows;
mod shown;
mod struck;
mod tally;
mod time_order;
mod together;
mod trial;

pub use as_of::{Moment, kept_at, what_comes_later_changes_nothing};
pub use asking::ask;
pub use cases::write_cases;
pub use court::{check_court, court_of};
pub use desk::Desk;
pub use fault_lines::{ended_by, status_of};
pub use faults::{
    BeginFault, CorrectionFault, CourtFileFault, DeskFault, FileFault, OpenFault, OutputFault,
    StrikingFault, TogetherFault,
};
pub use file::{file_fault, open_file};
pub use log::{LogChoice, write_log};
pub use log_json::the_log_reads_back;
pub use log_last::last_log;
pub use remembered::{Remembered, Resumed};
pub use row_correction::RowCorrection;
pub use rows::{checked_rows, write_count, write_rows};
pub use shown::lines_shown;
pub use struck::write_struck;
pub use tally::all_taken;
pub use time_order::earlier_entry;
