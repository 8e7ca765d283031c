//! What reports call cases, deadlines, motions and holidays; what is selected of a docket, with the numbers that deadlines and motions
//! keep; and what is due, what has been pending for long and a judge's week, as texts of 80 columns
//! for a terminal or paper, and what has been pending as a table for other programs (CSV). Each function that adds to a text leaves,
//! where memory runs out, what was added so far.
#![tactic(auto)]

mod called;
mod case;
mod csv;
mod days;
mod due;
mod grid;
mod holidays;
mod items;
mod judges;
mod labels;
mod other;
mod pending;
mod pending_csv;
mod periods;
mod selected;
mod sheets;
mod week;

pub use called::{push_called_after, push_label_after, push_title_after};
pub use case::push_case_page;
pub use days::push_whole_day;
pub use due::{is_day_of, push_chosen, push_closing, push_due, push_left_out};
pub use holidays::{HolidayNames, holiday_names};
pub use items::{push_matter, push_room, push_span, push_time};
pub use judges::push_panel;
pub use labels::Labels;
pub use other::{push_given, push_reading};
pub use pending::{kind_words, push_holder, push_pending, push_pending_count, push_pending_title};
pub use pending_csv::push_pending_csv;
pub use periods::{push_period, unit_words};
pub use selected::{
    counted_in, explained_selection, number_all_pending, number_days, number_item, number_items,
    number_sheets, numbered_calendars,
};
pub use sheets::{
    push_case_lines, push_labelled_deadline, push_labelled_motion, push_labelled_sheet,
};
pub use week::push_week;
