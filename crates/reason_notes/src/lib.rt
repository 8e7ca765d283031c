//! What a reader is to know beside a deadline's reasons: by how much an act was in time, other readings of the Rules, and what may be a mistake.
#![tactic(auto)]

mod appeal;
mod margins;
mod readings;
mod warnings;

pub use appeal::push_moved_note;
pub use margins::{
    Margin, end_day, margin_of, margins_decide, push_act, push_ahead, push_end_time, push_recorded,
};
pub use readings::{
    DaysByReading, Reading, counted_again_shows_the_same, no_other_end_has_no_line, other_end,
    other_end_is_earliest, push_readings, same_act_shows_the_same, shown_by,
};
pub use warnings::{
    push_deadline_notes, push_extension_notes, push_hearing_notes, push_notes_of_act,
    push_start_notes,
};
