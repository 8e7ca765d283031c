//! What is selected of a docket, after all its rows: the sheets of the open cases, what is due within some days, what has been
//! pending for long, and the bookings of judges. Every format prints what these functions give, and nothing else of the docket.
#![tactic(auto)]

mod bookings;
mod calendars;
mod changes;
mod choice;
mod closed;
mod due;
mod explained;
mod item;
mod left_out;
mod lists;
mod pending;
mod sheets;

pub use bookings::{DayBookings, bookings_on, day_numbered, week_days, week_start};
pub use calendars::{JudgeCalendar, calendars_of};
pub use changes::{
    Change, HearingChange, HearingHistories, HearingHistory, RowChange, change_made,
    histories_end_in_the_docket, revisions_rise_with_events,
};
pub use choice::Choice;
pub use closed::closed_cases_are_not_due;
pub use due::{due_of, is_due};
pub use explained::{ExplainedDeadline, ExplainedSheet, explained_sheets};
pub use item::{DueDeadline, DueItem, DueTypes, Matter, is_ended};
pub use left_out::deadlines_left_out;
pub use pending::{PendingItem, PendingKind, PendingTypes, pending_of};
pub use sheets::{sheets_chosen, sheets_of};
