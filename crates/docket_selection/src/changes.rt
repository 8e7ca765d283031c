//! What rows changed of what calendars show: what became of the hearing of each motion, as one judge saw it or as all did, which
//! cases were assigned to that judge, and which row changed a case last. The docket keeps each hearing and each deadline only as it is now.

mod assigned;
mod change;
mod histories;
mod history;
mod laws;
mod named;
mod revision;

pub use change::{Change, HearingChange, RowChange, change_made};
pub use histories::HearingHistories;
pub use history::HearingHistory;
pub use laws::{histories_end_in_the_docket, revisions_rise_with_events};
