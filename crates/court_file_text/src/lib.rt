//! The text of a court's file: its keys, what is written at each of them, and its faults.
#![tactic(auto)]

mod control;
mod fault;
mod key;
mod names;
mod period_names;
mod reading;

pub use control::has_control;
pub use fault::{CourtFault, FaultText, NumberedFault};
pub use key::Key;
pub use names::Names;
pub use period_names::{NamedText, PeriodNames, is_printed, period_names_of};
pub use reading::{
    date_at, date_of_item, desk_names_at, is_desk_name, is_name, list_at, minute_at,
    minute_if_there, names_at, names_by, text_at,
};
