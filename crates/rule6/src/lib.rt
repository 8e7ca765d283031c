//! Rule 6 of the Federal Rules of Civil Procedure: last days, hours, access to the clerk's office, timeliness.
#![tactic(auto)]

mod access;
mod days;
mod hours;
mod laws;
mod service;
mod timeliness;

pub use access::{extended_for_access, extended_for_access_hours, meets_last_hour};
pub use days::last_day;
pub use hours::end_of_hours;
pub use laws::{end_of_hours_is_counted, last_day_is_counted, last_hour_is_by_seconds};
pub use service::{ServiceKind, adds_three};
pub use timeliness::{Act, Filing, Means, Shown, day_end, is_timely};
