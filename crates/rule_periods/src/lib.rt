//! Periods that the Rules set or a court enters, their extensions, and what is shown of a deadline.
#![tactic(auto)]

mod base;
mod deadline;
mod docket_row;
mod due;
mod event;
mod expiry;
mod extended;
mod extension;
mod grant;
mod laws;
mod mark;
mod notice;
mod period;
mod refusal;
mod rule;
mod showing;
mod start;

pub use base::{kind_adds, later_event, runs_from_service};
pub use deadline::{DeadlineRow, kept_filing};
pub use docket_row::DocketRow;
pub use due::{act_due, runs_from};
pub use event::Event;
pub use expiry::Expiry;
pub use extension::{may_extend, shown_with};
pub use grant::{Grant, Request};
pub use laws::{codes_name_marks, codes_name_periods, reset_ends_stay, set_ends_stay};
pub use mark::Mark;
pub use notice::{affidavit_day, notice_day};
pub use period::{Entered, Length, Period};
pub use refusal::PeriodRefusal;
pub use rule::{ExtensionRule, RulePeriod, ServiceRule, Terms};
pub use showing::{access_direction, certain_by, is_moved_by_access, shown};
pub use start::check_start;
