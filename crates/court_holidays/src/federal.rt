//! The federal holidays of a year, as 5 U.S.C. 6103 sets them.

mod calendar;
mod closings;
mod laws;
mod observed;
mod statute;

pub use calendar::holiday_on;
pub use closings::{Closing, closed_days, closings_known};
pub use laws::{
    days_are_their_holidays, holidays_lie_in_their_year, labor_day_is_a_monday,
    last_weekdays_are_last, no_two_share_a_day, observed_are_in_place, weekdays_are_counted,
};
pub use observed::{law_in_place, observed_for, observed_on};
pub use statute::FederalHoliday;
