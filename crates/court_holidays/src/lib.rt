//! The legal holidays of the laws: those of the United States, and those of the States that the federal list lacks.
#![tactic(auto)]

mod dates;
mod federal;
mod states;

pub use dates::{count_through, day_at, earlier, later, on, year_of};
pub use federal::{
    Closing, FederalHoliday, closed_days, closings_known, days_are_their_holidays, holiday_on,
    holidays_lie_in_their_year, labor_day_is_a_monday, last_weekdays_are_last, law_in_place,
    no_two_share_a_day, observed_are_in_place, observed_for, observed_on, weekdays_are_counted,
};
pub use states::{
    State, StateDay, StateHoliday, WeekendRule, easter_is_a_sunday, state_holiday_on,
};
