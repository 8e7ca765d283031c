//! The holidays that a written file lists on a day.

ghost use Rattle.std.specs.Prelude.{◌≡◌, is_some};
ghost use Rattle.court_clock.specs.Words.{is_weekend};
ghost use Rattle.court_writing.specs.Listed.{federal_on, is_in_capital, or_else, state_on};

use court_clock::Day;
use court_holidays::{FederalHoliday, State, StateDay, holiday_on, observed_on, state_holiday_on};

/// The federal holiday listed on the day: the one that the law sets for it, or else the one that is observed on it.
pub(crate) fn federal_on(state: State, day: Day) -> Option<FederalHoliday>
    ensures { result ≡ federal_on state day }
{
    if is_weekend(day) {
        return None;
    }
    match holiday_on(day, is_in_capital(state)) {
        Some(holiday) => Some(holiday),
        None => observed_on(day),
    }
}

/// The state's holiday listed on the day. None where the federal list has the day.
pub(crate) fn state_on(state: State, day: Day) -> Option<StateDay>
    ensures { result ≡ state_on state day }
{
    if is_weekend(day) || federal_on(state, day).is_some() {
        return None;
    }
    state_holiday_on(state, day)
}

/// Whether the day is a Saturday or a Sunday.
fn is_weekend(day: Day) -> bool
    ensures { result ≡ is_weekend day }
{
    5 <= day.weekday()
}

/// Whether courts of the state are in the capital's region, where Inauguration Day is a federal holiday. Of the Eastern
/// District of Virginia and the District of Maryland, which are there in part, it isn't said.
pub(crate) fn is_in_capital(state: State) -> bool
    ensures { result ≡ is_in_capital state }
{
    matches!(state, State::DistrictOfColumbia)
}
