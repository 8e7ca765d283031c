//! The holiday of a state that a day is.

ghost use Rattle.std.specs.Prelude.{◌≡◌};
ghost use Rattle.std.specs.List.{find};
ghost use Rattle.court_holidays.specs.States.Calendar.{is_kept_on, state_holiday_on};

use crate::dates::year_of;
use crate::states::listed::StateDay;
use crate::states::lists::holidays_of;
use crate::states::state::State;
use court_clock::Day;

/// The holiday of the state that is kept on the day; where two are, the first of the state's list. None for any other
/// day, and for a day that isn't in the years 2016 to 2199.
#[tactic(auto, unfolding(crate::specs::States::Calendar::state_holiday_on))]
pub fn state_holiday_on(state: State, day: Day) -> Option<StateDay>
    ensures { result ≡ state_holiday_on state day }
{
    first_on(holidays_of(state), day)
}

/// The first of the holidays that is kept on the day.
fn first_on(listed: &[StateDay], day: Day) -> Option<StateDay>
    ensures { result ≡ find (is_kept_on day) listed.now }
{
    listed
        .iter()
        .copied()
        .find(|listed| is_kept_on(day, *listed))
}

/// Whether the holiday is kept on the day.
fn is_kept_on(day: Day, listed: StateDay) -> bool
    ensures { result ≡ is_kept_on day listed }
{
    match listed.holiday().kept_in(year_of(day)) {
        Some(kept) => kept == day,
        None => false,
    }
}
