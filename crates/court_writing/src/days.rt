//! Whether a court that was read has the days that were written.

ghost use Rattle.std.specs.Prelude.{◌≡◌, ℤ, ◌≤ℤ◌, true};
ghost use Rattle.court_writing.specs.Written.{IsListed};

use crate::listed::{federal_on, state_on};
use court_clock::Day;
use court_days::{Days, HolidayList};
use court_holidays::{State, count_through, day_at};

/// Whether each covered day is in a list exactly where the list has to have it.
pub(crate) fn are_listed(state: State, days: &Days) -> bool
    ensures { result ≡ true → (d : ℤ) → days.now.from ≤ℤ d → d ≤ℤ days.now.to → IsListed state days.now d }
{
    let (first, last) = (days.from(), days.to());
    let count = count_through(first, last);
    for place in 0..count {
        if !is_listed(state, days, day_at(first, last, place)) {
            return false;
        }
    }
    true
}

/// Whether the day is in each list exactly where the list has to have it.
fn is_listed(state: State, days: &Days, day: Day) -> bool
    ensures { result ≡ true → IsListed state days.now day }
{
    days.in_list(HolidayList::Federal, day) == federal_on(state, day).is_some()
        && days.in_list(HolidayList::State, day) == state_on(state, day).is_some()
}
