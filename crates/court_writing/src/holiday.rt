//! A holiday of either list, and what is written of it.

ghost use Rattle.std.specs.Prelude.{◌≡◌};
ghost use Rattle.court_writing.specs.Listed.{or_else};
ghost use Rattle.court_writing.specs.Named.{is_doubted, is_set, law_of, listed_on, name_of};
ghost use Rattle.court_days.specs.declared.holiday_list.HolidayList.TheVariants as list;

use crate::listed::{federal_on, is_in_capital, state_on};
use court_clock::Day;
use court_days::HolidayList;
use court_holidays::{FederalHoliday, State, StateDay, holiday_on, law_in_place};

/// A holiday that a list has.
#[derive(Clone, Copy)]
pub(crate) enum Holiday {
    Federal(FederalHoliday),
    OfState(StateDay),
}

impl Holiday {
    /// The name, as the law that sets it has it.
    pub(crate) fn name(self) -> &'static str
        ensures { result.now ≡ name_of self }
    {
        match self {
            Holiday::Federal(holiday) => holiday.name(),
            Holiday::OfState(listed) => listed.holiday().name(),
        }
    }

    /// Whether the law sets the day itself, and no other in whose place it is listed.
    pub(crate) fn is_set(self, state: State, day: Day) -> bool
        ensures { result ≡ is_set state day self }
    {
        match self {
            Holiday::Federal(_) => holiday_on(day, is_in_capital(state)).is_some(),
            Holiday::OfState(listed) => listed.holiday().is_set_on(day),
        }
    }

    /// What makes the day a holiday: the statute that names it or, where another day is named, the statute or the order
    /// that gives this one in its place. A state's statute does both.
    pub(crate) fn law(self, state: State, day: Day) -> &'static str
        ensures { result.now ≡ law_of state day self }
    {
        match self {
            Holiday::Federal(holiday) if self.is_set(state, day) => holiday.statute(),
            Holiday::Federal(_) => law_in_place(day),
            Holiday::OfState(_) => state.statute(),
        }
    }

    /// Whether it is in doubt that the state declares the day a holiday.
    pub(crate) fn is_doubted(self) -> bool
        ensures { result ≡ is_doubted self }
    {
        match self {
            Holiday::Federal(_) => false,
            Holiday::OfState(listed) => listed.is_doubtful(),
        }
    }
}

/// The holiday that the list has on the day.
pub(crate) fn listed_on(state: State, list: HolidayList, day: Day) -> Option<Holiday>
    ensures { result ≡ listed_on state list day }
{
    match list {
        HolidayList::Federal => federal_on(state, day).map(Holiday::Federal),
        HolidayList::State => state_on(state, day).map(Holiday::OfState),
    }
}

/// The holiday that either list has on the day.
pub(crate) fn either_on(state: State, day: Day) -> Option<Holiday>
    ensures { result ≡ or_else (listed_on state list.Federal day) (listed_on state list.State day) }
{
    match listed_on(state, HolidayList::Federal, day) {
        Some(holiday) => Some(holiday),
        None => listed_on(state, HolidayList::State, day),
    }
}
