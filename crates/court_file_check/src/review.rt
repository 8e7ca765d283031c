//! Where a court's list of federal holidays and the law differ, and which days are listed to no effect.

ghost use Rattle.std.specs.Prelude.{◌≡◌, ◌++◌, ◌∷◌, [], OnOk, IfOk, if◌then◌else◌};
ghost use Rattle.court_clock.specs.Words.{is_weekend};
ghost use Rattle.court_file_check.specs.Review.{days_that, due_on, passes};

use court_clock::Day;
use court_days::{Days, HolidayList};
use court_holidays::{
    FederalHoliday, State, count_through, day_at, holiday_on, observed_on, state_holiday_on,
};
use std::alloc::{AllocError, Global};

/// Why a day is due in a list of federal holidays.
#[derive(Clone, Copy, Debug, PartialEq, Eq)]
pub enum Due {
    /// The law sets the day for the holiday.
    SetByLaw(FederalHoliday),
    /// The holiday is observed on the day, in the place of the Saturday or Sunday that the law sets.
    Observed(FederalHoliday),
}

/// What is asked of a day.
#[derive(Clone, Copy, Debug, PartialEq, Eq)]
pub enum DayTest {
    /// Whether it is due, in the capital's region or elsewhere, the federal list lacks it, and it is no Saturday or Sunday,
    /// where a holiday changes no period.
    Lacking { capital: bool },
    /// Whether the federal list has it and it isn't due, in the capital's region or elsewhere. Such a day may be a closing by
    /// executive order, or a wrong date.
    Unknown { capital: bool },
    /// Whether it is a Saturday or a Sunday that the federal list has.
    FederalAtWeekend,
    /// Whether it is one that the state list has.
    StateAtWeekend,
    /// Whether both lists have it.
    InBoth,
    /// Whether it is a weekday that the law of the State names, it isn't due, and no list has it.
    Unlisted { capital: bool, state: State },
}

/// Why the day is due in the list of a court, which is in the capital's region or not. None where it isn't, and for a day
/// outside the years 1970 to 2199, for which it isn't defined what the law sets.
pub fn due_on(day: Day, capital: bool) -> Option<Due>
    ensures { result ≡ due_on capital day }
{
    if let Some(holiday) = holiday_on(day, capital) {
        return Some(Due::SetByLaw(holiday));
    }
    match observed_on(day) {
        Some(holiday) => Some(Due::Observed(holiday)),
        None => None,
    }
}

/// The days of the span that pass the test, in their order. An `Err` says that memory ran out.
#[tactic(auto, unfolding(crate::specs::Review::days_that))]
pub fn days_that(alloc: Global, days: &Days, test: DayTest) -> Result<Vec<Day>, AllocError>
    ensures { IfOk result (λ found. found.items ≡ days_that days.now test) }
{
    let (first, last) = (days.from(), days.to());
    let mut found = Vec::new(alloc);
    for place in 0..count_through(first, last) {
        let day = day_at(first, last, place);
        push_if(&mut found, passes(days, test, day), day)?;
    }
    Ok(found)
}

/// Puts the day at the end of the list, if it passes.
fn push_if(list: &mut Vec<Day>, passes: bool, day: Day) -> Result<(), AllocError>
    ensures { OnOk result (list.new.items ≡ list.old.items ++ (if passes then day ∷ [] else [])) }
{
    if passes {
        list.push(day)?;
    }
    Ok(())
}

/// Whether the day passes.
fn passes(days: &Days, test: DayTest, day: Day) -> bool
    ensures { result ≡ passes days.now test day }
{
    let in_federal = days.in_list(HolidayList::Federal, day);
    let in_state = days.in_list(HolidayList::State, day);
    match test {
        DayTest::Lacking { capital } => {
            !in_federal && !is_weekend(day) && due_on(day, capital).is_some()
        }
        DayTest::Unknown { capital } => in_federal && due_on(day, capital).is_none(),
        DayTest::FederalAtWeekend => is_weekend(day) && in_federal,
        DayTest::StateAtWeekend => is_weekend(day) && in_state,
        DayTest::InBoth => in_federal && in_state,
        DayTest::Unlisted { capital, state } => {
            !in_federal
                && !in_state
                && !is_weekend(day)
                && due_on(day, capital).is_none()
                && state_holiday_on(state, day).is_some()
        }
    }
}

/// Whether the day is a Saturday or a Sunday.
fn is_weekend(day: Day) -> bool
    ensures { result ≡ is_weekend day }
{
    day.weekday() >= 5
}
