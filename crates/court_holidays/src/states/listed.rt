//! A holiday in the list of a state.

ghost use Rattle.std.specs.Prelude.{◌≡◌};
ghost use Rattle.court_holidays.specs.States.Listed.{holiday_of, is_doubtful};

use crate::states::statute::StateHoliday;

/// A holiday in the list of a state, by whether the state declares it a holiday in the sense of Rule 6(a)(6)(C).
#[derive(Clone, Copy, Debug, PartialEq, Eq)]
pub enum StateDay {
    /// It does.
    Sure(StateHoliday),
    /// A statute names it, and it is in doubt that the state declares it one.
    Doubtful(StateHoliday),
}

impl StateDay {
    /// The holiday.
    pub fn holiday(self) -> StateHoliday
        ensures { result ≡ holiday_of self }
    {
        match self {
            StateDay::Sure(holiday) | StateDay::Doubtful(holiday) => holiday,
        }
    }

    /// Whether it is in doubt.
    pub fn is_doubtful(self) -> bool
        ensures { result ≡ is_doubtful self }
    {
        match self {
            StateDay::Sure(_) => false,
            StateDay::Doubtful(_) => true,
        }
    }
}
