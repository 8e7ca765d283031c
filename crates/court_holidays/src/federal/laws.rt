//! Laws of the definitions: what the nth and the last weekday of a month mean, and what follows from the words of the
//! statute.

ghost use Rattle.court_holidays.specs.Federal.Calendar.{DaysAreTheirHolidays};
ghost use Rattle.court_holidays.specs.Federal.Observed.{ObservedAreInPlace};
ghost use Rattle.court_holidays.specs.Weekdays.{LastWeekdaysAreLast, WeekdaysAreCounted};
ghost use Rattle.court_holidays.specs.Federal.Statute.{HolidaysLieInTheirYear, LaborDayIsAMonday, NoTwoShareADay};

/// The nth Monday, or other weekday, of a month is the one before which n - 1 are in the month, for n from 1 to 4.
pub fn weekdays_are_counted()
    ensures { WeekdaysAreCounted }
{}

/// The last Monday, or other weekday, of a month is the one after which none is in the month.
pub fn last_weekdays_are_last()
    ensures { LastWeekdaysAreLast }
{}

/// Labor Day is a Monday, from 1 to 7 September.
pub fn labor_day_is_a_monday()
    ensures { LaborDayIsAMonday }
{}

/// Each holiday is on a day of its year.
pub fn holidays_lie_in_their_year()
    ensures { HolidaysLieInTheirYear }
{}

/// No two holidays are on one day, but Inauguration Day and another.
pub fn no_two_share_a_day()
    ensures { NoTwoShareADay }
{}

/// Outside the capital's region a day is the holiday that the law sets on it for some year, and none where there is none.
pub fn days_are_their_holidays()
    ensures { DaysAreTheirHolidays }
{}

/// A holiday is observed on a day exactly where it's that of a day in whose place the day is.
pub fn observed_are_in_place()
    ensures { ObservedAreInPlace }
{}
