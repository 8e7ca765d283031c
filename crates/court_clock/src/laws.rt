//! Laws of the definitions: what dates, their texts, months, instants and the texts of zones mean.

ghost use Rattle.court_clock.specs.Day.Date.{DaysHaveDates, TextsAreDays};
ghost use Rattle.court_clock.specs.Day.Months.{MonthsPass};
ghost use Rattle.court_clock.specs.Clock.{InstantsAreEarliest};
ghost use Rattle.court_clock.specs.Clock.Zone.{TextsNameClocks};

/// Each day has a date of the Gregorian calendar, and is the day with that date.
pub fn days_have_dates()
    ensures { DaysHaveDates }
{}

/// A text is read as the day of the years 1900 to 2199 that is written so, and as no day where there is none.
pub fn texts_are_days()
    ensures { TextsAreDays }
{}

/// More than so many calendar months have passed on each day after the one with which they end, and on no other.
pub fn months_pass()
    ensures { MonthsPass }
{}

/// The instant of a civil time is the least at which the clock shows it, and where the clock shows it at none, the
/// civil time less the smaller of the zone's two offsets.
pub fn instants_are_earliest()
    ensures { InstantsAreEarliest }
{}

/// The text of a zone names one clock: all values that stand for it have the same offset at every instant.
pub fn texts_name_clocks()
    ensures { TextsNameClocks }
{}
