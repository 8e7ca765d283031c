//! Laws of the definitions: what the last day, the end of hours and the last hour mean.

ghost use Rattle.rule6.specs.Access.{LastHourIsBySeconds};
ghost use Rattle.rule6.specs.Hours.{EndOfHoursIsCounted};
ghost use Rattle.rule6.specs.Days.{LastDayIsCounted};

use court_clock::instants_are_earliest;
use court_days::rolled_is_nearest;

/// The last day of a period is counted as Fed. R. Civ. P. 6(a)(1) and (5) say, with 6(d)'s three days where they are
/// added, and there is none only where no day is counted in this way.
pub fn last_day_is_counted()
    ensures { LastDayIsCounted }
{
    rolled_is_nearest();
}

/// The end of a period in hours is counted as Fed. R. Civ. P. 6(a)(2) and (5) say, and there is none only where no
/// instant is counted in this way.
pub fn end_of_hours_is_counted()
    ensures { EndOfHoursIsCounted }
{
    rolled_is_nearest();
    instants_are_earliest();
}

/// An outage meets the last hour before an end exactly where, at some whole second of the 3,600 before it, the
/// clock shows the outage's day and a time in its minutes.
pub fn last_hour_is_by_seconds()
    ensures { LastHourIsBySeconds }
{}
