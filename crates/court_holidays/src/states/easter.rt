//! Easter and Good Friday.

ghost use Rattle.std.specs.Prelude.{◌≡◌};
ghost use Rattle.court_holidays.specs.Dates.{IsNear, IsStated};
ghost use Rattle.court_holidays.specs.States.Easter.{full_moon, good_friday, sunday_after};

use crate::dates::{earlier, later, on};
use court_clock::Day;

/// The paschal full moons of a cycle of 19 years, as days after 21 March.
const FULL_MOONS: [u8; 19] = [
    24, 13, 2, 21, 10, 28, 18, 7, 26, 15, 4, 23, 12, 1, 20, 9, 27, 17, 6,
];

/// The Friday before Easter.
#[tactic(auto, unfolding(crate::specs::States::Easter::easter, crate::specs::States::Easter::good_friday))]
pub(crate) fn good_friday(year: i16) -> Day
    requires { IsStated year }
    ensures value { result ≡ good_friday year }
    ensures near { IsNear 400 result }
{
    earlier(sunday_after(full_moon(year)), 2)
}

/// The first Sunday after the day.
fn sunday_after(day: Day) -> Day
    requires { IsNear 300 day }
    ensures value { result ≡ sunday_after day }
    ensures near { IsNear 310 result }
{
    later(day, 7 - (day.weekday() + 1) % 7)
}

/// The paschal full moon of the year.
fn full_moon(year: i16) -> Day
    requires { IsStated year }
    ensures value { result ≡ full_moon year }
    ensures near { IsNear 300 result }
{
    let place = usize::from(year.unsigned_abs() % 19);
    later(on(year, 3, 21), FULL_MOONS[place])
}
