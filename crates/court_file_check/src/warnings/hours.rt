//! Hours and spans that look wrong.

ghost use Rattle.std.specs.Prelude.{◌≡◌, true};
ghost use Rattle.court_file_check.specs.Warnings.{closes_early, ends_by_next_year, ends_soon, ends_within_a_year, is_autumn, is_efiling_early, is_long_day, is_short_span, next_year_end};

use court_clock::{Clock, Day};
use court_days::Days;
use court_holidays::{on, year_of};

/// Whether the office closes before noon.
pub(crate) fn closes_early(clock: &Clock) -> bool
    ensures { result ≡ closes_early clock.now.closes }
{
    clock.closes() < 720
}

/// Whether it is open for more than twelve hours.
pub(crate) fn is_long_day(clock: &Clock) -> bool
    ensures { result ≡ is_long_day clock.now.opens clock.now.closes }
{
    let closes = clock.closes();
    clock.opens() + 720 < closes
}

/// Whether electronic filing ends before the office closes.
pub(crate) fn is_efiling_early(closes: u16, until: Option<u16>) -> bool
    ensures { result ≡ is_efiling_early closes until }
{
    match until {
        Some(until) => until < closes,
        None => false,
    }
}

/// Whether the span has less than the longest period of the table of periods after its first day: 90 days.
pub(crate) fn is_short_span(days: &Days) -> bool
    ensures { result ≡ is_short_span days.now }
{
    days.to().number() < days.from().number() + 90
}

/// Whether the span ends within a year after the day, if one is given, or with the next year or before that, where the day is
/// in autumn.
pub(crate) fn ends_soon(days: &Days, today: Option<Day>) -> bool
    ensures { result ≡ ends_soon days.now today }
{
    match today {
        Some(today) => ends_within_a_year(days, today) || ends_by_next_year(days, today),
        None => false,
    }
}

/// Whether the span ends within a year after the day.
fn ends_within_a_year(days: &Days, day: Day) -> bool
    ensures { result ≡ ends_within_a_year days.now day }
{
    days.to().number() < day.number() + 365
}

/// Whether the day is in autumn, and the span ends with the next year or before that.
fn ends_by_next_year(days: &Days, day: Day) -> bool
    ensures { result ≡ ends_by_next_year days.now day }
{
    is_autumn(day) && days.to().number() <= next_year_end(day).number()
}

/// Whether the day is in October, November or December.
fn is_autumn(day: Day) -> bool
    ensures { result ≡ is_autumn day }
{
    let year = year_of(day);
    1970 <= year && year <= 2197 && on(year, 10, 1).number() <= day.number()
}

/// The last day of the next year.
fn next_year_end(day: Day) -> Day
    requires { is_autumn day ≡ true }
    ensures { result ≡ next_year_end day }
{
    on(year_of(day) + 1, 12, 31)
}
