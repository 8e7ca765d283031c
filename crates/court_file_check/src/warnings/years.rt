//! Years without a holiday.

ghost use Rattle.std.specs.Prelude.{◌≡◌, ◌||◌, ◌<◌, ◌≤◌, ◌+ℤ◌, ◌≤ℤ◌, int_le, pos, IfOk};
ghost use Rattle.court_days.specs.Words.{is_among};
ghost use Rattle.court_file_check.specs.Warnings.{bare_years, has_day, is_bare, is_bare_year, is_within};
ghost use Rattle.court_holidays.specs.Federal.Words.{set_in};
ghost use Rattle.court_holidays.specs.declared.federal.statute.FederalHoliday.TheVariants.{NewYearsDay};

use court_clock::Day;
use court_days::{Days, HolidayList};
use court_holidays::FederalHoliday;
use std::alloc::{AllocError, Global};

/// The years from 1970 to 2198 that lie in the span and of which the federal list has no day, in their order. An `Err`
/// says that memory ran out.
#[tactic(auto, unfolding(crate::specs::Warnings::bare_years))]
pub(crate) fn bare_years(alloc: Global, days: &Days) -> Result<Vec<u16>, AllocError>
    ensures { IfOk result (λ years. years.items ≡ bare_years days.now) }
{
    (1970..2199u16)
        .filter(|year| is_bare_year(days, *year))
        .collect(alloc)
}

/// Whether the year lies in the span and the federal list has no day of it.
fn is_bare_year(days: &Days, year: u16) -> bool
    requires { year < 2199 }
    ensures { result ≡ is_bare_year days.now year }
{
    is_bare(days, new_year(year), new_year(year + 1))
}

/// The first day of a year, if it is one of 1970 to 2199.
fn new_year(year: u16) -> Option<Day>
    requires { year ≤ 2199 }
    ensures { result ≡ set_in NewYearsDay (pos year) }
{
    FederalHoliday::NewYearsDay.day_in(year as i16)
}

/// Whether the days from the first up to the next year's lie in the span, and none of them is in the federal list.
fn is_bare(days: &Days, first: Option<Day>, next: Option<Day>) -> bool
    ensures { result ≡ is_bare days.now first next }
{
    let (Some(first), Some(next)) = (first, next) else {
        return false;
    };
    if !is_within(days, first, next) {
        return false;
    }
    !has_day(days, first, next)
}

/// Whether the days from the first up to the other, which isn't one of them, lie in the span.
fn is_within(days: &Days, first: Day, next: Day) -> bool
    ensures { result ≡ is_within days.now first next }
{
    is_ordered(first, next) && is_ordered(days.from(), first) && ends_within(days, next)
}

/// Whether the first of two days isn't later than the second.
fn is_ordered(first: Day, second: Day) -> bool
    ensures { result ≡ int_le first second }
{
    first.number() <= second.number()
}

/// Whether the day is at most the one after the span.
fn ends_within(days: &Days, next: Day) -> bool
    ensures { result ≡ int_le next (days.now.to +ℤ pos 1) }
{
    next.number() <= days.to().number() + 1
}

/// Whether the federal list has one of them.
fn has_day(days: &Days, first: Day, next: Day) -> bool
    requires { first ≤ℤ next }
    ensures { result ≡ has_day days.now first next }
{
    let count = (next.number() - first.number()).unsigned_abs();
    let mut found = false;
    for place in 0..count {
        found = is_listed_or(found, days, first, place);
    }
    found
}

/// Whether the federal list has the day that comes this many days after the first, or another was found before.
fn is_listed_or(found: bool, days: &Days, first: Day, place: u32) -> bool
    requires { (first +ℤ pos place) ≤ℤ pos 110000 }
    ensures { result ≡ (found || is_among days.now.federal (first +ℤ pos place)) }
{
    match Day::new(first.number() + place as i32) {
        Some(day) => found || days.in_list(HolidayList::Federal, day),
        None => unreachable!(),
    }
}
