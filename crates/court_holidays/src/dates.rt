//! The days of a year by their month: a date, and the nth or the last of a weekday; and the days from one to another.

ghost use Rattle.std.specs.Prelude.{◌≡◌, ◌<◌, ◌≤◌, ◌+◌, ◌-◌, ◌*◌, ◌+ℤ◌, ◌-ℤ◌, ◌≤ℤ◌, pos, unsigned_abs};
ghost use Rattle.std.specs.Int.{IsInRange};
ghost use Rattle.jiff_core.specs.Calendar.{days_from_civil, days_in_month, IsBetween};
ghost use Rattle.jiff_core.specs.Date.{epoch_day};
ghost use Rattle.jiff_tz.specs.Year.{year_of_day};
ghost use Rattle.court_clock.specs.Words.{days_through, IsDayNumber};
ghost use Rattle.court_holidays.specs.Dates.{IsNear, IsStated};
ghost use Rattle.court_holidays.specs.Weekdays.{last_weekday, nth_weekday};

use court_clock::Day;
use jiff_core::civil::{Date, Weekday};

/// That day of the month, in the years 1970 to 2199.
pub fn on(year: i16, month: i8, day: i8) -> Day
    requires year_in { IsStated year }
    requires month_in { IsBetween (pos 1) (pos 12) month }
    requires day_in { IsBetween (pos 1) (pos (days_in_month year (unsigned_abs month))) day }
    ensures value { result ≡ days_from_civil year (unsigned_abs month) (unsigned_abs day) }
    ensures near { IsNear 0 result }
{
    match Date::new(year, month, day) {
        Ok(date) => day_of(date),
        Err(_) => unreachable!(),
    }
}

/// The day with the date.
#[tactic(auto, using(crate::proofs::DateLemmas::stated_day, crate::proofs::DateLemmas::stated_near))]
fn day_of(date: Date) -> Day
    requires { IsStated date.year }
    ensures value { result ≡ epoch_day date }
    ensures near { IsNear 0 result }
{
    match Day::new(date.to_unix_epoch_day()) {
        Some(day) => day,
        None => unreachable!(),
    }
}

/// The day that is this many days later.
pub fn later(day: Day, days: u8) -> Day
    requires { IsDayNumber (day +ℤ pos days) }
    ensures { result ≡ day +ℤ pos days }
{
    match Day::new(day.number() + i32::from(days)) {
        Some(day) => day,
        None => unreachable!(),
    }
}

/// The day that is this many days earlier.
pub fn earlier(day: Day, days: u8) -> Day
    requires { IsDayNumber (day -ℤ pos days) }
    ensures { result ≡ day -ℤ pos days }
{
    match Day::new(day.number() - i32::from(days)) {
        Some(day) => day,
        None => unreachable!(),
    }
}

/// The nth such weekday of the month, for n from 1 to 4.
#[tactic(auto, using(crate::proofs::DateLemmas::nth_from_first))]
pub(crate) fn nth_weekday(year: i16, month: i8, nth: u8, weekday: Weekday) -> Day
    requires year_in { IsStated year }
    requires month_in { IsBetween (pos 1) (pos 12) month }
    requires nth_in { IsInRange 1 4 nth }
    ensures value { result ≡ nth_weekday nth weekday (unsigned_abs month) year }
    ensures near { IsNear 100 result }
{
    let first = on(year, month, 1);
    let wait = (weekday.index() + 7 - first.weekday()) % 7;
    later(first, wait + 7 * (nth - 1))
}

/// The last such weekday of the month, which has that many days.
#[tactic(auto, unfolding(crate::specs::Weekdays::last_weekday))]
pub(crate) fn last_weekday(year: i16, month: i8, days: i8, weekday: Weekday) -> Day
    requires year_in { IsStated year }
    requires month_in { IsBetween (pos 1) (pos 12) month }
    requires days_in { days ≡ pos (days_in_month year (unsigned_abs month)) }
    ensures value { result ≡ last_weekday weekday (unsigned_abs month) year }
    ensures near { IsNear 100 result }
{
    let last = on(year, month, days);
    earlier(last, (last.weekday() + 7 - weekday.index()) % 7)
}

/// How many days there are from the first to the last, both of them among these.
pub fn count_through(first: Day, last: Day) -> usize
    ensures { result ≡ days_through first last }
{
    if last.number() < first.number() {
        return 0;
    }
    (last.number() - first.number()) as usize + 1
}

/// The day at a place of those from the first to the last, counted from 0.
#[tactic(auto, using(court_clock::proofs::CallerLemmas::place_from_first))]
pub fn day_at(first: Day, last: Day, place: usize) -> Day
    requires { place < days_through first last }
    ensures { result ≡ first +ℤ pos place }
{
    let _last = last.number();
    match Day::new(first.number() + place as i32) {
        Some(day) => day,
        None => unreachable!(),
    }
}

/// The year of the day's date.
#[tactic(auto, using(crate::proofs::DateLemmas::year_is))]
pub fn year_of(day: Day) -> i16
    ensures { result ≡ year_of_day day }
{
    match Date::from_unix_epoch_day(i64::from(day.number())) {
        Ok(date) => date.year,
        Err(_) => unreachable!(),
    }
}
