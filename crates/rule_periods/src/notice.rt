//! Notice of a hearing (Fed. R. Civ. P. 6(c)).

ghost use Rattle.std.specs.Prelude.{◌≡◌, ◌≤◌, ◌≤ℤ◌, ◌-ℤ◌, pos, true};
ghost use Rattle.court_clock.specs.Words.{earlier_day};
ghost use Rattle.court_days.specs.Words.{is_covered, is_permitted, latest_day};
ghost use Rattle.rule_periods.specs.Notice.{notice_of};

use court_clock::{Day, Direction};
use court_days::Days;

/// The days before the hearing by which an opposing affidavit is served (Fed. R. Civ. P. 6(c)(2)).
const AFFIDAVIT_DAYS: u32 = 7;

/// The last day on which a motion and the notice of its hearing can be served so that they are `n` days before it
/// (Fed. R. Civ. P. 6(c)(1), counted backward by 6(a)(5)): the greatest covered day at or before the hearing's day
/// less `n` days that is no Saturday, Sunday or federal holiday. None where there is no such day.
pub fn notice_day(days: &Days, hearing: Day, n: u32) -> Option<Day>
    requires { (1 ≤ n) × (n ≤ 365) }
    ensures { result ≡ notice_of days.now hearing n }
{
    latest_at_or_before(days, days_before(hearing, n))
}

/// The number of the day that lies `n` days before another.
fn days_before(day: Day, n: u32) -> i32
    requires { n ≤ 365 }
    ensures { result ≡ day -ℤ pos n }
{
    day.number() - n as i32
}

/// The greatest covered day at or before a number that is permitted in a period measured before its event.
#[tactic(auto, using(crate::proofs::NoticeLemmas::latest_starts, crate::proofs::NoticeLemmas::latest_before_span))]
fn latest_at_or_before(days: &Days, number: i32) -> Option<Day>
    ensures { result ≡ latest_day days.now (is_permitted days.now Direction.Before) number }
{
    if number < days.from().number() {
        return None;
    }
    latest_permitted(days, covered_at_or_before(days, number))
}

/// The day of that number, or the last covered day where that lies before it.
fn covered_at_or_before(days: &Days, number: i32) -> Day
    requires { days.now.from ≤ℤ number }
    ensures covered { is_covered days.now result ≡ true }
    ensures value { result ≡ earlier_day number days.now.to }
{
    let last = days.to();
    if number <= last.number() {
        return match Day::new(number) {
            Some(day) => day,
            None => unreachable!(),
        };
    }
    last
}

/// The greatest day at or before a covered one that is permitted in a period measured before its event.
#[tactic(auto, unfolding(court_days::specs::Words::rolled))]
fn latest_permitted(days: &Days, day: Day) -> Option<Day>
    requires { is_covered days.now day ≡ true }
    ensures { result ≡ latest_day days.now (is_permitted days.now Direction.Before) day }
{
    days.roll(day, Direction::Before)
}

/// The last day on which an opposing affidavit can be served (Fed. R. Civ. P. 6(c)(2)), which is 7 days before the
/// hearing. None where there is no such day.
pub fn affidavit_day(days: &Days, hearing: Day) -> Option<Day>
    ensures { result ≡ notice_of days.now hearing 7 }
{
    notice_day(days, hearing, AFFIDAVIT_DAYS)
}
