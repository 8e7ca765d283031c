//! The last day of a period that is stated in days.

ghost use Rattle.std.specs.Prelude.{◌≡◌, ◌≤◌, false, IsTrue, IfSome, IfNone};
ghost use Rattle.court_clock.specs.Words.{counted_from};
ghost use Rattle.court_days.specs.Words.{is_covered};
ghost use Rattle.rule6.specs.Days.{expiry_of, last_day_of};

use court_clock::{Day, Direction};
use court_days::Days;

/// The days that are added after service by mail, on the clerk or by other means (Fed. R. Civ. P. 6(d)).
const ADDED_DAYS: u32 = 3;

/// The last day of a period of `n` days that is measured from the day `event` (Fed. R. Civ. P. 6(a)(1), (5)).
/// The day of the event is excluded, every other day counts, and a last day that is a Saturday, Sunday or legal
/// holiday gives way to the next day that is none, forward for a period measured after its event and backward for
/// one measured before it. Where three days are `added` (6(d)), they are counted from that last day, and the
/// result is rolled forward again. None where a day that this needs lies outside the days covered.
#[tactic(auto, unfolding(crate::specs::Days::last_day_of))]
pub fn last_day(days: &Days, event: Day, n: u32, direction: Direction, added: bool) -> Option<Day>
    requires length { (1 ≤ n) × (n ≤ 3650) }
    requires added_after { IsTrue added → direction ≡ Direction.After }
    ensures { result ≡ last_day_of days.now event n direction added }
{
    let last = expiry(days, event, n, direction)?;
    if !added {
        return Some(last);
    }
    expiry(days, last, ADDED_DAYS, Direction::After)
}

/// The day on which `n` days from `event` expire.
#[tactic(auto, unfolding(court_days::specs::Words::rolled))]
fn expiry(days: &Days, event: Day, n: u32, direction: Direction) -> Option<Day>
    requires { n ≤ 3650 }
    ensures { result ≡ expiry_of days.now event n direction }
{
    let day = covered_day(days, counted(event, n, direction))?;
    days.roll(day, direction)
}

/// The number of the day that lies `n` days from `event`, rolled or not.
fn counted(event: Day, n: u32, direction: Direction) -> i32
    requires { n ≤ 3650 }
    ensures { result ≡ counted_from event n direction }
{
    let count = n as i32;
    match direction {
        Direction::After => event.number() + count,
        Direction::Before => event.number() - count,
    }
}

/// The day of that number, if it is covered.
fn covered_day(days: &Days, number: i32) -> Option<Day>
    ensures some { IfSome result (λ day. day ≡ number) }
    ensures none { IfNone result (is_covered days.now number ≡ false) }
{
    if number < days.from().number() || days.to().number() < number {
        return None;
    }
    Day::new(number)
}
