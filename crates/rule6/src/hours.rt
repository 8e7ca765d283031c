//! The end of a period that is stated in hours.

ghost use Rattle.std.specs.Prelude.{◌≡◌, ◌≤◌, IfSome, IfNone};
ghost use Rattle.court_clock.specs.Words.{IsInstantSecond};
ghost use Rattle.rule6.specs.Hours.{hours_from, end_of_hours_from};

use court_clock::{Clock, Direction, Instant};
use court_days::Days;

/// The seconds of an hour.
const HOUR: i64 = 3_600;

/// The end of a period of `h` hours that is measured from the instant `event` (Fed. R. Civ. P. 6(a)(2), (5)).
/// Counting begins at once and every hour counts, also over a change of the clocks. An end that the clock shows on
/// a Saturday, Sunday or legal holiday is continued to the same time on the next day that is none, forward for a
/// period measured after its event and backward for one measured before it; a time that the clock shows twice
/// there is the earlier, and one that it jumps over is later by the gap. None where a day that this needs lies
/// outside the days covered.
#[tactic(auto, unfolding(crate::specs::Hours::end_of_hours_from), using(crate::proofs::HourLemmas::no_civil_time))]
pub fn end_of_hours(
    days: &Days,
    clock: &Clock,
    event: Instant,
    h: u32,
    direction: Direction,
) -> Option<Instant>
    requires { (1 ≤ h) × (h ≤ 8760) }
    ensures { result ≡ end_of_hours_from days.now clock.now event h direction }
{
    let end = counted(event, h, direction)?;
    let (day, second) = clock.civil_of(end)?;
    if days.is_permitted(day, direction) {
        return Some(end);
    }
    let continued = days.roll(day, direction)?;
    Some(clock.instant_of(continued, second))
}

/// The instant that lies `h` hours from `event`, continued or not.
fn counted(event: Instant, h: u32, direction: Direction) -> Option<Instant>
    requires { h ≤ 8760 }
    ensures some { IfSome result (λ end. end ≡ hours_from event h direction) }
    ensures none { IfNone result (¬ IsInstantSecond (hours_from event h direction)) }
{
    let seconds = HOUR * i64::from(h);
    match direction {
        Direction::After => Instant::new(event.seconds() + seconds),
        Direction::Before => Instant::new(event.seconds() - seconds),
    }
}
