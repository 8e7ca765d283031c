//! Which of two ends comes first.

ghost use Rattle.std.specs.Prelude.{◌≡◌};
ghost use Rattle.reason_notes.specs.Readings.Earlier.{earlier_of, is_earlier, is_earlier_by_day, is_earlier_on_day};

use crate::margins::end_day;
use court_clock::{Clock, Day};
use rule6::Shown;

/// The earlier of the ends that there are, and of two that come at once the first.
pub(crate) fn earlier_of(
    clock: &Clock,
    first: Option<Shown>,
    second: Option<Shown>,
) -> Option<Shown>
    ensures { result ≡ earlier_of clock.now first second }
{
    match (first, second) {
        (Some(end), Some(other)) => {
            if is_earlier(clock, &other, &end) {
                Some(other)
            } else {
                Some(end)
            }
        }
        (Some(end), None) => Some(end),
        (None, second) => second,
    }
}

/// Whether the first end comes before the other.
fn is_earlier(clock: &Clock, end: &Shown, other: &Shown) -> bool
    ensures { result ≡ is_earlier clock.now end.now other.now }
{
    is_earlier_by_day(
        end_day(clock, end),
        end_day(clock, other),
        is_earlier_on_day(end, other),
    )
}

/// The same, by the days of the ends and by which comes first on one day.
fn is_earlier_by_day(day: Option<Day>, other: Option<Day>, on_day: bool) -> bool
    ensures { result ≡ is_earlier_by_day day other on_day }
{
    match (day, other) {
        (Some(day), Some(other)) => day.number() < other.number() || (day == other && on_day),
        (Some(_), None) => true,
        (None, _) => false,
    }
}

/// Whether, of two ends on one day, the first comes before the other.
fn is_earlier_on_day(end: &Shown, other: &Shown) -> bool
    ensures { result ≡ is_earlier_on_day end.now other.now }
{
    match (end, other) {
        (Shown::Until(end), Shown::Until(other)) => end.seconds() < other.seconds(),
        (Shown::Until(_), _) => true,
        _ => false,
    }
}
