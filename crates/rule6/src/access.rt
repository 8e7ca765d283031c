//! What becomes of the time for filing where the clerk's office was inaccessible (Fed. R. Civ. P. 6(a)(3)).

ghost use Rattle.std.specs.Prelude.{◌≡◌, ◌<◌, ◌≤◌, ◌*◌, ◌<ℤ◌, ◌≤ℤ◌, ℤ, pos, neg_ℤ, true, false, ◌⊎◌};
ghost use Rattle.std.specs.List.{list_any};
ghost use Rattle.court_clock.specs.Words.{offset_seconds, second_of, IsInstantSecond, IsDayNumber};
ghost use Rattle.rule6.specs.Access.{extended_day, extended_end, meets_last_hour};

use court_clock::{Clock, Day, Direction, Instant};
use court_days::{Days, Outage};

/// The seconds of an hour.
const HOUR: i64 = 3_600;

/// The seconds of a day.
const DAY: i64 = 86_400;

/// The first second that is an instant.
const FIRST_INSTANT: i64 = -9_600_000_000;

/// The last day for filing after `last`, where the clerk's office was inaccessible at any minute of it
/// (Fed. R. Civ. P. 6(a)(3)(A)): the first accessible day later than it that is permitted in the direction. It is
/// later also for a period measured before its event. The day itself where no outage lies on it; None where no
/// covered day qualifies.
#[tactic(auto, unfolding(crate::specs::Access::extended_day))]
pub fn extended_for_access(days: &Days, last: Day, direction: Direction) -> Option<Day>
    ensures { result ≡ extended_day days.now last direction }
{
    if days.has_outage(last) {
        days.first_accessible(last, direction)
    } else {
        Some(last)
    }
}

/// The end of the time for filing after the instant `end`, where the clerk's office was inaccessible in the 3,600
/// seconds before it (Fed. R. Civ. P. 6(a)(3)(B)): the same time on the first accessible day, later than the day
/// of the end, that is permitted in the direction. The end itself where no outage meets that hour; None where no
/// covered day qualifies.
#[tactic(auto, unfolding(crate::specs::Access::extended_end))]
pub fn extended_for_access_hours(
    days: &Days,
    clock: &Clock,
    end: Instant,
    direction: Direction,
) -> Option<Instant>
    ensures { result ≡ extended_end days.now clock.now end direction }
{
    if !meets_an_outage(days, clock, end) {
        return Some(end);
    }
    let (day, second) = clock.civil_of(end)?;
    let later = days.first_accessible(day, direction)?;
    Some(clock.instant_of(later, second))
}

/// Whether an outage meets the last hour before the end.
fn meets_an_outage(days: &Days, clock: &Clock, end: Instant) -> bool
    ensures { result ≡ list_any (meets_last_hour clock.now end) days.now.outages }
{
    days.outages()
        .iter()
        .any(|outage| meets_last_hour(clock, end, *outage))
}

/// Whether the outage meets the last hour before the end (Fed. R. Civ. P. 6(a)(3)(B)). The hour is taken in
/// stretches through which the clock's offset is the same.
pub fn meets_last_hour(clock: &Clock, end: Instant, outage: Outage) -> bool
    ensures { result ≡ meets_last_hour clock.now end outage }
{
    let (begins, ends) = shut_seconds(outage);
    let stop = end.seconds();
    let mut from = (stop - HOUR).max(FIRST_INSTANT);
    'stretches: while from < stop {
        let (until, offset) = stretch(clock, from, stop);
        if overlap(begins, ends, from + offset, until + offset) {
            return true;
        }
        from = until;
    }
    false
}

/// The end of the stretch from `from` on, at most up to `stop`, through which the clock's offset is the same,
/// and that offset.
fn stretch(clock: &Clock, from: i64, stop: i64) -> (i64, i64)
    requires instant { IsInstantSecond from }
    requires some { from <ℤ stop }
    ensures some { from <ℤ result.0 }
    ensures within { result.0 ≤ℤ stop }
    ensures steady { (t : ℤ) → from ≤ℤ t → t <ℤ result.0 → offset_seconds clock.now.zone t ≡ result.1 }
    ensures offset_low { neg_ℤ (pos 93_599) ≤ℤ result.1 }
    ensures offset_high { result.1 ≤ℤ pos 93_599 }
{
    let now = instant(from);
    let until = clock.steady_until(now);
    let offset = i64::from(clock.offset_at(now));
    (if until < stop { until } else { stop }, offset)
}

/// Whether the seconds from `a` up to `b` and those from `c` up to `d` have one in common, where both have some.
fn overlap(a: i64, b: i64, c: i64, d: i64) -> bool
    ensures some { result ≡ true → (a <ℤ d) × (c <ℤ b) }
    ensures none { result ≡ false → (d ≤ℤ a) ⊎ (b ≤ℤ c) }
{
    a < d && c < b
}

/// The first second of the outage and the first after it, counted on the clock from 1970-01-01.
fn shut_seconds(outage: Outage) -> (i64, i64)
    ensures begins { result.0 ≡ second_of outage.day (60 * outage.from) }
    ensures ends { result.1 ≡ second_of outage.day (60 * outage.to) }
    ensures ordered { outage.from < outage.to }
    ensures within_the_day { outage.to ≤ 1440 }
    ensures day { IsDayNumber outage.day }
{
    let midnight = i64::from(outage.day().number()) * DAY;
    let begins = midnight + 60 * i64::from(outage.from());
    let ends = midnight + 60 * i64::from(outage.to());
    (begins, ends)
}

fn instant(second: i64) -> Instant
    requires { IsInstantSecond second }
    ensures { result ≡ second }
{
    match Instant::new(second) {
        Some(instant) => instant,
        None => unreachable!(),
    }
}
