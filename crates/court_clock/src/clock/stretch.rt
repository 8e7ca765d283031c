//! Stretches of time in which a clock's offset doesn't change.

ghost use Rattle.std.specs.Prelude.{◌≡◌, ◌↔◌, ◌<◌, ◌+ℤ◌, ◌-ℤ◌, ◌*ℤ◌, ◌<ℤ◌, ◌≤ℤ◌, ℤ, pos, neg_ℤ, true, None, IsNone, IfSome, IfOk, All};
ghost use Rattle.std.specs.Int.{int_div_euclid};
ghost use Rattle.jiff.specs.Words.{plain_zone, IsOffsetSeconds, IsWithin, nanos_of_seconds, next_at};
ghost use Rattle.jiff_tz.specs.Year.{year_of_day};
ghost use Rattle.jiff_tz.specs.declared.timezone.TimeZone.{TimeZone as PlainZone};
ghost use Rattle.court_clock.specs.Clock.{is_ruled, offset_seconds};
ghost use Rattle.court_clock.specs.Clock.Stretch.{IsSteady, IsLastOfYear};

use crate::clock::instant::Instant;
use jiff::Timestamp;
use jiff::civil::Date;
use jiff::tz::TimeZone;
use std::alloc::{AllocError, Global};

/// The seconds of a day.
const DAY: i64 = 86_400;

/// A second after every instant.
const FOR_EVER: i64 = 10_000_000_000;

/// From the second `from` up to the second `until`, which is not included, the clock is `offset` seconds ahead of UTC.
/// Seconds are counted from 1970-01-01T00:00Z.
#[derive(Clone, Copy, Debug, Drop)]
pub(crate) struct Stretch {
    pub(crate) from: i64,
    pub(crate) until: i64,
    pub(crate) offset: i32,
    ghost in_range: { IsOffsetSeconds offset },
}

/// The stretches that follow one another from the first instant until after the last.
pub(crate) fn stretches_of(
    alloc: Global,
    zone: TimeZone<'static>,
    first: Instant,
    last: Instant,
) -> Result<Vec<Stretch>, AllocError>
    requires { is_ruled (plain_zone zone) ≡ true }
    ensures { IfOk result (λ v. All (λ s. IsSteady (plain_zone zone.entry) s.from s.until s.offset) v.items) }
{
    let stop = last.seconds();
    let mut stretches = Vec::new(alloc);
    let mut from = first.seconds();
    'stretches: while from <= stop {
        let stretch = stretch_from(zone, instant(from));
        stretches.push(stretch)?;
        from = stretch.until;
    }
    Ok(stretches)
}

/// The stretch that begins at the instant and ends at its `steady_until`.
fn stretch_from(zone: TimeZone<'static>, from: Instant) -> Stretch
    requires { is_ruled (plain_zone zone) ≡ true }
    ensures steady { IsSteady (plain_zone zone.entry) result.from result.until result.offset }
    ensures later { from <ℤ result.until }
{
    Stretch {
        from: from.seconds(),
        until: steady_until(zone, from),
        offset: offset_at(zone, from),
    }
}

/// The stretch that has the second, if it is in the list. The list is in the order of time.
pub(crate) fn stretch_at(stretches: &[Stretch], second: i64) -> Option<Stretch>
    ensures covers { IfSome result (λ s. (s.from ≤ℤ second) × (second <ℤ s.until)) }
    ensures steady { (zone : PlainZone) → All (λ s. IsSteady zone s.from s.until s.offset) stretches.now → IfSome result (λ s. IsSteady zone s.from s.until s.offset) }
{
    let mut low = 0;
    let mut high = stretches.len();
    'halves: while low < high {
        let middle = low + (high - low) / 2;
        let stretch = stretches[middle];
        if second < stretch.from {
            high = middle;
        } else if second >= stretch.until {
            low = middle + 1;
        } else {
            return Some(stretch);
        }
    }
    None
}

/// How many seconds a clock of the zone is ahead of UTC at the instant.
pub(crate) fn offset_at(zone: TimeZone<'static>, instant: Instant) -> i32
    ensures value { result ≡ offset_seconds (plain_zone zone.entry) instant }
    ensures in_range { IsOffsetSeconds result }
{
    let offset = zone.to_offset(timestamp(instant)).to_plain();
    offset.seconds
}

/// A later second before which the zone's offset doesn't change. Where the zone has one offset, it is a second after
/// every instant. Else it is the zone's next transition or the end of the year of UTC, whichever comes first.
pub(crate) fn steady_until(zone: TimeZone<'static>, instant: Instant) -> i64
    requires { is_ruled (plain_zone zone) ≡ true }
    ensures later { instant <ℤ result }
    ensures steady { (t : ℤ) → instant ≤ℤ t → t <ℤ result → offset_seconds (plain_zone zone.entry) t ≡ offset_seconds (plain_zone zone.entry) instant }
{
    let now = instant.seconds();
    if has_one_offset(zone) {
        return FOR_EVER;
    }
    let end = end_of_utc_year(instant);
    match next_change(zone, instant) {
        Some(change) => change.clamp(now + 1, end),
        None => end,
    }
}

/// Whether the zone has no daylight saving time.
#[tactic(auto, using(crate::proofs::ClockLemmas::SteadyLemmas::one_offset))]
fn has_one_offset(zone: TimeZone<'static>) -> bool
    requires { is_ruled (plain_zone zone) ≡ true }
    ensures { result ≡ true → (t u : ℤ) → offset_seconds (plain_zone zone.entry) t ≡ offset_seconds (plain_zone zone.entry) u }
{
    match zone.to_plain() {
        jiff_tz::TimeZone::Posix(rule) => match rule.dst {
            Some(_) => false,
            None => true,
        },
        _ => true,
    }
}

/// The first whole second at or after the zone's next transition.
fn next_change(zone: TimeZone<'static>, instant: Instant) -> Option<i64>
    ensures some { IfSome result (λ change. (t : ℤ) → t <ℤ change → IfSome (next_at (plain_zone zone.entry) (nanos_of_seconds instant)) (λ next. nanos_of_seconds t <ℤ next.0)) }
    ensures none { IsNone result ↔ (next_at (plain_zone zone.entry) (nanos_of_seconds instant) ≡ None) }
{
    let transition = zone
        .to_plain()
        .next_transition(timestamp(instant).to_plain())?;
    Some(ceil_second(transition.timestamp))
}

fn timestamp(instant: Instant) -> Timestamp
    ensures { result.nanosecond ≡ nanos_of_seconds instant }
{
    match Timestamp::from_second(instant.seconds()) {
        Ok(timestamp) => timestamp,
        Err(_) => unreachable!(),
    }
}

/// The instant of a second that is known to be one.
fn instant(second: i64) -> Instant
    requires low { neg_ℤ (pos 9_600_000_000) ≤ℤ second }
    requires high { second ≤ℤ pos 9_600_000_000 }
    ensures { result ≡ second }
{
    match Instant::new(second) {
        Some(instant) => instant,
        None => unreachable!(),
    }
}

/// The first whole second at or after a moment.
fn ceil_second(moment: jiff_core::Timestamp) -> i64
    ensures reached { moment.nanosecond ≤ℤ nanos_of_seconds result }
    ensures first { nanos_of_seconds (result -ℤ pos 1) <ℤ moment.nanosecond }
{
    let floor = moment.floor_second();
    if i128::from(floor) * 1_000_000_000 < moment.nanosecond {
        floor + 1
    } else {
        floor
    }
}

/// The first second after the instant's year, on a clock at UTC.
fn end_of_utc_year(instant: Instant) -> i64
    ensures later { instant <ℤ result }
    ensures same_year { (t : ℤ) → instant ≤ℤ t → t <ℤ result → year_of_day (int_div_euclid t (pos 86_400)) ≡ year_of_day (int_div_euclid instant (pos 86_400)) }
    ensures bound { IsWithin 9_720_000_000 result }
{
    let day = utc_day(instant);
    second_after(last_of_year(day))
}

/// The day of the instant on a clock at UTC, counted from 1970-01-01.
fn utc_day(instant: Instant) -> i32
    ensures value { result ≡ int_div_euclid instant (pos 86_400) }
    ensures bound { IsWithin 112_000 result }
{
    instant.seconds().div_euclid(DAY) as i32
}

/// The first second after a day, on a clock at UTC.
fn second_after(day: i32) -> i64
    requires { IsWithin 113_000 day }
    ensures { result ≡ (day +ℤ pos 1) *ℤ pos 86_400 }
{
    (i64::from(day) + 1) * DAY
}

/// The last day of a day's year.
fn last_of_year(day: i32) -> i32
    requires { IsWithin 112_000 day }
    ensures { IsLastOfYear day result }
{
    let date = match jiff_core::civil::Date::from_unix_epoch_day(i64::from(day)) {
        Ok(date) => Date::from_plain(date),
        Err(_) => unreachable!(),
    };
    date.last_of_year().to_plain().to_unix_epoch_day()
}
