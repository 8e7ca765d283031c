//! The court's clock.

ghost use Rattle.std.specs.Prelude.{◌≡◌, ◌<◌, ◌<ℤ◌, ◌≤ℤ◌, ◌-ℤ◌, ℤ, true, None, option_map, IfSome, IfOk, All};
ghost use Rattle.std.specs.Arc.{arc_value};
ghost use Rattle.jiff.specs.Words.{plain_zone, IsOffsetSeconds, IsWithin};
ghost use Rattle.court_clock.specs.Clock.{ClockView, CivilTime, is_ruled, offset_seconds, shown_second, second_of, civil_of, larger_offset, smaller_offset, standard_offset, daylight_offset, instant_of, with_efiling_until, IsClock};
ghost use Rattle.court_clock.specs.Clock.Stretch.{IsSteady};

use crate::day::Day;
use jiff::tz::TimeZone;
use std::alloc::{AllocError, Global};
use std::marker::Model;
use std::sync::Arc;

mod instant;
mod minute;
mod stretch;
mod zone;

pub use instant::Instant;
pub use minute::minute_from_text;
use stretch::{Stretch, offset_at, steady_until, stretch_at, stretches_of};
pub use zone::zone_from_text;

/// The seconds of a day.
const DAY: i64 = 86_400;

/// The most seconds that a zone's clock may be ahead of UTC.
const MOST_OFFSET: i32 = 93_599;

/// The court's time zone, the hours at which the clerk's office is scheduled to open and close, and the minute to which
/// electronic filing runs on a last day, where that isn't midnight. The clock has a list of the stretches between the
/// zone's transitions within the court's span, and looks an offset up there.
#[derive(Drop)]
pub struct Clock {
    zone: TimeZone<'static>,
    opens: u16,
    closes: u16,
    efiling_until: Option<u16>,
    stretches: Arc<Vec<Stretch>>,
}

impl Model for Clock {
    ghost Value = { ClockView };

    ghost view = { λ c. record { zone = plain_zone c.zone; opens = c.opens; closes = c.closes; efiling_until = c.efiling_until } };

    ghost invariant = { λ c. IsClock (plain_zone c.zone) c.opens c.closes × IfSome c.efiling_until (λ minute. minute < 1440) × All (λ s. IsSteady (plain_zone c.zone) s.from s.until s.offset) (arc_value c.stretches).items };
}

impl Clock {
    /// The clock of a zone that `zone_from_text` gives. `hours` are the minutes of the day, counted from midnight, at
    /// which the clerk's office opens and, later, closes; `from` and `to` are the first and the last day of the court's
    /// span. Electronic filing runs to midnight. An `Err` says that memory ran out.
    pub fn new(
        alloc: Global,
        zone: TimeZone<'static>,
        hours: (u16, u16),
        from: Day,
        to: Day,
    ) -> Result<Clock, AllocError>
        requires { IsClock (plain_zone zone) hours.0 hours.1 }
        ensures { IfOk result (λ c. c ≡ record { zone = plain_zone zone.entry; opens = hours.0; closes = hours.1; efiling_until = None }) }
    {
        let first = instant_by(second_of(from, 0), MOST_OFFSET);
        let last = instant_by(second_of(to, 86_399), -MOST_OFFSET);
        let stretches = stretches_of(alloc, zone, first, last)?;
        let (opens, closes) = hours;
        Ok(Clock {
            zone,
            opens,
            closes,
            efiling_until: None,
            stretches: Arc::new(alloc, stretches)?,
        })
    }

    /// The minute of the day, counted from midnight, at which the clerk's office is scheduled to open.
    pub fn opens(&self) -> u16
        ensures value { result ≡ self.now.opens }
        ensures ordered { result < self.now.closes }
    {
        self.opens
    }

    /// The minute of the day, counted from midnight, at which the clerk's office is scheduled to close.
    pub fn closes(&self) -> u16
        ensures value { result ≡ self.now.closes }
        ensures ordered { self.now.opens < result }
        ensures within_the_day { result < 1440 }
    {
        self.closes
    }

    /// The minute of the day, counted from midnight, to which a last day runs for electronic filing where a local rule sets
    /// it (Fed. R. Civ. P. 6(a)(4)). None where it runs to midnight.
    pub fn efiling_until(&self) -> Option<u16>
        ensures value { result ≡ self.now.efiling_until }
        ensures within_the_day { IfSome result (λ minute. minute < 1440) }
    {
        self.efiling_until
    }

    /// Sets that minute.
    pub fn set_efiling_until(&mut self, minute: u16)
        requires { minute < 1440 }
        ensures { self.new ≡ with_efiling_until minute self.old }
    {
        self.efiling_until = Some(minute);
    }

    /// How many seconds the clock is ahead of UTC at the instant; negative where it is behind UTC.
    pub fn offset_at(&self, instant: Instant) -> i32
        ensures value { result ≡ offset_seconds self.now.zone instant }
        ensures in_range { IsOffsetSeconds result }
    {
        match stretch_at(&self.stretches, instant.seconds()) {
            Some(stretch) => stretch.offset,
            None => offset_at(self.zone, instant),
        }
    }

    /// The day and the second of the day, counted from midnight, that the clock shows at the instant. None exactly
    /// where that day is no `Day`.
    #[tactic(auto, unfolding(crate::specs::Clock::civil_of, crate::specs::Clock::civil_time))]
    pub fn civil_of(&self, instant: Instant) -> Option<(Day, u32)>
        ensures value { option_map (λ c. record { day = c.0; second = c.1 }) result ≡ civil_of self.now.zone instant }
        ensures second { IfSome result (λ c. c.1 < 86_400) }
    {
        let shown = self.shown_at(instant);
        let day = Day::new(shown.div_euclid(DAY) as i32)?;
        let second = shown.rem_euclid(DAY) as u32;
        Some((day, second))
    }

    /// The instant at which the clock shows that second of the day: the earlier of two, and, where the clock jumps
    /// over it, the instant that is later by the gap.
    pub fn instant_of(&self, day: Day, second: u32) -> Instant
        requires { second < 86_400 }
        ensures { result ≡ instant_of self.now.zone day second }
    {
        let civil = second_of(day, second);
        let (smaller, larger) = self.offsets();
        let earlier = instant_by(civil, larger);
        if self.shown_at(earlier) == civil {
            return earlier;
        }
        instant_by(civil, smaller)
    }

    /// A later second before which the clock's offset doesn't change, in seconds from 1970-01-01T00:00Z. It is the
    /// clock's next change or the end of the year of UTC, whichever comes first; where the zone has one offset, it is a
    /// second after every instant. The contract promises some later second only, because the caller goes on from there
    /// in any case. Tests show that it is that one.
    pub fn steady_until(&self, instant: Instant) -> i64
        ensures later { instant <ℤ result }
        ensures steady { (t : ℤ) → instant ≤ℤ t → t <ℤ result → offset_seconds self.now.zone t ≡ offset_seconds self.now.zone instant }
    {
        match stretch_at(&self.stretches, instant.seconds()) {
            Some(stretch) => stretch.until,
            None => steady_until(self.zone, instant),
        }
    }

    /// The same clock. Both share one list of stretches. An `Err` says that there are as many copies as can be counted.
    pub fn copy(&self) -> Result<Clock, AllocError>
        ensures { IfOk result (λ c. c ≡ self.now) }
    {
        Ok(Clock {
            zone: self.zone,
            opens: self.opens,
            closes: self.closes,
            efiling_until: self.efiling_until,
            stretches: self.stretches.clone()?,
        })
    }

    /// What the clock shows at the instant, in seconds from the midnight that begins 1970-01-01 on it.
    fn shown_at(&self, instant: Instant) -> i64
        ensures value { result ≡ shown_second self.now.zone instant }
        ensures bound { IsWithin 9_600_093_599 result }
    {
        instant.seconds() + i64::from(self.offset_at(instant))
    }

    /// The smaller of the zone's two offsets, and the larger.
    fn offsets(&self) -> (i32, i32)
        ensures smaller { result.0 ≡ smaller_offset self.now.zone }
        ensures larger { result.1 ≡ larger_offset self.now.zone }
        ensures smaller_in_range { IsOffsetSeconds result.0 }
        ensures larger_in_range { IsOffsetSeconds result.1 }
    {
        let standard = self.standard_offset();
        let daylight = self.daylight_offset();
        if standard <= daylight {
            (standard, daylight)
        } else {
            (daylight, standard)
        }
    }

    fn standard_offset(&self) -> i32
        ensures value { result ≡ standard_offset self.now.zone }
        ensures in_range { IsOffsetSeconds result }
    {
        match self.zone.to_plain() {
            jiff_tz::TimeZone::Fixed(offset) => offset.seconds,
            jiff_tz::TimeZone::Posix(rule) => rule.std_offset.seconds,
            _ => 0,
        }
    }

    fn daylight_offset(&self) -> i32
        ensures value { result ≡ daylight_offset self.now.zone }
        ensures in_range { IsOffsetSeconds result }
    {
        match self.zone.to_plain() {
            jiff_tz::TimeZone::Posix(rule) => match rule.dst {
                Some(dst) => dst.offset.seconds,
                None => rule.std_offset.seconds,
            },
            _ => self.standard_offset(),
        }
    }
}

/// A civil time in seconds from the midnight that begins 1970-01-01 on the clock.
fn second_of(day: Day, second: u32) -> i64
    requires { second < 86_400 }
    ensures value { result ≡ second_of day second }
    ensures bound { IsWithin 9_504_086_400 result }
{
    i64::from(day.number()) * DAY + i64::from(second)
}

/// The instant of a civil time by an offset.
fn instant_by(civil: i64, offset: i32) -> Instant
    requires civil_in { IsWithin 9_504_086_400 civil }
    requires offset_in { IsOffsetSeconds offset }
    ensures { result ≡ civil -ℤ offset }
{
    match Instant::new(civil - i64::from(offset)) {
        Some(instant) => instant,
        None => unreachable!(),
    }
}
