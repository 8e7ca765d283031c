//! Days and instants, as texts of ISO 8601.

ghost use Rattle.std.specs.Prelude.{◌≡◌, ◌<◌, ◌++◌, OnOk, string_bytes};
ghost use Rattle.jiff.specs.Words.{IsOffsetSeconds};
ghost use Rattle.court_clock.specs.Words.{day_text};
ghost use Rattle.report_json.specs.Times.{civil_words, day_value, instant_value, minute_value, moment_value, offset_time, offset_words, sign_of};
ghost use Rattle.report_json.specs.Values.{AddsValue};

use super::JsonWriter;
use court_clock::{Clock, Day, Instant};
use reason_texts::{push_minute, push_second};
use std::alloc::AllocError;
use std::fmt::Write;

impl JsonWriter {
    /// A day, as `2025-09-02`.
    pub(crate) fn day(&mut self, day: Day) -> Result<(), AllocError>
        ensures { OnOk result (AddsValue self.old self.new (day_value day)) }
    {
        self.scratch.clear();
        write!(self.scratch, "{day}")?;
        self.writer.string(self.scratch.as_str())
    }

    /// A minute of a day, as `09:30`.
    pub(crate) fn minute(&mut self, minute: u16) -> Result<(), AllocError>
        ensures { OnOk result (AddsValue self.old self.new (minute_value minute)) }
    {
        self.scratch.clear();
        push_minute(&mut self.scratch, minute)?;
        self.writer.string(self.scratch.as_str())
    }

    /// An instant, as `2025-09-16T15:00:00-04:00`: what the court's clock shows, and how far it is ahead of UTC then.
    #[tactic(auto, unfolding(crate::specs::Times::instant_value))]
    pub(crate) fn instant(&mut self, clock: &Clock, instant: Instant) -> Result<(), AllocError>
        ensures { OnOk result (AddsValue self.old self.new (instant_value clock.now.zone instant)) }
    {
        match clock.civil_of(instant) {
            Some((day, second)) => {
                self.scratch.clear();
                push_civil(&mut self.scratch, day, second)?;
                push_offset(&mut self.scratch, clock.offset_at(instant))?;
                self.writer.string(self.scratch.as_str())
            }
            None => self.null(),
        }
    }

    /// A second of a day, as the court's clock shows it: one that the clock jumps over is shown as much later.
    pub(crate) fn moment(&mut self, clock: &Clock, day: Day, second: u32) -> Result<(), AllocError>
        requires { second < 86_400 }
        ensures { OnOk result (AddsValue self.old self.new (moment_value clock.now.zone day second)) }
    {
        self.instant(clock, clock.instant_of(day, second))
    }
}

/// Adds a civil time, as `2025-09-16T15:00:00`.
#[tactic(auto, unfolding(crate::specs::Times::civil_words))]
fn push_civil(text: &mut String, day: Day, second: u32) -> Result<(), AllocError>
    ensures { OnOk result (string_bytes text.new ≡ string_bytes text.old ++ civil_words (record { day = day; second = second })) }
{
    write!(text, "{day}T")?;
    push_second(text, second)
}

/// Adds how far the clock is ahead of UTC, as `-04:00`.
#[tactic(auto, unfolding(crate::specs::Times::offset_words))]
fn push_offset(text: &mut String, offset: i32) -> Result<(), AllocError>
    requires { IsOffsetSeconds offset }
    ensures { OnOk result (string_bytes text.new ≡ string_bytes text.old ++ offset_words offset) }
{
    text.push(sign_of(offset))?;
    push_offset_time(text, offset.unsigned_abs())
}

/// Whether the clock is ahead of UTC or behind it.
fn sign_of(offset: i32) -> char
    ensures value { result ≡ sign_of offset }
    ensures ascii { result < 128 }
{
    if 0 <= offset { '+' } else { '-' }
}

/// Adds how far it is, with the seconds where it has some.
fn push_offset_time(text: &mut String, seconds: u32) -> Result<(), AllocError>
    requires { seconds < 3_000_000 }
    ensures { OnOk result (string_bytes text.new ≡ string_bytes text.old ++ offset_time seconds) }
{
    if seconds % 60 == 0 {
        push_minute(text, (seconds / 60) as u16)
    } else {
        push_second(text, seconds)
    }
}
