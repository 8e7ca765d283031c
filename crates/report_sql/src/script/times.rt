//! Days, times of day, instants and periods, as values.

ghost use Rattle.std.specs.Prelude.{◌≡◌, ◌<◌, ◌++◌, [], ◌∷◌, OnOk, string_bytes};
ghost use Rattle.content_lines.specs.Words.{utc_second};
ghost use Rattle.report_texts.specs.Words.{period_words};
ghost use Rattle.report_sql.specs.Rows.{AddsValues, or_null, text};
ghost use Rattle.report_sql.specs.Times.{day_value, instant_value, minute_value, second_value, slot_value, utc_words};

use super::{Script, push_text};
use court_clock::{Clock, Day, Instant};
use reason_texts::push_second;
use report_ics::slot_begins;
use report_texts::push_period;
use rule_periods::Period;
use std::alloc::AllocError;
use std::fmt::Write;

/// The seconds of a day.
const DAY: i64 = 86_400;

impl Script {
    /// Adds a day.
    pub(crate) fn day(&mut self, day: Day) -> Result<(), AllocError>
        ensures { OnOk result (AddsValues self.old self.new (day_value day ∷ [])) }
    {
        self.scratch.clear();
        write!(self.scratch, "{day}")?;
        push_text(&mut self.bytes, self.scratch.as_bytes())
    }

    /// Adds a day, if there is one.
    pub(crate) fn day_if_any(&mut self, day: Option<Day>) -> Result<(), AllocError>
        ensures { OnOk result (AddsValues self.old self.new (or_null day_value day ∷ [])) }
    {
        match day {
            Some(day) => self.day(day),
            None => self.null(),
        }
    }

    /// Adds the minute of a day, counted from midnight.
    pub(crate) fn minute(&mut self, minute: u32) -> Result<(), AllocError>
        requires { minute < 10_000 }
        ensures { OnOk result (AddsValues self.old self.new (minute_value minute ∷ [])) }
    {
        self.second(60 * minute)
    }

    /// Adds the second of a day, counted from midnight.
    pub(crate) fn second(&mut self, second: u32) -> Result<(), AllocError>
        ensures { OnOk result (AddsValues self.old self.new (second_value second ∷ [])) }
    {
        self.scratch.clear();
        push_second(&mut self.scratch, second)?;
        push_text(&mut self.bytes, self.scratch.as_bytes())
    }

    /// Adds an instant, in UTC.
    #[tactic(auto, unfolding(crate::specs::Times::instant_value))]
    pub(crate) fn instant(&mut self, instant: Instant) -> Result<(), AllocError>
        ensures { OnOk result (AddsValues self.old self.new (instant_value instant ∷ [])) }
    {
        match Day::new(instant.seconds().div_euclid(DAY) as i32) {
            Some(day) => {
                self.scratch.clear();
                push_instant(&mut self.scratch, day, second_of_utc(instant))?;
                push_text(&mut self.bytes, self.scratch.as_bytes())
            }
            None => self.null(),
        }
    }

    /// Adds the instant at which a slot of a day begins, by the court's clock.
    pub(crate) fn slot(&mut self, clock: &Clock, day: Day, slot: u32) -> Result<(), AllocError>
        requires { slot < 1000 }
        ensures { OnOk result (AddsValues self.old self.new (slot_value clock.now day slot ∷ [])) }
    {
        match slot_begins(clock, day, slot) {
            Some(instant) => self.instant(instant),
            None => self.null(),
        }
    }

    /// Adds a period, in words.
    pub(crate) fn period(&mut self, period: &Period) -> Result<(), AllocError>
        ensures { OnOk result (AddsValues self.old self.new (text (period_words period.now) ∷ [])) }
    {
        self.scratch.clear();
        push_period(&mut self.scratch, period)?;
        push_text(&mut self.bytes, self.scratch.as_bytes())
    }
}

/// Adds a second of a day of UTC, as `2025-09-16 19:00:00+00:00`.
#[tactic(auto, unfolding(crate::specs::Times::utc_words))]
fn push_instant(text: &mut String, day: Day, second: u32) -> Result<(), AllocError>
    ensures { OnOk result (string_bytes text.new ≡ string_bytes text.old ++ utc_words day second) }
{
    write!(text, "{day} ")?;
    push_second(text, second)?;
    text.push_str("+00:00")
}

/// The second of its day of UTC.
fn second_of_utc(instant: Instant) -> u32
    ensures { result ≡ utc_second instant }
{
    instant.seconds().rem_euclid(DAY) as u32
}
