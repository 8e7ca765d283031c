//! The end of a deadline by another reading of the Rules.

ghost use Rattle.std.specs.Prelude.{◌≡◌, OnOk};
ghost use Rattle.office_texts.specs.Words.{AddsText};
ghost use Rattle.court_clock.specs.Words.{civil_of, day_text};
ghost use Rattle.report_texts.specs.Other.{given_words, instant_words, other_words, reading_front, reading_words};

use court_clock::{Clock, Day, Instant};
use reason_texts::push_second;
use rule6::Shown;
use std::alloc::AllocError;
use std::fmt::Write;

/// Adds what is said of an end by another reading, if there is one.
pub(crate) fn push_other(
    text: &mut String,
    clock: &Clock,
    other: Option<Shown>,
) -> Result<(), AllocError>
    ensures { OnOk result (AddsText text.old text.new (other_words clock.now other)) }
{
    match other {
        Some(other) => {
            text.push_str(", ")?;
            push_reading(text, clock, &other)
        }
        None => Ok(()),
    }
}

/// Adds that another reading gives this end. `Err` says that memory ran out.
#[tactic(auto, unfolding(crate::specs::Other::reading_words))]
pub fn push_reading(text: &mut String, clock: &Clock, other: &Shown) -> Result<(), AllocError>
    ensures { OnOk result (AddsText text.old text.new (reading_words clock.now other.now)) }
{
    push_reading_front(text)?;
    push_given(text, clock, other)
}

#[tactic(auto, unfolding(crate::specs::Other::reading_front))]
fn push_reading_front(text: &mut String) -> Result<(), AllocError>
    ensures { OnOk result (AddsText text.old text.new reading_front) }
{
    text.push_str("other reading ")
}

/// Adds the last day or the instant that another reading gives, or that no covered day ends the time. `Err` says that memory ran out.
pub fn push_given(text: &mut String, clock: &Clock, other: &Shown) -> Result<(), AllocError>
    ensures { OnOk result (AddsText text.old text.new (given_words clock.now other.now)) }
{
    match *other {
        Shown::Last { day, .. } => push_date(text, day),
        Shown::Until(end) => push_instant(text, clock, end),
        Shown::Beyond => text.push_str("beyond"),
    }
}

/// Adds a date.
fn push_date(text: &mut String, day: Day) -> Result<(), AllocError>
    ensures { OnOk result (AddsText text.old text.new (day_text day)) }
{
    write!(text, "{day}")
}

/// Adds an instant, as the court's clock shows it.
fn push_instant(text: &mut String, clock: &Clock, end: Instant) -> Result<(), AllocError>
    ensures { OnOk result (AddsText text.old text.new (instant_words (civil_of clock.now.zone end))) }
{
    match clock.civil_of(end) {
        Some((day, second)) => {
            write!(text, "{day} ")?;
            push_second(text, second)
        }
        None => text.push_str("beyond"),
    }
}
