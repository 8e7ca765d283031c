//! The lines of other readings.

ghost use Rattle.std.specs.Prelude.{◌≡◌, ◌++◌, OnOk, string_bytes};
ghost use Rattle.std.specs.List.{flat_map};
ghost use Rattle.reason_notes.specs.Readings.Lines.{given_text, line_of, reading_line, reading_lines, reading_text, reading_words};

use crate::margins::{end_day, push_end_time};
use crate::readings::by_reading::DaysByReading;
use crate::readings::others::other_by;
use crate::readings::reading::{ALL, Reading};
use court_clock::Clock;
use reason_texts::push_note;
use rule_periods::DeadlineRow;
use rule6::Shown;
use std::alloc::{AllocError, Global};

/// Adds a line for each other reading that gives another end than the one that is shown of the deadline.
/// `Err` says that memory ran out.
#[tactic(auto, unfolding(crate::specs::Readings::Lines::reading_lines))]
pub fn push_readings(
    alloc: Global,
    text: &mut String,
    days: &DaysByReading,
    clock: &Clock,
    row: &DeadlineRow,
) -> Result<(), AllocError>
    ensures { OnOk result (string_bytes text.new ≡ string_bytes text.old ++ reading_lines days.now clock.now row.now) }
{
    push_each(alloc, text, days, clock, row, &ALL[..])
}

/// Adds a line for each of these readings that gives another end.
fn push_each(
    alloc: Global,
    text: &mut String,
    days: &DaysByReading,
    clock: &Clock,
    row: &DeadlineRow,
    readings: &[Reading],
) -> Result<(), AllocError>
    ensures { OnOk result (string_bytes text.new ≡ string_bytes text.old ++ flat_map (reading_line days.now clock.now row.now) readings.now) }
{
    for reading in readings {
        let other = other_by(alloc, days, clock, row, *reading)?;
        push_line(alloc, text, clock, *reading, other)?;
    }
    Ok(())
}

/// Adds the line of a reading that gives this end.
fn push_line(
    alloc: Global,
    text: &mut String,
    clock: &Clock,
    reading: Reading,
    other: Option<Shown>,
) -> Result<(), AllocError>
    ensures { OnOk result (string_bytes text.new ≡ string_bytes text.old ++ line_of clock.now reading other) }
{
    match other {
        Some(other) => {
            let mut what = String::new(alloc);
            push_words(&mut what, clock, reading, &other)?;
            push_note(text, end_day(clock, &other), what.as_str(), "ours")
        }
        None => Ok(()),
    }
}

/// Adds what the reading is, and the end that it gives.
#[tactic(auto, unfolding(crate::specs::Readings::Lines::reading_text))]
fn push_words(
    text: &mut String,
    clock: &Clock,
    reading: Reading,
    other: &Shown,
) -> Result<(), AllocError>
    ensures { OnOk result (string_bytes text.new ≡ string_bytes text.old ++ reading_text clock.now reading other.now) }
{
    text.push_str(reading_words(reading))?;
    push_given(text, clock, other)
}

/// Adds an end but for its day.
fn push_given(text: &mut String, clock: &Clock, other: &Shown) -> Result<(), AllocError>
    ensures { OnOk result (string_bytes text.new ≡ string_bytes text.old ++ given_text clock.now other.now) }
{
    match *other {
        Shown::Beyond => text.push_str(", beyond"),
        Shown::Last { .. } => Ok(()),
        Shown::Until(_) => push_end_time(text, clock, other),
    }
}

/// What a reading is.
fn reading_words(reading: Reading) -> &'static str
    ensures { result.now ≡ reading_words reading }
{
    match reading {
        Reading::OutageMovesNothing => "other reading: the outage moves nothing",
        Reading::OutageMovesService => "other reading: outages move service too",
        Reading::ExtendedFromMovedDay => "other reading: extended from the moved day",
        Reading::OutageBeforeAddedDays => "other reading: moved before the 3 days too",
        Reading::HoursFromEndOfDay => "other reading: from the end of that day",
        Reading::FridayIsOpen => "other reading: that Friday isn't a legal holiday",
        Reading::DoubtfulIsOpen => "other reading: that day isn't a legal holiday",
    }
}
