//! The notes on an event.

ghost use Rattle.std.specs.Prelude.{◌≡◌, ◌++◌, Some, OnOk, string_bytes};
ghost use Rattle.court_clock.specs.Words.{day_text};
ghost use Rattle.reason_notes.specs.Warnings.Notes.{before_filing, before_rule, far_from, far_if_open, note, second_before_filing, second_far_from};

use court_clock::Day;
use reason_texts::push_note;
use rule_periods::DeadlineRow;
use std::alloc::{AllocError, Global};

/// Adds the note on an event that lies before the day on which the case was filed. `Err` says that memory ran
/// out.
pub(crate) fn push_before_filing(
    text: &mut String,
    filed: Day,
    event: Day,
) -> Result<(), AllocError>
    ensures { OnOk result (string_bytes text.new ≡ string_bytes text.old ++ before_filing filed event) }
{
    if event.number() < filed.number() {
        push_note(
            text,
            Some(event),
            "the event lies before the filing of the case",
            "note",
        )
    } else {
        Ok(())
    }
}

/// Adds the same of the second event, where a period has one.
pub(crate) fn push_second_before_filing(
    text: &mut String,
    filed: Day,
    second: Option<Day>,
) -> Result<(), AllocError>
    ensures { OnOk result (string_bytes text.new ≡ string_bytes text.old ++ second_before_filing filed second) }
{
    match second {
        Some(event) => push_before_filing(text, filed, event),
        None => Ok(()),
    }
}

/// Adds the notes on events that lie a year or more from the day that counts as today, where one does and no act is recorded.
pub(crate) fn push_far_if_open(
    alloc: Global,
    text: &mut String,
    today: Option<Day>,
    row: &DeadlineRow,
) -> Result<(), AllocError>
    ensures { OnOk result (string_bytes text.new ≡ string_bytes text.old ++ far_if_open today row.now.filed row.now) }
{
    match (today, row.filed()) {
        (Some(today), None) => {
            push_far(alloc, text, today, row.event().day())?;
            push_second_far(alloc, text, today, row.second())
        }
        _ => Ok(()),
    }
}

/// Adds the same of the second event, where a period has one.
fn push_second_far(
    alloc: Global,
    text: &mut String,
    today: Day,
    second: Option<Day>,
) -> Result<(), AllocError>
    ensures { OnOk result (string_bytes text.new ≡ string_bytes text.old ++ second_far_from today second) }
{
    match second {
        Some(event) => push_far(alloc, text, today, event),
        None => Ok(()),
    }
}

/// Adds the note on an event that lies 365 days or more from the day that counts as today.
#[tactic(auto, unfolding(crate::specs::Warnings::Notes::far_from))]
fn push_far(alloc: Global, text: &mut String, today: Day, event: Day) -> Result<(), AllocError>
    ensures { OnOk result (string_bytes text.new ≡ string_bytes text.old ++ far_from today event) }
{
    if event.number() + 365 <= today.number() {
        return push_far_words(
            alloc,
            text,
            today,
            event,
            "the event lies a year or more before ",
        );
    }
    if today.number() + 365 <= event.number() {
        return push_far_words(
            alloc,
            text,
            today,
            event,
            "the event lies a year or more after ",
        );
    }
    Ok(())
}

/// Adds the line of an event with these words and the day that counts as today.
fn push_far_words(
    alloc: Global,
    text: &mut String,
    today: Day,
    event: Day,
    words: &str,
) -> Result<(), AllocError>
    ensures { OnOk result (string_bytes text.new ≡ string_bytes text.old ++ note (Some event) (words.now ++ day_text today)) }
{
    let what = format!(in alloc; "{words}{today}")?;
    push_note(text, Some(event), what.as_str(), "note")
}

/// Adds the note on a period that runs from a day before the one from which it is right as it is applied.
pub(crate) fn push_before_rule(
    text: &mut String,
    start: Day,
    right_from: Day,
) -> Result<(), AllocError>
    ensures { OnOk result (string_bytes text.new ≡ string_bytes text.old ++ before_rule start right_from) }
{
    if start.number() < right_from.number() {
        push_note(
            text,
            Some(start),
            "the event lies before the rule that is applied",
            "note",
        )
    } else {
        Ok(())
    }
}
