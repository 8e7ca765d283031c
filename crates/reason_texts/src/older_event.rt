//! The line that says of an event that it lies before the day from which its period is right as it is applied.

ghost use Rattle.std.specs.Prelude.{◌≡◌, ◌++◌, OnOk, string_bytes};
ghost use Rattle.reason_texts.specs.OlderEvent.{line_before, line_if_older, older_line, older_text};
ghost use Rattle.reason_texts.specs.Spaces.{padded};

use crate::day::push_day;
use crate::spaces::{WIDTH, push_spaces};
use court_clock::Day;
use deadline_reasons::Reason;
use std::alloc::AllocError;
use std::fmt::Write;

/// Adds the line where the reason has the day of the event, and that day is an older one.
pub(crate) fn push_line_before(
    text: &mut String,
    from: Day,
    reason: &Reason,
) -> Result<(), AllocError>
    ensures { OnOk result (string_bytes text.new ≡ string_bytes text.old ++ line_before from reason.now) }
{
    match *reason {
        Reason::Excluded(event) => push_if_older(text, event, from),
        _ => Ok(()),
    }
}

/// Adds the line where the event lies before the day from which its period is right.
fn push_if_older(text: &mut String, event: Day, from: Day) -> Result<(), AllocError>
    ensures { OnOk result (string_bytes text.new ≡ string_bytes text.old ++ line_if_older event from) }
{
    if event.number() < from.number() {
        return push_older(text, event, from);
    }
    Ok(())
}

/// Adds the line: the day of the event, the day from which its period is right, and `ours`.
#[tactic(auto, unfolding(crate::specs::OlderEvent::older_line))]
fn push_older(text: &mut String, event: Day, from: Day) -> Result<(), AllocError>
    ensures { OnOk result (string_bytes text.new ≡ string_bytes text.old ++ older_line event from) }
{
    text.push_str("  ")?;
    push_day(text, Some(event))?;
    text.push_str("  ")?;
    push_words(text, from)?;
    text.push_str("  ours")?;
    text.push_str("\n")
}

/// Adds the words, and spaces up to the next column.
#[tactic(auto, using(crate::proofs::SpacesLemmas::length_behind))]
fn push_words(text: &mut String, from: Day) -> Result<(), AllocError>
    ensures { OnOk result (string_bytes text.new ≡ string_bytes text.old ++ padded (older_text from)) }
{
    let before = text.len();
    push_older_text(text, from)?;
    let wide = text.len() - before;
    push_spaces(text, WIDTH.saturating_sub(wide))
}

/// Adds the words.
fn push_older_text(text: &mut String, from: Day) -> Result<(), AllocError>
    ensures { OnOk result (string_bytes text.new ≡ string_bytes text.old ++ older_text from) }
{
    write!(text, "the rule as it reads from {from} is applied")
}
