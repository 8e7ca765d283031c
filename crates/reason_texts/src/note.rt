//! A line beside the reasons.

ghost use Rattle.std.specs.Prelude.{◌≡◌, ◌++◌, OnOk, string_bytes};
ghost use Rattle.reason_texts.specs.Note.{note_line};
ghost use Rattle.reason_texts.specs.Spaces.{padded};

use crate::day::push_day;
use crate::spaces::{WIDTH, push_spaces};
use court_clock::Day;
use std::alloc::AllocError;

/// Adds a line in the columns of reasons: two spaces, the weekday and the date, what is said, and the section of the
/// Federal Rules of Civil Procedure by which it goes. `Err` says that memory ran out.
#[tactic(auto, unfolding(crate::specs::Note::note_line))]
pub fn push_note(
    text: &mut String,
    day: Option<Day>,
    what: &str,
    section: &str,
) -> Result<(), AllocError>
    ensures { OnOk result (string_bytes text.new ≡ string_bytes text.old ++ note_line day what.now section.now) }
{
    text.push_str("  ")?;
    push_day(text, day)?;
    text.push_str("  ")?;
    push_padded(text, what)?;
    text.push_str("  ")?;
    text.push_str(section)?;
    text.push_str("\n")
}

/// Adds what is said, and spaces up to the next column.
fn push_padded(text: &mut String, what: &str) -> Result<(), AllocError>
    ensures { OnOk result (string_bytes text.new ≡ string_bytes text.old ++ padded what.now) }
{
    text.push_str(what)?;
    push_spaces(text, WIDTH.saturating_sub(what.len()))
}
