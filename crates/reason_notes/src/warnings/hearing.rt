//! The notes on a hearing.

ghost use Rattle.std.specs.Prelude.{◌≡◌, ◌++◌, OnOk, string_bytes};
ghost use Rattle.reason_notes.specs.Warnings.Notes.{hearing_notes};

use court_clock::Day;
use court_days::Days;
use reason_texts::push_note;
use std::alloc::AllocError;

/// Adds a note where the clerk's office was inaccessible on the day of a hearing. `Err` says that memory ran out.
#[tactic(auto, unfolding(crate::specs::Warnings::Notes::hearing_notes))]
pub fn push_hearing_notes(text: &mut String, days: &Days, day: Day) -> Result<(), AllocError>
    ensures { OnOk result (string_bytes text.new ≡ string_bytes text.old ++ hearing_notes days.now day) }
{
    if days.has_outage(day) {
        push_note(
            text,
            Some(day),
            "the clerk's office was inaccessible on this day",
            "note",
        )
    } else {
        Ok(())
    }
}
