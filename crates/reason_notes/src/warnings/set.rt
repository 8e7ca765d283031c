//! The notes on a day that an order sets.

ghost use Rattle.std.specs.Prelude.{◌≡◌, ◌++◌, OnOk, string_bytes};
ghost use Rattle.reason_notes.specs.Warnings.Notes.{set_before_filing, set_notes, set_on_closed_day};

use court_clock::{Day, Direction};
use court_days::Days;
use reason_texts::push_note;
use std::alloc::AllocError;

/// Adds the notes on a day that an order sets in a case that was filed on that day. `Err` says that memory ran out.
#[tactic(auto, unfolding(crate::specs::Warnings::Notes::set_notes))]
pub(crate) fn push_set_notes(
    text: &mut String,
    days: &Days,
    filed: Day,
    set: Day,
) -> Result<(), AllocError>
    ensures { OnOk result (string_bytes text.new ≡ string_bytes text.old ++ set_notes days.now filed set) }
{
    push_set_before_filing(text, filed, set)?;
    push_set_on_closed_day(text, days, set)
}

/// Adds the note on a day that lies before the filing of the case.
fn push_set_before_filing(text: &mut String, filed: Day, set: Day) -> Result<(), AllocError>
    ensures { OnOk result (string_bytes text.new ≡ string_bytes text.old ++ set_before_filing filed set) }
{
    if set.number() < filed.number() {
        push_note(
            text,
            Some(set),
            "the day set lies before the filing of the case",
            "note",
        )
    } else {
        Ok(())
    }
}

/// Adds the note on a Saturday, a Sunday or a legal holiday, which stays the end.
fn push_set_on_closed_day(text: &mut String, days: &Days, set: Day) -> Result<(), AllocError>
    ensures { OnOk result (string_bytes text.new ≡ string_bytes text.old ++ set_on_closed_day days.now set) }
{
    if days.is_permitted(set, Direction::After) {
        Ok(())
    } else {
        push_note(
            text,
            Some(set),
            "the day set is a Saturday, a Sunday or a holiday",
            "note",
        )
    }
}
