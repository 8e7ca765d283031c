//! The notes on an extension, and on an order that sets another end.

ghost use Rattle.std.specs.Prelude.{◌≡◌, ◌++◌, OnOk, string_bytes};
ghost use Rattle.rule_periods.specs.Words.{EventView, is_asked_in_time};
ghost use Rattle.reason_notes.specs.Warnings.Notes.{asked_late, extension_notes, dated_late_words};

use crate::warnings::end::push_end_notes;
use court_clock::Clock;
use reason_texts::push_note;
use rule_periods::{DeadlineRow, Event, Grant, Request};
use rule6::{Filing, Means, Shown, is_timely};
use std::alloc::AllocError;

/// Adds the notes on an extension: that the end which it gave was past when it was asked for, and those on that end, where the
/// deadline is as it was left. `Err` says that memory ran out.
#[tactic(auto, unfolding(crate::specs::Warnings::Notes::extension_notes))]
pub fn push_extension_notes(
    text: &mut String,
    clock: &Clock,
    row: &DeadlineRow,
    shown: &Shown,
    request: &Request,
) -> Result<(), AllocError>
    ensures { OnOk result (string_bytes text.new ≡ string_bytes text.old ++ extension_notes clock.now row.now shown.now request.now) }
{
    push_asked_late(text, clock, shown, request)?;
    push_end_notes(text, clock, row, shown)
}

/// Adds the note where the end that an extension gave was past when it was asked for.
fn push_asked_late(
    text: &mut String,
    clock: &Clock,
    shown: &Shown,
    request: &Request,
) -> Result<(), AllocError>
    ensures { OnOk result (string_bytes text.new ≡ string_bytes text.old ++ asked_late clock.now shown.now request.now) }
{
    if is_asked_in_time(clock, shown, request.asked) {
        return Ok(());
    }
    push_note(
        text,
        Some(request.asked.day()),
        dated_late_words(request.grant),
        "note",
    )
}

/// That an extension was asked for, or an order made, when the end that it gives was past.
fn dated_late_words(grant: Grant) -> &'static str
    ensures { result.now ≡ dated_late_words grant }
{
    if grant.is_order() {
        "the order is dated after the end that it sets"
    } else {
        "asked for after the end that it gives"
    }
}

/// Whether an electronic filing at that moment would be in time.
fn is_asked_in_time(clock: &Clock, shown: &Shown, asked: Event) -> bool
    ensures { result ≡ is_asked_in_time clock.now shown.now asked }
{
    let filing = Filing {
        day: asked.day(),
        minute: asked.minute(),
        means: Means::Electronic,
    };
    is_timely(clock, shown, filing)
}
