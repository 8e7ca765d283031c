//! When hearings begin and end.

ghost use Rattle.std.specs.Prelude.{◌≡◌, ◌<◌, OnOk};
ghost use Rattle.office_texts.specs.Words.{AddsText};
ghost use Rattle.report_ics.specs.Times.{slot_begins, utc_if_any};

use content_lines::push_utc;
use court_clock::{Clock, Day, Instant};
use std::alloc::AllocError;

/// Adds the instant at which a slot of a day begins, by the court's clock. `room` is a place to work in.
pub(crate) fn push_slot(
    text: &mut String,
    room: &mut String,
    clock: &Clock,
    day: Day,
    slot: u32,
) -> Result<(), AllocError>
    requires { slot < 1000 }
    ensures { OnOk result (AddsText text.old text.new (utc_if_any (slot_begins clock.now day slot))) }
{
    match slot_begins(clock, day, slot) {
        Some(instant) => push_utc(text, room, instant),
        None => Ok(()),
    }
}

/// The instant at which a slot of a day begins, by the court's clock. None past the last of all days.
#[tactic(auto, unfolding(crate::specs::Times::slot_begins))]
pub fn slot_begins(clock: &Clock, day: Day, slot: u32) -> Option<Instant>
    requires { slot < 1000 }
    ensures { result ≡ slot_begins clock.now day slot }
{
    let on = Day::new(day.number() + (slot / 96) as i32)?;
    Some(clock.instant_of(on, 900 * (slot % 96)))
}
