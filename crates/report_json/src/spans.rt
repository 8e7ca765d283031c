//! When hearings begin and end.

ghost use Rattle.std.specs.Prelude.{[], ◌∷◌, OnOk};
ghost use Rattle.report_json.specs.Times.{slot_value, span_fields};
ghost use Rattle.report_json.specs.Values.{AddsFields, AddsValue, field};

use crate::writer::JsonWriter;
use court_clock::{Clock, Day};
use court_days::Court;
use report_texts::Labels;
use std::alloc::AllocError;

/// Writes the span of a hearing, of `count` slots from the first on. `Err` says that memory ran out.
#[tactic(auto, unfolding(crate::specs::Times::span_fields))]
pub(crate) fn push_span(
    out: &mut JsonWriter,
    court: &Court,
    labels: &Labels<'_>,
    day: Day,
    first: u8,
    count: u8,
) -> Result<(), AllocError>
    ensures { OnOk result (AddsFields out.old out.new (span_fields court.now.clock.zone day first count)) }
{
    let start = u16::from(first);
    let slots = u16::from(count);
    out.field(court, labels, "day", &day)?;
    out.minute_field("time", 15 * start)?;
    out.field(court, labels, "minutes", &(15 * u32::from(count)))?;
    slot_field(out, court.clock(), "start", day, start)?;
    slot_field(out, court.clock(), "end", day, start + slots)
}

/// Writes when a slot of a day begins: slot s begins at minute 15·s, and slot 96 is the first of the next day.
#[tactic(auto, unfolding(crate::specs::Values::field_tokens))]
fn slot_field(
    out: &mut JsonWriter,
    clock: &Clock,
    name: &str,
    day: Day,
    slot: u16,
) -> Result<(), AllocError>
    ensures { OnOk result (AddsFields out.old out.new (field name.now (slot_value clock.now.zone day slot) ∷ [])) }
{
    out.key(name)?;
    push_slot(out, clock, day, slot)
}

#[tactic(auto, unfolding(crate::specs::Times::slot_value))]
fn push_slot(out: &mut JsonWriter, clock: &Clock, day: Day, slot: u16) -> Result<(), AllocError>
    ensures { OnOk result (AddsValue out.old out.new (slot_value clock.now.zone day slot)) }
{
    match Day::new(day.number() + i32::from(slot / 96)) {
        Some(day) => out.moment(clock, day, 900 * u32::from(slot % 96)),
        None => out.null(),
    }
}
