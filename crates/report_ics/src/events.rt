//! An event of a calendar.

ghost use Rattle.std.specs.Prelude.{◌≡◌, ◌<◌, ◌+ℤ◌, pos, OnOk, codes};
ghost use Rattle.content_lines.specs.Words.{date_digits, property, sent, sent_line, utc_text};
ghost use Rattle.office_texts.specs.Words.{AddsText};
ghost use Rattle.report_ics.specs.Times.{slot_begins, utc_if_any};
ghost use Rattle.report_ics.specs.Events.{begin_lines, day_lines, end_lines, event_lines, instant_lines, kind_words, sequence_lines, span_lines, status_lines, time_lines, uid};

use crate::appointment::Appointment;
use crate::times::push_slot;
use crate::words::push_words;
use content_lines::{push_date, push_property, push_utc};
use court_clock::{Clock, Day, Instant};
use court_days::Court;
use docket_rows::Hearing;
use docket_selection::{DueItem, Matter};
use office_texts::push_number;
use report_texts::Labels;
use rule6::Shown;
use std::alloc::AllocError;

/// Adds the lines of an event. `line` and `value` are places to work in.
pub(crate) fn push_event(
    text: &mut String,
    line: &mut String,
    value: &mut String,
    court: &Court,
    labels: &Labels<'_>,
    stamp: Instant,
    appointment: &Appointment,
) -> Result<(), AllocError>
    ensures { OnOk result (AddsText text.old text.new (sent (event_lines court.now labels.now stamp appointment.now))) }
{
    let item = &appointment.item;
    push_begin(text, line, value, stamp, item)?;
    push_sequence(text, line, value, appointment.revision)?;
    push_status(text, line, appointment.cancelled)?;
    push_times(text, line, value, court.clock(), item.day, &item.matter)?;
    push_words(text, line, value, court, labels, appointment)?;
    push_property(text, line, "END", "VEVENT")?;
    Ok(())
}

/// Adds how an event begins: by what a calendar program knows it, and when it was written.
#[tactic(auto, unfolding(crate::specs::Events::begin_lines))]
fn push_begin(
    text: &mut String,
    line: &mut String,
    value: &mut String,
    stamp: Instant,
    item: &DueItem,
) -> Result<(), AllocError>
    ensures { OnOk result (AddsText text.old text.new (sent (begin_lines stamp item.now))) }
{
    push_property(text, line, "BEGIN", "VEVENT")?;
    push_uid(text, line, value, item)?;
    push_instant(text, line, value, "DTSTAMP", stamp)?;
    push_instant(text, line, value, "LAST-MODIFIED", stamp)
}

/// Adds what a calendar program knows an event by.
#[tactic(auto, unfolding(crate::specs::Events::uid))]
fn push_uid(
    text: &mut String,
    line: &mut String,
    value: &mut String,
    item: &DueItem,
) -> Result<(), AllocError>
    ensures { OnOk result (AddsText text.old text.new (sent_line (property (codes "UID") (uid item.now)))) }
{
    value.clear();
    value.push_str("case-")?;
    push_number(value, u64::from(item.case))?;
    value.push_str(kind_words(&item.matter))?;
    push_number(value, u64::from(item.number))?;
    value.push_str("@jerghuma")?;
    push_property(text, line, "UID", value.as_str())
}

fn kind_words(matter: &Matter) -> &'static str
    ensures { result.now ≡ kind_words matter.now }
{
    match matter {
        Matter::Deadline(_) => "-deadline-",
        Matter::Hearing(_) => "-motion-",
    }
}

/// Adds a property that is an instant.
fn push_instant(
    text: &mut String,
    line: &mut String,
    value: &mut String,
    name: &str,
    instant: Instant,
) -> Result<(), AllocError>
    ensures { OnOk result (AddsText text.old text.new (sent_line (property name.now (utc_text instant)))) }
{
    value.clear();
    push_utc(value, line, instant)?;
    push_property(text, line, name, value.as_str())
}

/// Adds a property that is a day.
fn push_day(
    text: &mut String,
    line: &mut String,
    value: &mut String,
    name: &str,
    number: i32,
) -> Result<(), AllocError>
    ensures { OnOk result (AddsText text.old text.new (sent_line (property name.now (date_digits number)))) }
{
    value.clear();
    push_date(value, line, number)?;
    push_property(text, line, name, value.as_str())
}

/// Adds the number by which a calendar program takes an event over an earlier one.
fn push_sequence(
    text: &mut String,
    line: &mut String,
    value: &mut String,
    revision: u64,
) -> Result<(), AllocError>
    ensures { OnOk result (AddsText text.old text.new (sent (sequence_lines revision))) }
{
    value.clear();
    push_number(value, revision)?;
    push_property(text, line, "SEQUENCE", value.as_str())
}

/// Adds that the event is off, if it is.
fn push_status(text: &mut String, line: &mut String, cancelled: bool) -> Result<(), AllocError>
    ensures { OnOk result (AddsText text.old text.new (sent (status_lines cancelled))) }
{
    if cancelled {
        push_property(text, line, "STATUS", "CANCELLED")
    } else {
        Ok(())
    }
}

/// Adds when an event is.
fn push_times(
    text: &mut String,
    line: &mut String,
    value: &mut String,
    clock: &Clock,
    day: Day,
    matter: &Matter,
) -> Result<(), AllocError>
    ensures { OnOk result (AddsText text.old text.new (sent (time_lines clock.now day matter.now))) }
{
    match matter {
        Matter::Deadline(due) => push_end(text, line, value, day, &due.shown),
        Matter::Hearing(set) => push_span(text, line, value, clock, &set.hearing),
    }
}

/// Adds the last day of a deadline, or the instant at which its hours end.
fn push_end(
    text: &mut String,
    line: &mut String,
    value: &mut String,
    day: Day,
    shown: &Shown,
) -> Result<(), AllocError>
    ensures { OnOk result (AddsText text.old text.new (sent (end_lines day shown.now))) }
{
    match *shown {
        Shown::Until(end) => push_at(text, line, value, end),
        _ => push_whole_day(text, line, value, day),
    }
}

/// Adds an instant.
#[tactic(auto, unfolding(crate::specs::Events::instant_lines))]
fn push_at(
    text: &mut String,
    line: &mut String,
    value: &mut String,
    end: Instant,
) -> Result<(), AllocError>
    ensures { OnOk result (AddsText text.old text.new (sent (instant_lines end))) }
{
    push_instant(text, line, value, "DTSTART", end)?;
    push_property(text, line, "TRANSP", "TRANSPARENT")
}

/// Adds a day as a whole.
fn push_whole_day(
    text: &mut String,
    line: &mut String,
    value: &mut String,
    day: Day,
) -> Result<(), AllocError>
    ensures { OnOk result (AddsText text.old text.new (sent (day_lines day))) }
{
    push_first_day(text, line, value, day)?;
    push_next_day(text, line, value, day)?;
    push_property(text, line, "TRANSP", "TRANSPARENT")?;
    Ok(())
}

/// Adds that an event begins with a day.
fn push_first_day(
    text: &mut String,
    line: &mut String,
    value: &mut String,
    day: Day,
) -> Result<(), AllocError>
    ensures { OnOk result (AddsText text.old text.new (sent_line (property (codes "DTSTART;VALUE=DATE") (date_digits day)))) }
{
    push_day(text, line, value, "DTSTART;VALUE=DATE", day.number())
}

/// Adds that an event ends before the day after.
fn push_next_day(
    text: &mut String,
    line: &mut String,
    value: &mut String,
    day: Day,
) -> Result<(), AllocError>
    ensures { OnOk result (AddsText text.old text.new (sent_line (property (codes "DTEND;VALUE=DATE") (date_digits (day +ℤ pos 1))))) }
{
    push_day(text, line, value, "DTEND;VALUE=DATE", next_number(day))
}

/// The number of the day after.
fn next_number(day: Day) -> i32
    ensures { result ≡ day +ℤ pos 1 }
{
    day.number() + 1
}

/// Adds from when to when a hearing is.
#[tactic(auto, unfolding(crate::specs::Events::span_lines))]
fn push_span(
    text: &mut String,
    line: &mut String,
    value: &mut String,
    clock: &Clock,
    hearing: &Hearing,
) -> Result<(), AllocError>
    ensures { OnOk result (AddsText text.old text.new (sent (span_lines clock.now hearing.now))) }
{
    let (first, count) = (u32::from(hearing.first), u32::from(hearing.count));
    push_begin_of(text, line, value, clock, "DTSTART", hearing.day, first)?;
    push_begin_of(
        text,
        line,
        value,
        clock,
        "DTEND",
        hearing.day,
        first + count,
    )
}

/// Adds a property that is when a slot begins.
fn push_begin_of(
    text: &mut String,
    line: &mut String,
    value: &mut String,
    clock: &Clock,
    name: &str,
    day: Day,
    slot: u32,
) -> Result<(), AllocError>
    requires { slot < 1000 }
    ensures { OnOk result (AddsText text.old text.new (sent_line (property name.now (utc_if_any (slot_begins clock.now day slot))))) }
{
    value.clear();
    push_slot(value, line, clock, day, slot)?;
    push_property(text, line, name, value.as_str())
}
