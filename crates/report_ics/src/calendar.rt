//! A calendar, as the text that is sent.

ghost use Rattle.std.specs.Prelude.{◌≡◌, string_bytes, IfOk, OnOk};
ghost use Rattle.std.specs.List.{flat_map};
ghost use Rattle.content_lines.specs.Words.{sent, HasShortLines};
ghost use Rattle.office_texts.specs.Words.{AddsText};
ghost use Rattle.report_ics.specs.Calendar.{head_lines, icalendar_text};
ghost use Rattle.report_ics.specs.Events.{event_lines};

use crate::appointment::Appointment;
use crate::events::push_event;
use content_lines::push_property;
use court_clock::Instant;
use court_days::Court;
use report_texts::Labels;
use std::alloc::{AllocError, Global};

/// The appointments as a calendar. `labels` has what cases, deadlines and motions are called, and `stamp` is when it is written, for
/// each event. `Err` says that memory ran out.
pub fn icalendar(
    alloc: Global,
    court: &Court,
    labels: &Labels<'_>,
    stamp: Instant,
    appointments: &[Appointment],
) -> Result<String, AllocError>
    ensures text { IfOk result (λ text. string_bytes text ≡ icalendar_text court.now labels.now stamp appointments.now) }
    ensures short { IfOk result (λ text. HasShortLines (string_bytes text)) }
{
    let mut text = String::new(alloc);
    push_icalendar(alloc, &mut text, court, labels, stamp, appointments)?;
    let _text = text.as_str();
    Ok(text)
}

/// Adds the appointments as a calendar.
fn push_icalendar(
    alloc: Global,
    text: &mut String,
    court: &Court,
    labels: &Labels<'_>,
    stamp: Instant,
    appointments: &[Appointment],
) -> Result<(), AllocError>
    ensures { OnOk result (AddsText text.old text.new (icalendar_text court.now labels.now stamp appointments.now)) }
{
    let mut line = String::new(alloc);
    let mut value = String::new(alloc);
    push_head(text, &mut line)?;
    push_events(
        text,
        &mut line,
        &mut value,
        court,
        labels,
        stamp,
        appointments,
    )?;
    push_property(text, &mut line, "END", "VCALENDAR")?;
    Ok(())
}

/// Adds how a calendar begins.
fn push_head(text: &mut String, line: &mut String) -> Result<(), AllocError>
    ensures { OnOk result (AddsText text.old text.new (sent head_lines)) }
{
    push_property(text, line, "BEGIN", "VCALENDAR")?;
    push_property(text, line, "VERSION", "2.0")?;
    push_property(text, line, "PRODID", "-//Jerghuma//docket//EN")?;
    Ok(())
}

/// Adds an event for each appointment.
fn push_events(
    text: &mut String,
    line: &mut String,
    value: &mut String,
    court: &Court,
    labels: &Labels<'_>,
    stamp: Instant,
    appointments: &[Appointment],
) -> Result<(), AllocError>
    ensures { OnOk result (AddsText text.old text.new (sent (flat_map (event_lines court.now labels.now stamp) appointments.now))) }
{
    for appointment in appointments {
        push_event(text, line, value, court, labels, stamp, appointment)?;
    }
    Ok(())
}
