//! The words of an event.

ghost use Rattle.std.specs.Prelude.{◌++◌, OnOk, codes};
ghost use Rattle.reason_texts.specs.Words.{second_time};
ghost use Rattle.content_lines.specs.Words.{property, sent, sent_line};
ghost use Rattle.office_texts.specs.Words.{AddsText};
ghost use Rattle.report_ics.specs.Events.{affidavits_back, affidavits_front, affidavits_words, closing_words, day_words, deadline_words, described, description, end_words, hearing_words, lost_words, midnight_words, minute_front, notice_front, paper_words, place_lines, reading_front, reading_words, rule_front, rule_period_words, summary, until_back, until_front, word_lines};

use crate::appointment::Appointment;
use crate::summary::push_summary;
use content_lines::push_property;
use court_clock::{Clock, Day};
use court_days::Court;
use docket_rows::SheetHearing;
use docket_selection::{DueDeadline, Matter};
use office_texts::room_name;
use reason_texts::{event_words, push_minute, push_second, rule_section, rule_words};
use report_texts::{Labels, push_given, push_period};
use rule_periods::{Period, RulePeriod};
use rule6::{Act, Means, Shown, day_end};
use std::alloc::AllocError;
use std::fmt::Write;

/// Adds what an event says. `line` and `value` are places to work in.
#[tactic(auto, unfolding(crate::specs::Events::word_lines))]
pub(crate) fn push_words(
    text: &mut String,
    line: &mut String,
    value: &mut String,
    court: &Court,
    labels: &Labels<'_>,
    appointment: &Appointment,
) -> Result<(), AllocError>
    ensures { OnOk result (AddsText text.old text.new (sent (word_lines court.now labels.now appointment.now))) }
{
    let item = &appointment.item;
    push_name(text, line, value, court, labels, appointment)?;
    push_place(text, line, value, court, &item.matter)?;
    push_details(text, line, value, court.clock(), item.second, &item.matter)
}

/// Adds what an event is called.
fn push_name(
    text: &mut String,
    line: &mut String,
    value: &mut String,
    court: &Court,
    labels: &Labels<'_>,
    appointment: &Appointment,
) -> Result<(), AllocError>
    ensures { OnOk result (AddsText text.old text.new (sent_line (property (codes "SUMMARY") (summary court.now labels.now appointment.now)))) }
{
    value.clear();
    push_summary(value, court, labels, appointment)?;
    push_property(text, line, "SUMMARY", value.as_str())
}

/// Adds what the docket says of an event besides.
fn push_details(
    text: &mut String,
    line: &mut String,
    value: &mut String,
    clock: &Clock,
    second: u32,
    matter: &Matter,
) -> Result<(), AllocError>
    ensures { OnOk result (AddsText text.old text.new (sent_line (property (codes "DESCRIPTION") (description clock.now second matter.now)))) }
{
    value.clear();
    push_description(value, clock, second, matter)?;
    push_property(text, line, "DESCRIPTION", value.as_str())
}

/// Adds the room of a hearing.
fn push_place(
    text: &mut String,
    line: &mut String,
    value: &mut String,
    court: &Court,
    matter: &Matter,
) -> Result<(), AllocError>
    ensures { OnOk result (AddsText text.old text.new (sent (place_lines court.now matter.now))) }
{
    match matter {
        Matter::Deadline(_) => Ok(()),
        Matter::Hearing(set) => {
            value.clear();
            value.push_str("Room ")?;
            value.push_str(room_name(court, set.hearing.room))?;
            push_property(text, line, "LOCATION", value.as_str())
        }
    }
}

/// Adds what the docket says besides.
fn push_description(
    value: &mut String,
    clock: &Clock,
    second: u32,
    matter: &Matter,
) -> Result<(), AllocError>
    ensures { OnOk result (AddsText value.old value.new (description clock.now second matter.now)) }
{
    match matter {
        Matter::Deadline(due) => push_deadline(value, clock, second, due),
        Matter::Hearing(set) => push_hearing(value, set),
    }
}

/// Adds when the notice of a hearing was served, and until when an opposing affidavit can be.
#[tactic(auto, unfolding(crate::specs::Events::hearing_words))]
fn push_hearing(value: &mut String, set: &SheetHearing) -> Result<(), AllocError>
    ensures { OnOk result (AddsText value.old value.new (hearing_words set.now)) }
{
    let notice = set.hearing.notice;
    push_notice_front(value)?;
    write!(value, "{notice}.")?;
    push_affidavits(value, set.affidavits)
}

#[tactic(auto, unfolding(crate::specs::Events::notice_front))]
fn push_notice_front(value: &mut String) -> Result<(), AllocError>
    ensures { OnOk result (AddsText value.old value.new notice_front) }
{
    value.push_str("Notice of the hearing was served on ")
}

fn push_affidavits(value: &mut String, day: Option<Day>) -> Result<(), AllocError>
    ensures { OnOk result (AddsText value.old value.new (affidavits_words day)) }
{
    match day {
        Some(day) => {
            push_affidavits_front(value)?;
            write!(value, "{day}")?;
            push_affidavits_back(value)
        }
        None => Ok(()),
    }
}

#[tactic(auto, unfolding(crate::specs::Events::affidavits_front))]
fn push_affidavits_front(value: &mut String) -> Result<(), AllocError>
    ensures { OnOk result (AddsText value.old value.new affidavits_front) }
{
    value.push_str("\nThe last day to serve an opposing affidavit is ")
}

#[tactic(auto, unfolding(crate::specs::Events::affidavits_back))]
fn push_affidavits_back(value: &mut String) -> Result<(), AllocError>
    ensures { OnOk result (AddsText value.old value.new affidavits_back) }
{
    value.push_str(" (Fed. R. Civ. P. 6(c)(2)).")
}

/// Adds the period of a deadline, and when its time ends.
#[tactic(auto, unfolding(crate::specs::Events::deadline_words))]
fn push_deadline(
    value: &mut String,
    clock: &Clock,
    second: u32,
    due: &DueDeadline,
) -> Result<(), AllocError>
    ensures { OnOk result (AddsText value.old value.new (deadline_words clock.now second due.now)) }
{
    value.push_str("Period: ")?;
    push_described(value, &due.period)?;
    value.push_str(".\n")?;
    push_end(value, clock, second, &due.shown)?;
    value.push_str(".")?;
    push_reading(value, clock, due.other)
}

/// Adds when the time of a deadline ends by another reading, if one gives another end.
fn push_reading(value: &mut String, clock: &Clock, other: Option<Shown>) -> Result<(), AllocError>
    ensures { OnOk result (AddsText value.old value.new (reading_words clock.now other)) }
{
    match other {
        Some(other) => {
            push_reading_front(value)?;
            push_given(value, clock, &other)?;
            value.push_str(".")
        }
        None => Ok(()),
    }
}

#[tactic(auto, unfolding(crate::specs::Events::reading_front))]
fn push_reading_front(value: &mut String) -> Result<(), AllocError>
    ensures { OnOk result (AddsText value.old value.new reading_front) }
{
    value.push_str("\nBy another reading of the Rules: ")
}

/// Adds a period of the Rules with its event and its section, or an entered one.
fn push_described(value: &mut String, period: &Period) -> Result<(), AllocError>
    ensures { OnOk result (AddsText value.old value.new (described period.now)) }
{
    match period {
        Period::Rule(rule) => push_rule_period(value, *rule),
        Period::Entered(_) => push_period(value, period),
    }
}

#[tactic(auto, unfolding(crate::specs::Events::rule_period_words))]
fn push_rule_period(value: &mut String, rule: RulePeriod) -> Result<(), AllocError>
    ensures { OnOk result (AddsText value.old value.new (rule_period_words rule)) }
{
    value.push_str(rule_words(rule))?;
    value.push_str(", ")?;
    value.push_str(event_words(rule))?;
    push_rule_front(value)?;
    value.push_str(rule_section(rule))?;
    value.push_str(")")
}

#[tactic(auto, unfolding(crate::specs::Events::rule_front))]
fn push_rule_front(value: &mut String) -> Result<(), AllocError>
    ensures { OnOk result (AddsText value.old value.new rule_front) }
{
    value.push_str(" (Fed. R. Civ. P. ")
}

/// Adds when the time of a deadline ends, if a row starts it.
fn push_end(value: &mut String, clock: &Clock, second: u32, shown: &Shown) -> Result<(), AllocError>
    ensures { OnOk result (AddsText value.old value.new (end_words clock.now second shown.now)) }
{
    match *shown {
        Shown::Last { day: _, act } => {
            push_day(value, day_end(clock, act, Means::Electronic))?;
            push_closing(value, clock, act)
        }
        Shown::Until(_) => push_until(value, second),
        Shown::Beyond => push_lost(value),
    }
}

/// Adds the second of the day at which the time of a deadline ends.
fn push_until(value: &mut String, second: u32) -> Result<(), AllocError>
    ensures { OnOk result (AddsText value.old value.new (until_front ++ second_time second ++ until_back)) }
{
    push_until_front(value)?;
    push_second(value, second)?;
    push_until_back(value)
}

#[tactic(auto, unfolding(crate::specs::Events::until_front))]
fn push_until_front(value: &mut String) -> Result<(), AllocError>
    ensures { OnOk result (AddsText value.old value.new until_front) }
{
    value.push_str("The time ends at ")
}

#[tactic(auto, unfolding(crate::specs::Events::until_back))]
fn push_until_back(value: &mut String) -> Result<(), AllocError>
    ensures { OnOk result (AddsText value.old value.new until_back) }
{
    value.push_str(" on the court's clock")
}

/// Adds when a last day ends, at this minute or at midnight.
fn push_day(value: &mut String, end: Option<u16>) -> Result<(), AllocError>
    ensures { OnOk result (AddsText value.old value.new (day_words end)) }
{
    match end {
        Some(minute) => {
            push_minute_front(value)?;
            push_minute(value, minute)
        }
        None => push_midnight(value),
    }
}

#[tactic(auto, unfolding(crate::specs::Events::minute_front))]
fn push_minute_front(value: &mut String) -> Result<(), AllocError>
    ensures { OnOk result (AddsText value.old value.new minute_front) }
{
    value.push_str("The time ends on this day, at ")
}

#[tactic(auto, unfolding(crate::specs::Events::midnight_words))]
fn push_midnight(value: &mut String) -> Result<(), AllocError>
    ensures { OnOk result (AddsText value.old value.new midnight_words) }
{
    value.push_str("The time ends with this day, at midnight")
}

#[tactic(auto, unfolding(crate::specs::Events::lost_words))]
fn push_lost(value: &mut String) -> Result<(), AllocError>
    ensures { OnOk result (AddsText value.old value.new lost_words) }
{
    value.push_str("It was taken off the docket")
}

/// Adds when the clerk's office closes, for a filing.
fn push_closing(value: &mut String, clock: &Clock, act: Act) -> Result<(), AllocError>
    ensures { OnOk result (AddsText value.old value.new (closing_words clock.now act)) }
{
    match act {
        Act::Filing => {
            push_paper(value)?;
            push_minute(value, clock.closes())
        }
        Act::Service => Ok(()),
    }
}

#[tactic(auto, unfolding(crate::specs::Events::paper_words))]
fn push_paper(value: &mut String) -> Result<(), AllocError>
    ensures { OnOk result (AddsText value.old value.new paper_words) }
{
    value.push_str("; for filing on paper when the clerk's office closes, at ")
}
