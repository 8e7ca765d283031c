//! What an event is called.

ghost use Rattle.std.specs.Prelude.{◌≡◌, OnOk};
ghost use Rattle.office_texts.specs.Words.{AddsText};
ghost use Rattle.report_ics.specs.Events.{deadline_name, name_words, off_deadline, off_end, off_words, state_words, summary, what_words};

use crate::appointment::Appointment;
use case_numbers::push_case_text;
use court_days::Court;
use docket_rows::{Ending, State};
use docket_selection::{DueDeadline, Matter};
use office_texts::{push_and_ended, push_number};
use reason_texts::rule_words;
use report_texts::{Labels, counted_in, push_called_after, push_matter, push_period};
use rule_periods::Period;
use rule6::Shown;
use std::alloc::AllocError;

/// Adds the text that an event is called by.
#[tactic(auto, unfolding(crate::specs::Events::summary))]
pub(crate) fn push_summary(
    value: &mut String,
    court: &Court,
    labels: &Labels<'_>,
    appointment: &Appointment,
) -> Result<(), AllocError>
    ensures { OnOk result (AddsText value.old value.new (summary court.now labels.now appointment.now)) }
{
    let item = &appointment.item;
    value.push_str(off_words(appointment.cancelled, &item.matter))?;
    value.push_str("Case ")?;
    push_case_text(value, labels.cases, item.case)?;
    push_named(value, court, item.number, &item.matter)?;
    push_called_after(
        value,
        labels,
        item.case,
        counted_in(&item.matter),
        item.number,
    )
}

fn off_words(cancelled: bool, matter: &Matter) -> &'static str
    ensures { result.now ≡ off_words cancelled matter.now }
{
    if !cancelled {
        return "";
    }
    match matter {
        Matter::Hearing(_) => "Cancelled: ",
        Matter::Deadline(due) => off_deadline(&due.shown, due.ended),
    }
}

fn off_deadline(shown: &Shown, ended: Option<Ending>) -> &'static str
    ensures { result.now ≡ off_deadline shown.now ended }
{
    match ended {
        Some(_) => "Cancelled: ",
        None => off_end(shown),
    }
}

fn off_end(shown: &Shown) -> &'static str
    ensures { result.now ≡ off_end shown.now }
{
    match *shown {
        Shown::Beyond => "Cancelled: ",
        _ => "Off this calendar: ",
    }
}

/// Adds what a deadline or a hearing is in its case.
fn push_named(
    value: &mut String,
    court: &Court,
    number: u32,
    matter: &Matter,
) -> Result<(), AllocError>
    ensures { OnOk result (AddsText value.old value.new (name_words court.now number matter.now)) }
{
    match matter {
        Matter::Deadline(due) => push_deadline_name(value, number, due),
        Matter::Hearing(_) => push_matter(value, court, number, matter),
    }
}

#[tactic(auto, unfolding(crate::specs::Events::deadline_name))]
fn push_deadline_name(value: &mut String, number: u32, due: &DueDeadline) -> Result<(), AllocError>
    ensures { OnOk result (AddsText value.old value.new (deadline_name number due.now)) }
{
    value.push_str(" deadline ")?;
    push_number(value, u64::from(number))?;
    value.push_str(": ")?;
    push_what(value, &due.period)?;
    value.push_str(state_words(due.state))?;
    push_and_ended(value, due.ended)
}

/// Adds what is to be done within a period of the Rules, or an entered period in words.
fn push_what(value: &mut String, period: &Period) -> Result<(), AllocError>
    ensures { OnOk result (AddsText value.old value.new (what_words period.now)) }
{
    match period {
        Period::Rule(rule) => value.push_str(rule_words(*rule)),
        Period::Entered(_) => push_period(value, period),
    }
}

fn state_words(state: State) -> &'static str
    ensures { result.now ≡ state_words state }
{
    match state {
        State::Timely => ", filed in time",
        State::Late => ", filed late",
        _ => "",
    }
}
