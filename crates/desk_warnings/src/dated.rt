//! What a clerk is warned of a row that is dated after the day of entry.

ghost use Rattle.std.specs.Prelude.{◌≡◌, ◌++◌, Some, OnOk, codes, string_bytes};
ghost use Rattle.court_clock.specs.Words.{day_text};
ghost use Rattle.reason_notes.specs.Warnings.Words.{note};
ghost use Rattle.desk_warnings.specs.Dated.{dated_note, dated_of, fact_dated, if_near, note_if_dated, note_if_later, start_dated};

use court_clock::{Day, Direction};
use docket_rows::{Command, Fact};
use reason_texts::push_note;
use rule_periods::{Period, later_event};
use std::alloc::{AllocError, Global};

/// Adds the note on a command whose day lies after that of entry, where a day counts so.
pub(crate) fn push_dated(
    alloc: Global,
    text: &mut String,
    today: Option<Day>,
    command: &Command,
) -> Result<(), AllocError>
    ensures { OnOk result (string_bytes text.new ≡ string_bytes text.old ++ dated_note today command.now) }
{
    match today {
        Some(today) => push_if_dated(alloc, text, today, dated_of(today, command)),
        None => Ok(()),
    }
}

/// Adds the note on the day of a command, if it has one.
fn push_if_dated(
    alloc: Global,
    text: &mut String,
    today: Day,
    dated: Option<Day>,
) -> Result<(), AllocError>
    ensures { OnOk result (string_bytes text.new ≡ string_bytes text.old ++ note_if_dated today dated) }
{
    match dated {
        Some(day) => push_if_later(alloc, text, today, day),
        None => Ok(()),
    }
}

/// Adds the note on a day, where it lies after that of entry.
fn push_if_later(alloc: Global, text: &mut String, today: Day, day: Day) -> Result<(), AllocError>
    ensures { OnOk result (string_bytes text.new ≡ string_bytes text.old ++ note_if_later today day) }
{
    if today.number() < day.number() {
        push_later(alloc, text, today, day)
    } else {
        Ok(())
    }
}

/// Adds the note on a day after that of entry.
fn push_later(alloc: Global, text: &mut String, today: Day, day: Day) -> Result<(), AllocError>
    ensures { OnOk result (string_bytes text.new ≡ string_bytes text.old ++ note (Some day) (codes "this day lies after the day of entry, " ++ day_text today)) }
{
    let what = format!(in alloc; "this day lies after the day of entry, {today}")?;
    push_note(text, Some(day), what.as_str(), "note")
}

/// The day of what a command says has happened.
fn dated_of(today: Day, command: &Command) -> Option<Day>
    ensures { result ≡ dated_of today command.now }
{
    match *command {
        Command::OpenCase { filed, .. } => Some(filed),
        Command::Start {
            period,
            event,
            second,
            ..
        } => if_near(today, start_dated(period, event.day(), second)),
        Command::FileAct { filing, .. } => Some(filing.day),
        Command::Extend { request, .. } => Some(request.asked.day()),
        Command::Motion { served, .. } => Some(served),
        Command::Book(setting) | Command::MoveHearing(setting) => Some(setting.notice),
        Command::Cancel { .. } | Command::Holiday { .. } | Command::Inaccessible { .. } => None,
        Command::Fact { fact, .. } => fact_dated(fact),
    }
}

/// The day from which a period runs that is counted after its event; a day that an order sets is no event.
fn start_dated(period: Period, event: Day, second: Option<Day>) -> Option<Day>
    ensures { result ≡ start_dated period event second }
{
    if period.is_set() {
        return None;
    }
    match period.direction() {
        Direction::After => Some(later_event(event, second)),
        Direction::Before => None,
    }
}

/// The day of an event, unless it lies a year or more from today.
fn if_near(today: Day, event: Option<Day>) -> Option<Day>
    ensures { result ≡ if_near today event }
{
    match event {
        Some(day) if day.number() < today.number() + 365 => Some(day),
        _ => None,
    }
}

/// The day of the order or the paper that a fact of a case rests on.
fn fact_dated(fact: Fact) -> Option<Day>
    ensures { result ≡ fact_dated fact }
{
    match fact {
        Fact::Ended { dated, .. } | Fact::Resumed { dated, .. } => Some(dated),
        Fact::Closed { dated, .. } | Fact::Reopened { dated } => Some(dated),
        Fact::Ruled { dated, .. } | Fact::Assigned { dated, .. } => Some(dated),
        Fact::Titled => None,
        Fact::Labelled { .. } => None,
    }
}
