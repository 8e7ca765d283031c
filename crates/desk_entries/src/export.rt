//! Rows as they are written for other programs.
ghost use Rattle.std.specs.Prelude.{◌≡◌, ◌++◌, OnOk};
ghost use Rattle.csv.specs.Records.{fields_of};
ghost use Rattle.desk_entries.specs.Export.{asked_placed, number_asked, number_in, row_placed, row_written, said_placed, suspender_by, suspender_in, suspender_of, work_placed};

use case_numbers::after_name;
use csv::StringRecord;
use desk_numbers::{MovedNumbers, is_apart};
use desk_register::{MOST_CLERKS, RowTypes, Standing, before_number, with_field, with_suspender};
use docket_rows::{Command, Fact};
use row_forms::{Line, Work, push_row_text, read_line};
use std::alloc::{AllocError, Global};

// The number of the deadline or the motion that a command names.
fn number_in(command: &Command) -> Option<u32>
    ensures { result ≡ number_in command.now }
{
    match command.subject() {
        Some(named) => Some(named.number),
        None => None,
    }
}

// The number of the deadline or the motion that a row names.
fn number_asked(work: &Work) -> Option<u32>
    ensures { result ≡ number_asked work.now }
{
    match work {
        Work::Command(command) => number_in(command),
        Work::Query(_) => None,
    }
}

// Adds a row with these fields that names this number after `before` of them, where what has the number is at this place.
fn push_placed(
    alloc: Global,
    text: &mut Vec<u8>,
    before: u8,
    number: Option<u32>,
    place: Option<u32>,
    fields: &StringRecord,
) -> Result<(), AllocError>
    ensures { OnOk result (text.new.items ≡ text.old.items ++ row_placed before number place (fields_of fields.now)) }
{
    let Some(number) = number else {
        return push_row_text(text, fields);
    };
    let Some(place) = place else {
        return push_row_text(text, fields);
    };
    if number == place {
        return push_row_text(text, fields);
    }
    if is_apart(place) {
        return Ok(());
    }
    push_row_text(text, &with_field(alloc, fields, before, place)?)
}

// The number of the motion that a fact says suspends a deadline, if it says one.
fn suspender_by(fact: Fact) -> Option<u32>
    ensures { result ≡ suspender_by fact }
{
    match fact {
        Fact::Ended { why, .. } => why.suspended_by(),
        _ => None,
    }
}

// The same of a command.
fn suspender_of(command: &Command) -> Option<u32>
    ensures { result ≡ suspender_of command.now }
{
    match command {
        Command::Fact { fact, .. } => suspender_by(*fact),
        _ => None,
    }
}

// The same of a row.
fn suspender_in(work: &Work) -> Option<u32>
    ensures { result ≡ suspender_in work.now }
{
    match work {
        Work::Command(command) => suspender_of(command),
        Work::Query(_) => None,
    }
}

// Adds a row with these fields that asks for this, where by places it asks for that.
fn push_work(
    alloc: Global,
    text: &mut Vec<u8>,
    asked: &Work,
    placed: &Work,
    fields: &StringRecord,
) -> Result<(), AllocError>
    ensures { OnOk result (text.new.items ≡ text.old.items ++ work_placed asked.now placed.now (fields_of fields.now)) }
{
    let before = before_number(asked);
    push_placed(
        alloc,
        text,
        before,
        number_asked(asked),
        number_asked(placed),
        fields,
    )
}

// The same of a row that may say that a motion suspends a deadline.
fn push_asked(
    alloc: Global,
    text: &mut Vec<u8>,
    asked: &Work,
    placed: &Work,
    fields: &StringRecord,
) -> Result<(), AllocError>
    ensures { OnOk result (text.new.items ≡ text.old.items ++ asked_placed asked.now placed.now (fields_of fields.now)) }
{
    let Some(motion) = suspender_in(asked) else {
        return push_work(alloc, text, asked, placed, fields);
    };
    let Some(at) = suspender_in(placed) else {
        return push_work(alloc, text, asked, placed, fields);
    };
    if motion == at {
        return push_work(alloc, text, asked, placed, fields);
    }
    if is_apart(at) {
        return Ok(());
    }
    let fields = with_suspender(alloc, fields, at)?;
    push_work(alloc, text, asked, placed, &fields)
}

// Adds what is written of a line that says this and has these fields.
fn push_said(
    alloc: Global,
    text: &mut Vec<u8>,
    moved: &MovedNumbers,
    said: &Line,
    fields: &StringRecord,
) -> Result<(), AllocError>
    ensures { OnOk result (text.new.items ≡ text.old.items ++ said_placed moved.now said.now (fields_of fields.now)) }
{
    let _types: RowTypes = None;
    match said {
        Line::Row(row) => push_asked(alloc, text, &row.work, &moved.place(&row.work), fields),
        _ => Ok(()),
    }
}

/// Adds the row of that number, counted from 1, whose entry this is, with the end of its line: nothing where the row is struck.
/// What it names by a number is named by its place among those that stand; what isn't at the place of its number is given.
/// `Err` says that memory ran out.
#[tactic(auto, unfolding(crate::specs::Export::row_written))]
pub fn push_row(
    alloc: Global,
    under: &Standing,
    moved: &MovedNumbers,
    number: u32,
    entry: &[u8],
    fields: &mut StringRecord,
    text: &mut Vec<u8>,
) -> Result<(), AllocError>
    ensures { OnOk result (text.new.items ≡ text.old.items ++ row_written under.now moved.now number entry.now) }
{
    let _types: RowTypes = None;
    if under.corrections.is_struck(number) {
        return Ok(());
    }
    let said = read_line(alloc, after_name(entry), MOST_CLERKS, &under.court, fields)?;
    push_said(alloc, text, moved, &said, fields)
}
