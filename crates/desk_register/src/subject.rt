//! Rows that name a deadline or a motion without its number: by its rule, as the last, or by what it is called.
ghost use Rattle.std.specs.Prelude.{◌≡◌, ◌-◌, ℕ, List, IfOk};
ghost use Rattle.csv.specs.Records.{fields_of};
ghost use Rattle.docket_rows.specs.Words.{CourtSetup, Rows};
ghost use Rattle.office_texts.specs.Run.Words.{Holds};
ghost use Rattle.row_forms.specs.Words.{column, names_of};
ghost use Rattle.row_forms.specs.declared.fault.RowCause.TheVariants.{BadField};
ghost use Rattle.row_forms.specs.declared.line.line.Line.TheVariants as says;
ghost use Rattle.row_forms.specs.Line.Words.{fields_read, line_read};
ghost use Rattle.desk_register.specs.Entries.{most_clerks};
ghost use Rattle.desk_register.specs.Subjects.{asked_by, asked_in, before_in, before_number, called_by, found_for, name_for, named_as, named_by, named_fifth, named_in, other_name, under_or};

use crate::case_line::{field_at, lacks_field, numbered};
use crate::register::{MOST_CLERKS, RowTypes};
use court_days::Court;
use csv::StringRecord;
use desk_numbers::{CalledTexts, Found, RowNumbers, SubjectName};
use docket_core::Docket;
use docket_rows::{Command, Counted, Fact, Query, Subject};
use row_forms::{Line, Work, is_text, read_line};
use rule_periods::RulePeriod;
use std::alloc::{AllocError, Global};

/// A deadline or a motion that a row names without its number.
#[derive(Clone, Copy, Debug, PartialEq, Eq)]
pub(crate) struct Named {
    /// The number of its case.
    pub case: u32,
    /// The column of the row that has its name, counted from 1.
    pub at: u8,
    /// How it is named.
    pub name: SubjectName,
}

// How many fields of the row of a command come before the number of the deadline or the motion that it names.
fn before_in(command: &Command) -> u8
    ensures { result ≡ before_in command.now }
{
    match command {
        Command::Fact {
            fact: Fact::Labelled { .. },
            ..
        } => 4,
        _ => 3,
    }
}

/// How many fields of a row come before the number of the deadline or the motion that it names.
pub fn before_number(work: &Work) -> u8
    ensures { result ≡ before_number work.now }
{
    match work {
        Work::Command(command) => before_in(command),
        Work::Query(_) => 3,
    }
}

// The deadline or the motion that a row names which asks for this.
fn asked_by(work: &Work) -> Option<Subject>
    ensures { result ≡ asked_by work.now }
{
    match work {
        Work::Command(command) => command.subject(),
        Work::Query(_) => None,
    }
}

// What a row of a line that says this names by a number in that column, counted from 1.
fn asked_in(at: u8, said: &Line) -> Option<Subject>
    ensures { result ≡ asked_in at said.now }
{
    let _types: RowTypes = None;
    match said {
        Line::Row(row) => {
            if before_number(&row.work) == at.saturating_sub(1) {
                asked_by(&row.work)
            } else {
                None
            }
        }
        _ => None,
    }
}

// A field as what a deadline or a motion is called, where a text may call something so.
fn called_by(counted: Counted, field: &str) -> Option<SubjectName>
    ensures { result ≡ called_by counted field.now }
{
    if is_text(field.as_bytes()) {
        Some(SubjectName::Called(counted))
    } else {
        None
    }
}

// The name of a deadline that a field is: the rule of which it is the code, or what the deadline is called.
fn under_or(rule: Option<RulePeriod>, field: &str) -> Option<SubjectName>
    ensures { result ≡ under_or rule field.now }
{
    match rule {
        Some(rule) => Some(SubjectName::Under(rule)),
        None => called_by(Counted::Deadline, field),
    }
}

// The name that a field is in place of a number, which isn't `new`: of a deadline its rule's code, of a motion `last`, and of both else
// what it is called.
fn other_name(counted: Counted, field: &str) -> Option<SubjectName>
    ensures { result ≡ other_name counted field.now }
{
    match counted {
        Counted::Deadline => under_or(RulePeriod::from_code(field), field),
        Counted::Motion => {
            if field == "last" {
                Some(SubjectName::Newest)
            } else {
                called_by(Counted::Motion, field)
            }
        }
    }
}

// The name that a field is in place of a number: `new` names what the row before made.
fn name_for(counted: Counted, field: &str) -> Option<SubjectName>
    ensures { result ≡ name_for counted field.now }
{
    if field == "new" {
        Some(SubjectName::Made(counted))
    } else {
        other_name(counted, field)
    }
}

// What a row names in the field of that column, that would name this with a number there.
fn named_as(at: u8, subject: Option<Subject>, field: &str) -> Option<Named>
    ensures { result ≡ named_as at subject field.now }
{
    let Subject { case, counted, .. } = subject?;
    let name = name_for(counted, field)?;
    Some(Named { case, at, name })
}

// The field in that column, counted from 1; empty where there is none.
fn field_in(fields: &StringRecord, at: u8) -> &str
    ensures { result.now ≡ column (fields_of fields.now) at }
{
    field_at(fields, usize::from(at.saturating_sub(1)))
}

// What a row with these fields names in that column without its number: with the number 1 there it is read.
fn named_by(
    alloc: Global,
    court: &Court,
    at: u8,
    fields: &StringRecord,
) -> Result<Option<Named>, AllocError>
    ensures { IfOk result (λ named. named ≡ named_by (names_of court.now) at (fields_of fields.now)) }
{
    let _types: RowTypes = None;
    let text = numbered(alloc, fields, at.saturating_sub(1), 1)?;
    let mut read = StringRecord::new(alloc);
    let said = read_line(alloc, &text, MOST_CLERKS, court, &mut read)?;
    Ok(named_as(at, asked_in(at, &said), field_in(fields, at)))
}

// What a plain line names without its number in its fifth field, which says this and has these fields.
fn named_fifth(
    alloc: Global,
    court: &Court,
    said: &Line,
    fields: &StringRecord,
) -> Result<Option<Named>, AllocError>
    ensures { (text : List ℕ) → said.now ≡ line_read most_clerks (names_of court.now) text → ((column : ℕ) → said.now ≡ says.Fault (BadField column) → fields_of fields.now ≡ fields_read text) → IfOk result (λ named. named ≡ named_fifth (names_of court.now) text) }
{
    if lacks_field(said, 5) {
        named_by(alloc, court, 5, fields)
    } else {
        Ok(None)
    }
}

// What a plain line names without its number, which says this and has these fields.
pub(crate) fn named_in(
    alloc: Global,
    court: &Court,
    said: &Line,
    fields: &StringRecord,
) -> Result<Option<Named>, AllocError>
    ensures { (text : List ℕ) → said.now ≡ line_read most_clerks (names_of court.now) text → ((column : ℕ) → said.now ≡ says.Fault (BadField column) → fields_of fields.now ≡ fields_read text) → IfOk result (λ named. named ≡ named_in (names_of court.now) text) }
{
    if lacks_field(said, 4) {
        named_by(alloc, court, 4, fields)
    } else {
        named_fifth(alloc, court, said, fields)
    }
}

// What has that name, which a row with these fields says, in what is docketed, with these numbers, where things are called by these
// texts.
pub(crate) fn found_for(
    alloc: Global,
    docket: &Docket,
    numbers: &RowNumbers,
    called: &CalledTexts,
    named: &Named,
    fields: &StringRecord,
) -> Result<Found, AllocError>
    ensures { (setup : CourtSetup) (docketed : Rows) → Holds setup docket.now docketed → IfOk result (λ found. found ≡ found_for setup docketed numbers.now called.now named.now (column (fields_of fields.now) named.now.at)) }
{
    let shown = docket.show(alloc, &Query::Sheet(named.case))?;
    let field = field_in(fields, named.at);
    let view = numbers.moved().number_view(shown);
    Ok(named.name.found_in(called, numbers.last(), field, &view))
}
