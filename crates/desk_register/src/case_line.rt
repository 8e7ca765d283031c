//! Lines in which a case has its number as the court writes it.
ghost use Rattle.std.specs.Prelude.{◌≡◌, ◌≤◌, ◌+◌, ◌++◌, ◌∷◌, [], ℕ, List, drop, length, take, unwrap_or, Some, IfOk, OnOk};
ghost use Rattle.std.specs.Fmt.{decimal};
ghost use Rattle.csv.specs.Records.{field_at, fields_of, partial_of};
ghost use Rattle.csv.specs.Writing.{default_writer, row_text};
ghost use Rattle.desk_register.specs.CaseLines.{IsRead, case_in, finds_no_number, fresh_for, lacks_number, lacks_field, named, named_if, newly, opens_too_many, read_as, with_number, with_suspender};
ghost use Rattle.case_numbers.specs.Words.{number_of};
ghost use Rattle.row_forms.specs.Words.{names_of};
ghost use Rattle.desk_register.specs.Cases.{opened_as, with_opened};

use crate::register::{MOST_CLERKS, RowTypes};
use case_numbers::{CaseName, Cases, case_read};
use court_days::Court;
use csv::StringRecord;
use docket_rows::Command;
use row_forms::{Line, RowCause, Work, push_row_text, read_line};
use std::alloc::{AllocError, Global};

// How many bytes a field has at most that names a case. Court case numbers with the initials of their judges have some twenty.
const MOST_NAME: usize = 64;

// The plain line that stands for a line with a case number.
#[derive(Debug, Drop)]
pub struct CaseLine {
    // The plain line.
    pub text: Vec<u8>,
    // The name of the case, where no case has it yet.
    pub name: Option<CaseName>,
}

/// Reads a line in which a case may have its number as the court writes it, after rows that opened these cases: gives what
/// the plain line says that stands for it, and the name that no case has yet. The fields of the plain line are put into
/// `fields` where it says a row, and where one of them isn't what it should be. `Err` says that memory ran out.
#[tactic(auto, unfolding(crate::specs::CaseLines::reading_of))]
pub fn read_named(
    alloc: Global,
    court: &Court,
    cases: &Cases,
    line: &[u8],
    fields: &mut StringRecord,
) -> Result<(Line, Option<CaseName>), AllocError>
    ensures { IfOk result (IsRead (names_of court.now) cases.now line.now (fields_of fields.new)) }
{
    let _types: RowTypes = None;
    let said = read_line(alloc, line, MOST_CLERKS, court, fields)?;
    if !lacks_field(&said, 3) {
        return Ok((said, None));
    }
    match case_line(alloc, cases, fields)? {
        Some(CaseLine { text, name }) => {
            let said = read_line(alloc, text.as_slice(), MOST_CLERKS, court, fields)?;
            Ok((said, name))
        }
        None => Ok((said, None)),
    }
}

/// Whether a line opens a case by a name that no case has, after rows that opened as many cases as a docket holds. `Err` says
/// that memory ran out.
#[tactic(auto, unfolding(crate::specs::CaseLines::opens_too_many))]
pub(crate) fn opens_too_many(
    alloc: Global,
    court: &Court,
    cases: &Cases,
    line: &[u8],
) -> Result<bool, AllocError>
    ensures { IfOk result (λ too_many. too_many ≡ opens_too_many (names_of court.now) cases.now line.now) }
{
    let _types: RowTypes = None;
    let mut fields = StringRecord::new(alloc);
    let said = read_line(alloc, line, MOST_CLERKS, court, &mut fields)?;
    if !lacks_field(&said, 3) {
        return Ok(false);
    }
    match case_in(alloc, &fields)? {
        Some(name) => Ok(lacks_number(cases, &fields, &name)),
        None => Ok(false),
    }
}

// Whether a row with this name opens a case, no case has the name, and each number has a case.
fn lacks_number(cases: &Cases, fields: &StringRecord, name: &CaseName) -> bool
    ensures { result ≡ lacks_number cases.now (fields_of fields.now) (Some name.now) }
{
    match cases.number_of(name.key()) {
        Some(_) => false,
        None => finds_no_number(cases, fields),
    }
}

// Whether a row opens a case, and each number has one.
fn finds_no_number(cases: &Cases, fields: &StringRecord) -> bool
    ensures { result ≡ finds_no_number cases.now (fields_of fields.now) }
{
    let opens = field_at(fields, 1) == "open";
    if opens {
        cases.fresh().is_none()
    } else {
        false
    }
}

// Whether the field of that number, counted from 1, isn't what it should be in a line that says this.
pub(crate) fn lacks_field(said: &Line, number: u8) -> bool
    ensures { result ≡ lacks_field number said.now }
{
    match said {
        Line::Fault(RowCause::BadField(column)) => *column == number,
        _ => false,
    }
}

// The plain line that stands for a line with these fields. `None` says that the line is read as it is.
fn case_line(
    alloc: Global,
    cases: &Cases,
    fields: &StringRecord,
) -> Result<Option<CaseLine>, AllocError>
    ensures { (line : List ℕ) → IfOk result (λ read. read_as line read ≡ named_if cases.now line (fields_of fields.now) (case_in (fields_of fields.now))) }
{
    match case_in(alloc, fields)? {
        Some(name) => named(alloc, cases, fields, name),
        None => Ok(None),
    }
}

// The field at a place, counted from 0.
pub(crate) fn field_at(fields: &StringRecord, place: usize) -> &str
    ensures { result.now ≡ unwrap_or (field_at (fields_of fields.now) place) [] }
{
    match fields.get(place) {
        Some(field) => field,
        None => "",
    }
}

// The case number in the third field, which is a judge's name in a row that asks for a calendar. A longer field names no case.
fn case_in(alloc: Global, fields: &StringRecord) -> Result<Option<CaseName>, AllocError>
    ensures { IfOk result (λ name. name ≡ case_in (fields_of fields.now)) }
{
    let field = field_at(fields, 2);
    if field_at(fields, 1) == "calendar" || field.len() > MOST_NAME {
        Ok(None)
    } else {
        case_read(alloc, field.as_bytes())
    }
}

// The plain line of a row with this name.
fn named(
    alloc: Global,
    cases: &Cases,
    fields: &StringRecord,
    name: CaseName,
) -> Result<Option<CaseLine>, AllocError>
    ensures { (line : List ℕ) → IfOk result (λ read. read_as line read ≡ named cases.now line (fields_of fields.now) name (number_of cases.now.named name.key)) }
{
    match cases.number_of(name.key()) {
        Some(number) => {
            let text = numbered(alloc, fields, 2, number)?;
            Ok(Some(CaseLine { text, name: None }))
        }
        None => newly(alloc, fields, name, fresh_for(cases, fields)),
    }
}

// The number that a row gives to a name that no case has.
fn fresh_for(cases: &Cases, fields: &StringRecord) -> Option<u32>
    ensures { result ≡ fresh_for cases.now (fields_of fields.now) }
{
    if field_at(fields, 1) == "open" {
        cases.fresh()
    } else {
        None
    }
}

// The plain line of a row whose name no case has.
fn newly(
    alloc: Global,
    fields: &StringRecord,
    name: CaseName,
    number: Option<u32>,
) -> Result<Option<CaseLine>, AllocError>
    ensures { (line : List ℕ) → IfOk result (λ read. read_as line read ≡ newly line (fields_of fields.now) name number) }
{
    match number {
        Some(number) => {
            let text = numbered(alloc, fields, 2, number)?;
            Ok(Some(CaseLine {
                text,
                name: Some(name),
            }))
        }
        None => Ok(None),
    }
}

// The row with this number in the field at a place, counted from 0.
pub(crate) fn numbered(
    alloc: Global,
    fields: &StringRecord,
    place: u8,
    number: u32,
) -> Result<Vec<u8>, AllocError>
    ensures { IfOk result (λ text. text.items ≡ row_text default_writer (with_number place (fields_of fields.now) number)) }
{
    let mut text = Vec::new(alloc);
    push_row_text(&mut text, &with_field(alloc, fields, place, number)?)?;
    Ok(text)
}

/// The fields with this number at a place, counted from 0. `Err` says that memory ran out.
pub fn with_field(
    alloc: Global,
    fields: &StringRecord,
    place: u8,
    number: u32,
) -> Result<StringRecord, AllocError>
    ensures { IfOk result (λ row. fields_of row ≡ with_number place (fields_of fields.now) number) }
{
    let digits = format!(in alloc; "{number}")?;
    with_text(alloc, fields, place, &digits)
}

/// The fields with the number of the motion that suspends a deadline, in the fifth of them. `Err` says that memory ran out.
pub fn with_suspender(
    alloc: Global,
    fields: &StringRecord,
    motion: u32,
) -> Result<StringRecord, AllocError>
    ensures { IfOk result (λ row. fields_of row ≡ with_suspender (fields_of fields.now) motion) }
{
    let text = format!(in alloc; "suspended:{motion}")?;
    with_text(alloc, fields, 4, &text)
}

// The fields with this text at a place, counted from 0.
fn with_text(
    alloc: Global,
    fields: &StringRecord,
    place: u8,
    text: &str,
) -> Result<StringRecord, AllocError>
    ensures { IfOk result (λ row. fields_of row ≡ take place (fields_of fields.now) ++ text.now ∷ drop (place + 1) (fields_of fields.now)) }
{
    let place = usize::from(place);
    let mut row = StringRecord::new(alloc);
    push_fields(&mut row, fields, 0, place)?;
    row.push_field(text)?;
    push_fields(&mut row, fields, place + 1, fields.len())?;
    Ok(row)
}

// Adds the fields from a place up to another.
fn push_fields(
    row: &mut StringRecord,
    fields: &StringRecord,
    from: usize,
    to: usize,
) -> Result<(), AllocError>
    ensures { OnOk result (fields_of row.new ≡ fields_of row.old ++ drop from (take to (fields_of fields.now))) }
{
    for place in from..to {
        match fields.get(place) {
            Some(field) => row.push_field(field)?,
            None => {}
        }
    }
    Ok(())
}

// Notes the case that a row opens, perhaps by a name.
pub(crate) fn note_case(
    alloc: Global,
    cases: &mut Cases,
    work: &Work,
    name: Option<CaseName>,
) -> Result<(), AllocError>
    ensures { OnOk result (cases.new ≡ with_opened cases.old (opened_as work.now) name) }
{
    match work {
        Work::Command(Command::OpenCase { case, .. }) => cases.add(alloc, *case, name),
        _ => Ok(()),
    }
}
