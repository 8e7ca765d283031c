//! Names in place of numbers, in the fields of rows: case numbers as courts write them, deadlines by their rule, the newest motion, and
//! what deadlines and motions are called.

ghost use Rattle.std.specs.Prelude.{◌≡◌, IfOk, is_some};
ghost use Rattle.csv.specs.Records.{fields_of};
ghost use Rattle.csv.specs.Writing.{default_writer, row_text};
ghost use Rattle.row_written.specs.Cases.{asked, is_case, is_subject_name, name_in, names_subject, with_case, with_one, with_subject};

use crate::headings::word_at;
use case_numbers::case_read;
use csv::StringRecord;
use row_forms::{Column, column_at, is_number, push_row_text};
use std::alloc::{AllocError, Global};

// Whether it is the column of a case.
fn is_case(column: Column) -> bool
    ensures { result ≡ is_case column }
{
    matches!(column, Column::Case)
}

// Whether a row with these columns and fields has a case number in place of its case's number.
fn has_name(alloc: Global, columns: &[Column], fields: &StringRecord) -> Result<bool, AllocError>
    ensures { IfOk result (λ so. so ≡ is_some (name_in columns.now (fields_of fields.now))) }
{
    if is_case(column_at(columns, 2)) {
        Ok(case_read(alloc, word_at(fields, 2).as_bytes())?.is_some())
    } else {
        Ok(false)
    }
}

// Whether a field of this column is a name in place of a number: of a deadline its rule's code, of a motion `last`, and of both what they
// are called.
fn is_subject_name(column: Column, field: &str) -> bool
    ensures { result ≡ is_subject_name column field.now }
{
    match column {
        Column::Deadline | Column::Motion | Column::Number => !is_number(field.as_bytes()),
        _ => false,
    }
}

// Whether a row with these columns and fields names a deadline or a motion so at a place, counted from 0.
fn names_subject(columns: &[Column], fields: &StringRecord, place: u8) -> bool
    ensures { result ≡ names_subject place columns.now (fields_of fields.now) }
{
    let place = usize::from(place);
    is_subject_name(column_at(columns, place), word_at(fields, place))
}

// The fields with the number 1 at a place, counted from 0.
fn with_one(fields: &StringRecord, place: u8) -> Result<StringRecord, AllocError>
    ensures { IfOk result (λ row. fields_of row ≡ with_one place (fields_of fields.now)) }
{
    let place = usize::from(place);
    let mut row = fields.clone()?;
    row.truncate(place);
    row.push_field("1")?;
    for after in place + 1..fields.len() {
        row.push_field(word_at(fields, after))?;
    }
    Ok(row)
}

/// The text of a row with these fields.
pub(crate) fn text_of(alloc: Global, fields: &StringRecord) -> Result<Vec<u8>, AllocError>
    ensures { IfOk result (λ text. text.items ≡ row_text default_writer (fields_of fields.now)) }
{
    let mut text = Vec::new(alloc);
    push_row_text(&mut text, fields)?;
    Ok(text)
}

// The fields with the number 1 in place of a case number.
fn with_case(
    alloc: Global,
    columns: &[Column],
    fields: &StringRecord,
) -> Result<StringRecord, AllocError>
    ensures { IfOk result (λ row. fields_of row ≡ with_case columns.now (fields_of fields.now)) }
{
    if has_name(alloc, columns, fields)? {
        with_one(fields, 2)
    } else {
        fields.clone()
    }
}

// The fields with the number 1 in place of the name of a deadline or a motion at a place, counted from 0.
fn with_subject(
    columns: &[Column],
    fields: &StringRecord,
    place: u8,
) -> Result<StringRecord, AllocError>
    ensures { IfOk result (λ row. fields_of row ≡ with_subject place columns.now (fields_of fields.now)) }
{
    if names_subject(columns, fields, place) {
        with_one(fields, place)
    } else {
        fields.clone()
    }
}

/// The text of the row that the office is asked about: that with these fields, with the number 1 in place of each name.
pub(crate) fn asked_text(
    alloc: Global,
    columns: &[Column],
    fields: &StringRecord,
) -> Result<Vec<u8>, AllocError>
    ensures { IfOk result (λ text. text.items ≡ row_text default_writer (asked columns.now (fields_of fields.now))) }
{
    let cased = with_case(alloc, columns, fields)?;
    let numbered = with_subject(columns, &cased, 3)?;
    let asked = with_subject(columns, &numbered, 4)?;
    text_of(alloc, &asked)
}
