//! A row as a line of CSV.

ghost use Rattle.std.specs.Prelude.{◌≡◌, ◌++◌, OnOk};
ghost use Rattle.csv.specs.Records.{fields_of};
ghost use Rattle.csv.specs.Writing.{default_writer, escaped, field_text, is_blank, needs_byte, needs_quotes, row_body, row_text};

use csv::StringRecord;
use std::alloc::AllocError;

// Whether a field with this byte is written between quotes.
fn needs_byte(byte: u8) -> bool
    ensures { result ≡ needs_byte default_writer byte }
{
    matches!(byte, b',' | b'"' | b'\r' | b'\n')
}

// Whether a field is written between quotes.
fn needs_quotes(field: &[u8]) -> bool
    ensures { result ≡ needs_quotes default_writer field.now }
{
    field.iter().any(|byte| needs_byte(*byte))
}

// Adds the bytes of a field as they are between quotes.
fn push_escaped(text: &mut Vec<u8>, field: &[u8]) -> Result<(), AllocError>
    ensures { OnOk result (text.new.items ≡ text.old.items ++ escaped default_writer field.now) }
{
    for byte in field {
        if *byte == b'"' {
            text.push(b'"')?;
        }
        text.push(*byte)?;
    }
    Ok(())
}

// Adds the text of a field.
fn push_field_text(text: &mut Vec<u8>, field: &[u8]) -> Result<(), AllocError>
    ensures { OnOk result (text.new.items ≡ text.old.items ++ field_text default_writer field.now) }
{
    if needs_quotes(field) {
        text.push(b'"')?;
        push_escaped(text, field)?;
        text.push(b'"')?;
        Ok(())
    } else {
        text.extend_from_slice(field)
    }
}

// Whether a row would be written as nothing.

#[tactic(auto, using(crate::proofs::LineLemmas::RowTextLemmas::blank_of_many, crate::proofs::LineLemmas::RowTextLemmas::blank_of_none, crate::proofs::LineLemmas::RowTextLemmas::blank_of_one))]
fn is_blank(fields: &StringRecord) -> bool
    ensures { result ≡ is_blank default_writer (fields_of fields.now) }
{
    if fields.len() > 1 {
        return false;
    }
    match fields.get(0) {
        Some(field) => field.is_empty(),
        None => true,
    }
}

// Adds the fields of a row with commas between them.
fn push_fields(text: &mut Vec<u8>, fields: &StringRecord) -> Result<(), AllocError>
    ensures { OnOk result (text.new.items ≡ text.old.items ++ row_body default_writer (fields_of fields.now)) }
{
    if let Some(first) = fields.get(0) {
        push_field_text(text, first.as_bytes())?;
    }
    for i in 1..fields.len() {
        if let Some(field) = fields.get(i) {
            text.push(b',')?;
            push_field_text(text, field.as_bytes())?;
        }
    }
    Ok(())
}

/// Adds the text of a row, a line of CSV. `Err` says that memory ran out.
pub fn push_row_text(text: &mut Vec<u8>, fields: &StringRecord) -> Result<(), AllocError>
    ensures { OnOk result (text.new.items ≡ text.old.items ++ row_text default_writer (fields_of fields.now)) }
{
    push_fields(text, fields)?;
    if is_blank(fields) {
        text.extend_from_slice(b"\"\"")?;
    }
    text.push(b'\n')?;
    Ok(())
}
