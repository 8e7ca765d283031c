//! The first record of a text.

ghost use Rattle.std.specs.Prelude.{◌≡◌, [], false, true, List, ℕ, Ok};
ghost use Rattle.std.specs.List.{list_all};
ghost use Rattle.std.specs.Str.{is_utf8};
ghost use Rattle.csv.specs.Reading.{default_config, records, strip_bom};
ghost use Rattle.csv.specs.Records.{fields_of};
ghost use Rattle.row_forms.specs.Inside.First.{BeginsWith};

use crate::line::plain::read_plain;
use crate::{Next, read_next, rows_reader};
use csv::{ByteRecord, StringRecord};
use std::alloc::{AllocError, Global};
use std::mem;

// Whether each field is text, and if so they are put into `fields`.
#[tactic(auto, using(crate::proofs::TextLemmas::text_passes, crate::proofs::TextLemmas::else_fails))]
fn take_text(row: ByteRecord, fields: &mut StringRecord) -> bool
    ensures text { result ≡ list_all is_utf8 (fields_of row) }
    ensures taken { result ≡ true → fields_of fields.new ≡ fields_of row }
{
    match StringRecord::from_byte_record(row) {
        Ok(text) => {
            *fields = text;
            true
        }
        Err(_) => false,
    }
}

// Reads the first record of a text by the reader of CSV. It is made anew for each text, and its tables take longer to make
// than a line to read: so this is a function of its own, and whoever cuts a plain line doesn't make them.
#[inline(never)]
fn read_by_reader(
    alloc: Global,
    bytes: &[u8],
    fields: &mut StringRecord,
) -> Result<Next, AllocError>
    ensures text { result ≡ Ok Next.Text → BeginsWith bytes.now (fields_of fields.new) × (list_all is_utf8 (fields_of fields.new) ≡ true) }
    ensures no_text { result ≡ Ok Next.NotText → (met : List (List ℕ)) × BeginsWith bytes.now met × (list_all is_utf8 met ≡ false) }
    ensures end { result ≡ Ok Next.End → records default_config (strip_bom bytes.now) ≡ [] }
{
    let mut reader = rows_reader(alloc, bytes);
    read_next(&mut reader, fields)
}

// Reads the first record of a text into `fields`. A plain line is cut here, and the reader of CSV reads all else.
pub(crate) fn read_first(
    alloc: Global,
    bytes: &[u8],
    fields: &mut StringRecord,
) -> Result<Next, AllocError>
    ensures text { result ≡ Ok Next.Text → BeginsWith bytes.now (fields_of fields.new) × (list_all is_utf8 (fields_of fields.new) ≡ true) }
    ensures no_text { result ≡ Ok Next.NotText → (met : List (List ℕ)) × BeginsWith bytes.now met × (list_all is_utf8 met ≡ false) }
    ensures end { result ≡ Ok Next.End → records default_config (strip_bom bytes.now) ≡ [] }
{
    let mut row = mem::replace(fields, StringRecord::new(alloc)).into_byte_record();
    if read_plain(bytes, &mut row)? {
        if take_text(row, fields) {
            Ok(Next::Text)
        } else {
            Ok(Next::NotText)
        }
    } else {
        read_by_reader(alloc, bytes, fields)
    }
}
