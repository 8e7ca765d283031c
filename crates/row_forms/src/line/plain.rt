//! A line that no quote is in: its fields are what is between its commas.

ghost use Rattle.std.specs.Prelude.{◌≡◌, [], true, Some, Ok};
ghost use Rattle.csv.specs.Records.{fields_of};
ghost use Rattle.row_forms.specs.Inside.First.{BeginsWith};
ghost use Rattle.row_forms.specs.Inside.Plain.{BeginsAtField, cut};

use csv::{ByteRecord, StringRecord};
use std::alloc::{AllocError, Global};

// Whether a text begins with a field: with no end of a line, and no byte order mark.
#[tactic(auto, using(crate::proofs::LineLemmas::PlainLemmas::begins_at_field))]
fn begins_at_field(bytes: &[u8]) -> bool
    ensures { result ≡ true → BeginsAtField bytes.now }
{
    if bytes.is_empty() {
        return false;
    }
    let first = bytes[0];
    first != b'\r' && first != b'\n' && first != 0xEF
}

// Cuts the first line of a text at its commas, into `row`. `false` says that a quote is in it.
fn cut_line(bytes: &[u8], row: &mut ByteRecord) -> Result<bool, AllocError>
    ensures { result ≡ Ok true → cut [] [] bytes.now ≡ Some (fields_of row.new) }
{
    row.clear();
    let mut start = 0;
    for (i, byte) in bytes.iter().enumerate() {
        if *byte == b'"' {
            return Ok(false);
        }
        if *byte == b'\r' || *byte == b'\n' {
            row.push_field(&bytes[start..i])?;
            return Ok(true);
        }
        if *byte == b',' {
            row.push_field(&bytes[start..i])?;
            start = i + 1;
        }
    }
    row.push_field(&bytes[start..])?;
    Ok(true)
}

// Reads the first record of a text, where it begins with a plain line.
#[tactic(auto, using(crate::proofs::LineLemmas::PlainLemmas::cut_begins))]
pub(crate) fn read_plain(bytes: &[u8], row: &mut ByteRecord) -> Result<bool, AllocError>
    ensures { result ≡ Ok true → BeginsWith bytes.now (fields_of row.new) }
{
    if begins_at_field(bytes) {
        cut_line(bytes, row)
    } else {
        Ok(false)
    }
}
