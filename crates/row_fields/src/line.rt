//! A line, typed on plain keys and cut into fields.

ghost use Rattle.std.specs.Prelude.{◌≡◌, ◌++◌, ◌∷◌, [], false, IfOk, OnOk, string_bytes};
ghost use Rattle.csv.specs.Records.{fields_of};
ghost use Rattle.row_fields.specs.Line.{count_outside, fields_in, is_blank, is_dash, is_padding, is_quote, meant, more_of, place_in, plain, separates, separator_of, typed};

use csv::StringRecord;
use std::alloc::{AllocError, Global};

// Whether bytes begin with a curly quote.
fn is_quote(rest: &[u8]) -> bool
    ensures { result ≡ is_quote rest.now }
{
    rest.starts_with(&[0xE2, 0x80, 0x9C])
        || rest.starts_with(&[0xE2, 0x80, 0x9D])
        || rest.starts_with(&[0xE2, 0x80, 0x9E])
}

// Whether bytes begin with a dash that is no plain one.
fn is_dash(rest: &[u8]) -> bool
    ensures { result ≡ is_dash rest.now }
{
    rest.starts_with(&[0xE2, 0x80, 0x91])
        || rest.starts_with(&[0xE2, 0x80, 0x93])
        || rest.starts_with(&[0xE2, 0x80, 0x94])
}

// Whether bytes begin with a byte order mark or a blank of three bytes.
fn is_blank(rest: &[u8]) -> bool
    ensures { result ≡ is_blank rest.now }
{
    rest.starts_with(&[0xEF, 0xBB, 0xBF]) || rest.starts_with(&[0xE2, 0x80, 0xAF])
}

// A byte of ASCII, and a question mark for any other.
fn plain(byte: u8) -> u8
    ensures { result ≡ plain byte }
{
    if byte < 128 { byte } else { b'?' }
}

// Adds a byte of ASCII, and a question mark for any other.
fn push_plain(text: &mut String, byte: u8) -> Result<(), AllocError>
    ensures { OnOk result (string_bytes text.new ≡ string_bytes text.old ++ plain byte ∷ []) }
{
    let byte = plain(byte);
    text.push(char::from(byte))
}

// How many more bytes a character has that begins with this one.
fn more_of(byte: u8) -> usize
    ensures { result ≡ more_of byte }
{
    if byte < 192 {
        0
    } else if byte < 224 {
        1
    } else if byte < 240 {
        2
    } else {
        3
    }
}

// The plain character that is meant where bytes begin, and how many more bytes it takes.
fn meant(rest: &[u8]) -> (u8, usize)
    ensures { result ≡ meant rest.now }
{
    if is_quote(rest) {
        (b'"', 2)
    } else if is_dash(rest) {
        (b'-', 2)
    } else if is_blank(rest) {
        (b' ', 2)
    } else if rest.starts_with(&[0xC2, 0xA0]) {
        (b' ', 1)
    } else if rest.is_empty() {
        (b' ', 0)
    } else {
        (plain(rest[0]), more_of(rest[0]))
    }
}

/// A line as plain keys type it, with one byte for each character: straight quotes, plain dashes and blanks, and a question
/// mark for each other character that isn't ASCII.
pub fn typed(alloc: Global, line: &[u8]) -> Result<String, AllocError>
    ensures { IfOk result (λ text. string_bytes text ≡ typed line.now) }
{
    let mut text = String::new(alloc);
    let mut more = 0;
    for (i, _) in line.iter().enumerate() {
        if more > 0 {
            more -= 1;
        } else {
            let (byte, after) = meant(line.split_at(i).1);
            push_plain(&mut text, byte)?;
            more = after;
        }
    }
    Ok(text)
}

// Whether a byte separates fields there.
fn separates(byte: u8, mark: u8, quoted: bool) -> bool
    ensures { result ≡ separates byte mark quoted }
{
    byte == mark && !quoted
}

// How often a line has this byte outside of quotes.
fn count_outside(line: &[u8], mark: u8) -> usize
    ensures { result ≡ count_outside mark false line.now }
{
    let mut count = 0usize;
    let mut quoted = false;
    for byte in line {
        if *byte == b'"' {
            quoted = !quoted;
        } else if separates(*byte, mark, quoted) {
            count += 1;
        }
    }
    count
}

/// The byte that separates the fields of a line: a comma, a semicolon or a tab, whichever it has most often outside of
/// quotes.
pub fn separator_of(line: &str) -> u8
    ensures { result ≡ separator_of line.now }
{
    let bytes = line.as_bytes();
    let commas = count_outside(bytes, b',');
    let semicolons = count_outside(bytes, b';');
    let tabs = count_outside(bytes, b'\t');
    if commas < tabs && semicolons <= tabs {
        b'\t'
    } else if commas < semicolons {
        b';'
    } else {
        b','
    }
}

/// The fields of a line, without the blanks around them and without quotes.
pub fn cut_line(alloc: Global, line: &str, mark: u8) -> Result<StringRecord, AllocError>
    ensures { IfOk result (λ fields. fields_of fields ≡ fields_in mark line.now) }
{
    let bytes = line.as_bytes();
    let mut fields = StringRecord::new(alloc);
    let mut field = String::new(alloc);
    let mut quoted = false;
    for byte in bytes {
        if *byte == b'"' {
            quoted = !quoted;
        } else if separates(*byte, mark, quoted) {
            fields.push_field(field.as_str().trim())?;
            field.clear();
        } else {
            push_plain(&mut field, *byte)?;
        }
    }
    fields.push_field(field.as_str().trim())?;
    Ok(fields)
}

// Whether a byte is a blank or a quote, before a field begins.
fn is_padding(byte: u8) -> bool
    ensures { result ≡ is_padding byte }
{
    byte == b' ' || byte == b'"'
}

/// Where the field of that number begins in a line, both counted from 0.
pub fn place_in(line: &str, mark: u8, number: usize) -> usize
    ensures { result ≡ place_in mark number line.now }
{
    let bytes = line.as_bytes();
    let mut left = number;
    let mut quoted = false;
    for (i, byte) in bytes.iter().enumerate() {
        if left == 0 {
            if !is_padding(*byte) {
                return i;
            }
        } else if *byte == b'"' {
            quoted = !quoted;
        } else if separates(*byte, mark, quoted) {
            left -= 1;
        }
    }
    bytes.len()
}
