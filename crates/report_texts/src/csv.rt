//! Fields of a table for other programs (CSV).

ghost use Rattle.std.specs.Prelude.{◌≡◌, ◌++◌, OnOk};
ghost use Rattle.std.specs.List.{flat_map};
ghost use Rattle.report_texts.specs.Csv.{begins_formula, begins_sign, begins_wide_sign, csv_field, guard, guard_if, is_sign, quote_doubled};

use std::alloc::AllocError;

/// Adds a field of a table: between quotes, with each quote twice, and one that a program for tables would take for a formula with an
/// apostrophe before it. `Err` says that memory ran out.
#[tactic(auto, unfolding(crate::specs::Csv::csv_field))]
pub(crate) fn push_csv_field(bytes: &mut Vec<u8>, text: &[u8]) -> Result<(), AllocError>
    ensures { OnOk result (bytes.new.items ≡ bytes.old.items ++ csv_field text.now) }
{
    bytes.extend_from_slice(b"\"")?;
    push_guard(bytes, text)?;
    push_doubled(bytes, text)?;
    bytes.extend_from_slice(b"\"")
}

/// Adds what comes before a text that begins as a formula does.
fn push_guard(bytes: &mut Vec<u8>, text: &[u8]) -> Result<(), AllocError>
    ensures { OnOk result (bytes.new.items ≡ bytes.old.items ++ guard text.now) }
{
    push_guard_if(bytes, begins_formula(text))
}

fn push_guard_if(bytes: &mut Vec<u8>, begins: bool) -> Result<(), AllocError>
    ensures { OnOk result (bytes.new.items ≡ bytes.old.items ++ guard_if begins) }
{
    if begins {
        bytes.extend_from_slice(b"'")
    } else {
        Ok(())
    }
}

/// Whether a program for tables takes the text for a formula.
fn begins_formula(text: &[u8]) -> bool
    ensures { result ≡ begins_formula text.now }
{
    begins_sign(text) || begins_wide_sign(text)
}

/// Whether a text begins with a byte by which a formula begins.
fn begins_sign(text: &[u8]) -> bool
    ensures { result ≡ begins_sign text.now }
{
    match text.split_first() {
        Some((first, _)) => is_sign(*first),
        None => false,
    }
}

/// Whether a formula begins by this byte, in one program or another.
fn is_sign(byte: u8) -> bool
    ensures { result ≡ is_sign byte }
{
    (byte == b'=' || byte == b'+')
        || ((byte == b'-' || byte == b'@') || (byte == b'\t' || byte == b'\r'))
}

/// Whether a text begins with one of the four signs at full width.
fn begins_wide_sign(text: &[u8]) -> bool
    ensures { result ≡ begins_wide_sign text.now }
{
    (text.starts_with(&[0xEF, 0xBC, 0x9D]) || text.starts_with(&[0xEF, 0xBC, 0x8B]))
        || (text.starts_with(&[0xEF, 0xBC, 0x8D]) || text.starts_with(&[0xEF, 0xBC, 0xA0]))
}

/// Adds each byte of a text, and a quote twice.
fn push_doubled(bytes: &mut Vec<u8>, text: &[u8]) -> Result<(), AllocError>
    ensures { OnOk result (bytes.new.items ≡ bytes.old.items ++ flat_map quote_doubled text.now) }
{
    for byte in text {
        push_doubled_byte(bytes, *byte)?;
    }
    Ok(())
}

/// Adds a byte, or twice the quote that it is.
fn push_doubled_byte(bytes: &mut Vec<u8>, byte: u8) -> Result<(), AllocError>
    ensures { OnOk result (bytes.new.items ≡ bytes.old.items ++ quote_doubled byte) }
{
    match byte {
        b'"' => bytes.extend_from_slice(b"\"\""),
        _ => {
            bytes.push(byte)?;
            Ok(())
        }
    }
}
