//! Texts, quoted.

ghost use Rattle.std.specs.Prelude.{◌≡◌, ◌++◌, OnOk};
ghost use Rattle.std.specs.List.{flat_map};
ghost use Rattle.report_sql.specs.Literals.{doubled, quoted};

use std::alloc::AllocError;

/// Adds the literal of a text. `Err` says that memory ran out.
#[tactic(auto, unfolding(crate::specs::Literals::quoted))]
pub(crate) fn push_quoted(bytes: &mut Vec<u8>, text: &[u8]) -> Result<(), AllocError>
    ensures { OnOk result (bytes.new.items ≡ bytes.old.items ++ quoted text.now) }
{
    bytes.extend_from_slice(b"'")?;
    push_doubled(bytes, text)?;
    bytes.extend_from_slice(b"'")
}

/// Adds each byte of a text, and a quote twice.
fn push_doubled(bytes: &mut Vec<u8>, text: &[u8]) -> Result<(), AllocError>
    ensures { OnOk result (bytes.new.items ≡ bytes.old.items ++ flat_map doubled text.now) }
{
    for byte in text {
        push_doubled_byte(bytes, *byte)?;
    }
    Ok(())
}

/// Adds a byte, or twice the quote that it is.
fn push_doubled_byte(bytes: &mut Vec<u8>, byte: u8) -> Result<(), AllocError>
    ensures { OnOk result (bytes.new.items ≡ bytes.old.items ++ doubled byte) }
{
    match byte {
        b'\'' => bytes.extend_from_slice(b"''"),
        _ => {
            bytes.push(byte)?;
            Ok(())
        }
    }
}
