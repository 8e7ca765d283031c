//! Texts, escaped.

ghost use Rattle.std.specs.Prelude.{◌≡◌, ◌≤◌, ◌++◌, ◌∷◌, [], OnOk, false, length, take};
ghost use Rattle.std.specs.List.{flat_map};
ghost use Rattle.page_markup.specs.Escaping.{escaped, escaped_byte};

use std::alloc::AllocError;

/// Adds a text, escaped. `Err` says that memory ran out.
#[tactic(auto, unfolding(crate::specs::Escaping::escaped))]
pub(crate) fn push_escaped(bytes: &mut Vec<u8>, text: &str) -> Result<(), AllocError>
    ensures { OnOk result (bytes.new.items ≡ bytes.old.items ++ escaped text.now) }
{
    push_escaped_bytes(bytes, text.as_bytes())
}

/// Whether a byte has a meaning in a page.
fn has_meaning(byte: u8) -> bool
    ensures { result ≡ false → escaped_byte byte ≡ byte ∷ [] }
{
    match byte {
        b'&' | b'<' | b'>' | b'"' | b'\'' => true,
        _ => false,
    }
}

/// With how many bytes a text begins that have no meaning.
fn plain_len(text: &[u8]) -> usize
    ensures few { result ≤ length text.now }
    ensures plain { flat_map escaped_byte (take result text.now) ≡ take result text.now }
{
    for place in 0..text.len() {
        if has_meaning(text[place]) {
            return place;
        }
    }
    text.len()
}

/// Adds each byte of a text, escaped: those that have no meaning in one piece, up to the next that has one.
fn push_escaped_bytes(bytes: &mut Vec<u8>, text: &[u8]) -> Result<(), AllocError>
    ensures { OnOk result (bytes.new.items ≡ bytes.old.items ++ flat_map escaped_byte text.now) }
{
    let mut rest = text;
    while !rest.is_empty() {
        let (plain, others) = rest.split_at(plain_len(rest));
        bytes.extend_from_slice(plain)?;
        match others.split_first() {
            Some((byte, later)) => {
                push_escaped_byte(bytes, *byte)?;
                rest = later;
            }
            None => return Ok(()),
        }
    }
    Ok(())
}

/// Adds a byte, or the reference to the character that it is.
fn push_escaped_byte(bytes: &mut Vec<u8>, byte: u8) -> Result<(), AllocError>
    ensures { OnOk result (bytes.new.items ≡ bytes.old.items ++ escaped_byte byte) }
{
    match byte {
        b'&' => bytes.extend_from_slice(b"&amp;"),
        b'<' => bytes.extend_from_slice(b"&lt;"),
        b'>' => bytes.extend_from_slice(b"&gt;"),
        b'"' => bytes.extend_from_slice(b"&quot;"),
        b'\'' => bytes.extend_from_slice(b"&#39;"),
        _ => {
            bytes.push(byte)?;
            Ok(())
        }
    }
}
