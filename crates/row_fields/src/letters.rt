//! Letters and digits of a text.

ghost use Rattle.std.specs.Prelude.{◌≡◌, IfOk, OnOk, ◌++◌, ◌∷◌, [], ◌<◌, string_bytes};
ghost use Rattle.row_fields.specs.Letters.{bare, folded, is_slack, small, staying};

use std::alloc::{AllocError, Global};

/// A text in small letters, with its letters and digits alone. Where signs between two digits are left out, a blank is in
/// their place.
pub fn folded(alloc: Global, text: &str) -> Result<String, AllocError>
    ensures { IfOk result (λ word. string_bytes word ≡ folded text.now) }
{
    let bytes = text.as_bytes();
    let mut word = String::new(alloc);
    let mut last = 0u8;
    let mut gap = false;
    for byte in bytes {
        if byte.is_ascii_alphanumeric() {
            push_staying(&mut word, gap, last, *byte)?;
            last = *byte;
            gap = false;
        } else {
            gap = true;
        }
    }
    Ok(word)
}

/// A text in small letters, without its blanks and without dots after letters. A blank between two digits stays. A character
/// that isn't ASCII becomes a question mark.
pub fn bare(alloc: Global, text: &str) -> Result<String, AllocError>
    ensures { IfOk result (λ word. string_bytes word ≡ bare text.now) }
{
    let bytes = text.as_bytes();
    let mut word = String::new(alloc);
    let mut last = 0u8;
    let mut gap = false;
    for byte in bytes {
        if is_slack(last, *byte) {
            gap = true;
        } else {
            push_staying(&mut word, gap, last, *byte)?;
            last = *byte;
            gap = false;
        }
    }
    Ok(word)
}

// Whether a byte is a blank, a dot after a letter, or goes on with a character.
fn is_slack(last: u8, byte: u8) -> bool
    ensures { result ≡ is_slack last byte }
{
    byte == b' ' || (byte == b'.' && last.is_ascii_alphabetic()) || (byte >= 128 && byte < 192)
}

// Adds a byte that stays as a small letter, and a blank before it where it is the digit of another number than the last.
fn push_staying(word: &mut String, gap: bool, last: u8, byte: u8) -> Result<(), AllocError>
    ensures { OnOk result (string_bytes word.new ≡ string_bytes word.old ++ staying gap last byte) }
{
    if gap && last.is_ascii_digit() && byte.is_ascii_digit() {
        word.push(' ')?;
    }
    push_small(word, byte)
}

// A byte as a small letter.
fn small(byte: u8) -> u8
    ensures small { result ≡ small byte }
    ensures ascii { result < 128 }
{
    if byte < 128 {
        byte.to_ascii_lowercase()
    } else {
        b'?'
    }
}

/// Adds a byte as a small letter.
pub(crate) fn push_small(word: &mut String, byte: u8) -> Result<(), AllocError>
    ensures { OnOk result (string_bytes word.new ≡ string_bytes word.old ++ small byte ∷ []) }
{
    word.push(char::from(small(byte)))
}
