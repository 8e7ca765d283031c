//! Bytes as they are shown, so that no control character reaches a terminal.
ghost use Rattle.std.specs.Prelude.{◌≡◌, ◌++◌, ◌∷◌, ◌<◌, ◌≤◌, length, IfOk, OnOk};
ghost use Rattle.desk_program.specs.Shown.{are_control, byte_shown, end_shown, escaped, hex_digit, lines_shown, shown};

use std::alloc::{AllocError, Global};

/// What becomes of the line feeds of a text that is shown.
#[derive(Clone, Copy, Debug, PartialEq, Eq)]
pub(crate) enum LineEnds {
    /// They are escaped as other control characters are.
    Escaped,
    /// They stay.
    Kept,
    /// They stay, with two blanks after each.
    Indented,
}

// A digit to the base 16.
fn hex_digit(n: u8) -> u8
    requires { n < 16 }
    ensures { result ≡ hex_digit n }
{
    if n < 10 { b'0' + n } else { b'a' - 10 + n }
}

// Adds a control character as it is shown, by its number.
fn push_escaped(text: &mut Vec<u8>, number: u8) -> Result<(), AllocError>
    ensures { OnOk result (text.new.items ≡ text.old.items ++ escaped number) }
{
    text.extend_from_slice(b"\\x")?;
    text.push(hex_digit(number / 16))?;
    text.push(hex_digit(number % 16))?;
    Ok(())
}

// Adds the end of a line as it is shown.
fn push_end(text: &mut Vec<u8>, ends: LineEnds) -> Result<(), AllocError>
    ensures { OnOk result (text.new.items ≡ text.old.items ++ end_shown ends) }
{
    match ends {
        LineEnds::Escaped => push_escaped(text, b'\n'),
        LineEnds::Kept => text.extend_from_slice(b"\n"),
        LineEnds::Indented => text.extend_from_slice(b"\n  "),
    }
}

// Adds a byte as it is shown.
fn push_byte(text: &mut Vec<u8>, byte: u8, ends: LineEnds) -> Result<(), AllocError>
    ensures { OnOk result (text.new.items ≡ text.old.items ++ byte_shown ends byte) }
{
    if byte == b'\n' {
        return push_end(text, ends);
    }
    if byte < 32 || byte == 127 {
        return push_escaped(text, byte);
    }
    text.push(byte)?;
    Ok(())
}

// Whether two bytes are one control character.
fn are_control(first: u8, second: u8) -> bool
    ensures { result ≡ are_control first second }
{
    first == 0xC2 && second >= 0x80 && second < 0xA0
}

// Adds what bytes begin with, a control character or another byte, and gives the bytes after it.
#[tactic(auto, unfolding(crate::specs::Shown::shown))]
fn push_first<'a>(
    text: &mut Vec<u8>,
    first: u8,
    after: &'a [u8],
    ends: LineEnds,
) -> Result<&'a [u8], AllocError>
    ensures shown { IfOk result (λ rest. text.new.items ++ shown ends rest.now ≡ text.old.items ++ shown ends (first ∷ after.now)) }
    ensures shorter { IfOk result (λ rest. length rest.now ≤ length after.now) }
{
    match after.split_first() {
        Some((next, later)) if are_control(first, *next) => {
            push_escaped(text, *next)?;
            Ok(later)
        }
        _ => {
            push_byte(text, first, ends)?;
            Ok(after)
        }
    }
}

/// Adds bytes as they are shown.
#[tactic(auto, unfolding(crate::specs::Shown::shown))]
pub(crate) fn push_shown(text: &mut Vec<u8>, bytes: &[u8], ends: LineEnds) -> Result<(), AllocError>
    ensures { OnOk result (text.new.items ≡ text.old.items ++ shown ends bytes.now) }
{
    let mut rest = bytes;
    while let Some((first, after)) = rest.split_first() {
        rest = push_first(text, *first, after, ends)?;
    }
    Ok(())
}

/// The bytes of a text with lines: each control character but the ends of lines as `\x1b`. `Err` says that memory ran out.
pub fn lines_shown(alloc: Global, bytes: &[u8]) -> Result<Vec<u8>, AllocError>
    ensures { IfOk result (λ text. text.items ≡ lines_shown bytes.now) }
{
    let mut text = Vec::new(alloc);
    push_shown(&mut text, bytes, LineEnds::Kept)?;
    Ok(text)
}
