//! The line and the column of a place.

ghost use Rattle.std.specs.Prelude.{◌≡◌, ◌+◌, ◌<◌, ◌^◌, count_by, if◌then◌else◌};
ghost use Rattle.court_file_check.specs.Places.Place.{column_of, is_line_end, last_line, line_of, starts_character};

use std::fmt;

/// A place in a text: its line and its column, both counted from 1. A column counts characters.
#[derive(Clone, Copy, Debug, PartialEq, Eq)]
pub struct Place {
    /// The line.
    pub line: usize,
    /// The column.
    pub column: usize,
}

/// The place before which there are `at` bytes of the text. Where the text has fewer, it is the text's end.
pub fn place_at(text: &[u8], at: usize) -> Place
    ensures line { result.line ≡ line_of text.now at }
    ensures column { result.column ≡ column_of text.now at }
{
    let before = match text.get(..at) {
        Some(before) => before,
        None => text,
    };
    place_after(before)
}

/// The place after all bytes of a text.
fn place_after(before: &[u8]) -> Place
    ensures line { result.line ≡ 1 + count_by is_line_end before.now }
    ensures column { result.column ≡ 1 + count_by starts_character (last_line before.now) }
{
    let mut line: usize = 1;
    let mut column: usize = 1;
    for byte in before {
        line = line_after(line, *byte);
        column = column_after(column, *byte);
    }
    Place { line, column }
}

/// The line of the place after one byte more.
fn line_after(line: usize, byte: u8) -> usize
    requires { line < 2 ^ 63 }
    ensures { result ≡ line + (if is_line_end byte then 1 else 0) }
{
    if is_line_end(byte) { line + 1 } else { line }
}

/// Its column.
fn column_after(column: usize, byte: u8) -> usize
    requires { column < 2 ^ 63 }
    ensures { result ≡ (if is_line_end byte then 1 else column + (if starts_character byte then 1 else 0)) }
{
    if is_line_end(byte) {
        return 1;
    }
    if starts_character(byte) {
        column + 1
    } else {
        column
    }
}

/// Whether the byte ends a line.
fn is_line_end(byte: u8) -> bool
    ensures { result ≡ is_line_end byte }
{
    byte == b'\n'
}

/// Whether the byte is the first of a character.
fn starts_character(byte: u8) -> bool
    ensures { result ≡ starts_character byte }
{
    byte < 128 || byte >= 192
}

/// Writes the place as `12:15`.
impl fmt::Display for Place {
    ghost use Rattle.std.specs.Prelude.{Some};
    ghost use Rattle.court_file_check.specs.Places.Place.{place_text};

    ghost output = { λ place. Some (place_text place.line place.column) };

    fn fmt<W: fmt::Write>(&self, f: &mut fmt::Formatter<W>) -> fmt::Result {
        let (line, column) = (self.line, self.column);
        write!(f, "{line}:{column}")
    }
}
