//! The line of a file that is no TOML.

use crate::places::place_at;
use crate::report::sheet::Sheet;
use std::alloc::AllocError;
use toml::de::Error;

/// Adds the line of a file that is no TOML.
pub(crate) fn push_syntax(sheet: &mut Sheet<'_>, error: &Error) -> Result<(), AllocError> {
    let bytes = sheet.bytes();
    let start = match error.span() {
        Some(span) => span.start,
        None => 0,
    };
    let found = found_at(bytes, start, error.message());
    let place = place_at(bytes, found.at);
    sheet.begin(Some(place))?;
    sheet.text.push_str("this is no TOML: ")?;
    sheet.end(found.says)
}

/// What is wrong, and before which byte.
#[derive(Clone, Copy)]
struct Found {
    at: usize,
    says: &'static str,
}

/// What is wrong at the byte where the crate `toml` stops with this message.
fn found_at(bytes: &[u8], start: usize, message: &str) -> Found {
    if message.starts_with("invalid UTF-8") {
        return Found {
            at: start,
            says: encoding_hint(bytes),
        };
    }
    if bytes.contains(&b'\r') && !bytes.contains(&b'\n') {
        return Found {
            at: start,
            says: "the lines end with CR alone, as on old Macs; save the file with the line ends of Windows or Unix",
        };
    }
    let (begin, end) = line_around(bytes, start);
    let line = bytes.get(begin..end).unwrap_or(&[]);
    if let Some((place, says)) = odd_character(line) {
        return Found {
            at: begin.saturating_add(place),
            says,
        };
    }
    let is_key = is_key_at(bytes, begin, start, line);
    if message.starts_with("missing comma between array") {
        return missing_comma(bytes, start, is_key);
    }
    Found {
        at: start,
        says: if message.starts_with("invalid value") && is_key {
            NOT_CLOSED
        } else {
            hint_of(message, line)
        },
    }
}

/// What to do with a file that isn't UTF-8.
fn encoding_hint(bytes: &[u8]) -> &'static str {
    match bytes {
        [0xFF, 0xFE, ..] | [0xFE, 0xFF, ..] => {
            "the file is UTF-16, which Windows calls Unicode; save it as UTF-8"
        }
        _ => {
            "the file isn't UTF-8 here, as where an old Windows program wrote a curly quote or a letter with an accent; save it as UTF-8"
        }
    }
}

/// Where the line around a byte begins and ends.
fn line_around(bytes: &[u8], at: usize) -> (usize, usize) {
    let before = bytes.get(..at).unwrap_or(bytes);
    let begin = match before.iter().rposition(|byte| *byte == b'\n') {
        Some(place) => place.saturating_add(1),
        None => 0,
    };
    let rest = bytes.get(at..).unwrap_or(&[]);
    let end = match rest.iter().position(|byte| *byte == b'\n') {
        Some(place) => at.saturating_add(place),
        None => bytes.len(),
    };
    (begin, end)
}

/// The characters that look like what TOML has, by their bytes, and what to do with them.
const ODD: [(&[u8], &str); 15] = [
    (b"\xE2\x80\x9C", CURLY),
    (b"\xE2\x80\x9D", CURLY),
    (b"\xE2\x80\x9E", CURLY),
    (b"\xE2\x80\x98", CURLY),
    (b"\xE2\x80\x99", CURLY),
    (b"\xE2\x80\x9A", CURLY),
    (b"\xC2\xAB", CURLY),
    (b"\xC2\xBB", CURLY),
    (b"\xEF\xBC\x82", CURLY),
    (b"\xC2\xB4", CURLY),
    (b"\xC2\xA0", BLANK),
    (b"\xE2\x80\x8B", BLANK),
    (b"\xEF\xBB\xBF", MARK),
    (b"\xEF\xBC\x8C", COMMA),
    (b"%%", DIVIDER),
];

const CURLY: &str = "this is a curly quote, as word processors write them; write straight ones, \"";

const BLANK: &str = "this is a blank of another kind, which can't be seen; write a plain one";

const MARK: &str =
    "here is a byte order mark, which can't be seen, and may be at the file's beginning alone; delete it";

const COMMA: &str = "this is a wide comma; write a plain one";

const DIVIDER: &str =
    "a line %% ends the court's file where rows come after it; check the court's file alone, without this line and the rows";

/// The first such character of a line before its comment, how many bytes are before it, and what to do with it.
fn odd_character(line: &[u8]) -> Option<(usize, &'static str)> {
    let code = without_comment(line);
    for (place, _) in code.iter().enumerate() {
        let rest = code.get(place..).unwrap_or(&[]);
        if let Some(says) = odd_front(rest) {
            return Some((place, says));
        }
    }
    None
}

/// What to do with the character at the front, if it is such a one.
fn odd_front(rest: &[u8]) -> Option<&'static str> {
    for (odd, says) in &ODD {
        if rest.starts_with(*odd) {
            return Some(*says);
        }
    }
    None
}

/// What a line has before its comment.
fn without_comment(line: &[u8]) -> &[u8] {
    match line.iter().position(|byte| *byte == b'#') {
        Some(place) => line.get(..place).unwrap_or(line),
        None => line,
    }
}

/// What is wrong where a key comes within a list.
const NOT_CLOSED: &str = "the list above isn't closed: write ] before this line";

/// A list goes on otherwise than with a comma or its bracket; `is_key` says whether with a key.
fn missing_comma(bytes: &[u8], start: usize, is_key: bool) -> Found {
    match bytes.get(start..) {
        None | Some([]) => Found {
            at: last_end(bytes, start),
            says: "the list isn't closed: write ] after its last item",
        },
        Some([b';', ..]) => Found {
            at: start,
            says: "items are divided by commas; write , in place of ;",
        },
        Some([b'"', b',', ..]) | Some([b'"', b'\n', ..]) | Some([b'"', b'\r', ..]) => Found {
            at: start,
            says: "this quote closes what none opened; write one before the item too",
        },
        Some([b'/', ..]) => Found {
            at: start,
            says: "a date is a text in quotes, written as \"2025-09-01\" (a spreadsheet may have changed it)",
        },
        _ if is_key => Found {
            at: start,
            says: NOT_CLOSED,
        },
        _ => Found {
            at: last_end(bytes, start),
            says: "a comma is missing after this item",
        },
    }
}

/// Whether a line that begins after `begin` bytes has nothing before the byte at `start`, and there a key and `=`.
fn is_key_at(bytes: &[u8], begin: usize, start: usize, line: &[u8]) -> bool {
    let before = bytes.get(begin..start).unwrap_or(&[]);
    if !before.iter().all(|byte| byte.is_ascii_whitespace()) {
        return false;
    }
    match line.iter().position(|byte| *byte == b'=') {
        Some(place) => match line.get(..place) {
            Some(key) => key.iter().all(|byte| is_key_byte(*byte)),
            None => false,
        },
        None => false,
    }
}

fn is_key_byte(byte: u8) -> bool {
    byte.is_ascii_alphabetic() || byte == b'_' || byte == b' '
}

/// How many bytes there are before the end of what comes last before a byte, without blanks, line ends and comments.
fn last_end(bytes: &[u8], at: usize) -> usize {
    let mut end = at;
    for _ in 0..at {
        let (begin, _) = line_around(bytes, end);
        let code = without_comment(bytes.get(begin..end).unwrap_or(&[]));
        if let Some(last) = code.iter().rposition(|byte| !byte.is_ascii_whitespace()) {
            return begin.saturating_add(last).saturating_add(1);
        }
        if begin == 0 {
            return at;
        }
        end = begin.saturating_sub(1);
    }
    at
}

/// What to do where the crate `toml` stops in a line with this message.
fn hint_of(message: &str, line: &[u8]) -> &'static str {
    if message.starts_with("invalid string") {
        return "the text isn't closed in its line: a quote is missing at its end";
    }
    if message.starts_with("duplicate key") {
        return "the key is there before; leave one of the two out";
    }
    if message.starts_with("invalid escape") {
        return "a backslash begins a special character in a text; leave it out";
    }
    if message.starts_with("unexpected key or value") {
        return "the line goes on after its value; a list is in square brackets, as [\"2025-01-01\", \"2025-01-20\"], and a comment begins with #";
    }
    if message.starts_with("invalid key") || message.starts_with("key with no value") {
        return key_hint(line);
    }
    if message.starts_with("unclosed") {
        return "the line begins with [ and has no closing ]";
    }
    if message.starts_with("invalid date-time") || message.starts_with("number out of range") {
        return "this is no date that TOML has; the court's file has dates as texts, in quotes: \"2025-09-01\"";
    }
    "a value is missing or isn't in quotes: a text is in straight double quotes, as \"17:00\", and a list in square brackets"
}

/// Whether the line has a colon before any quote and `=`.
fn has_colon_after_key(line: &[u8]) -> bool {
    match line
        .iter()
        .position(|byte| *byte == b':' || *byte == b'"' || *byte == b'=')
    {
        Some(place) => line.get(place) == Some(&b':'),
        None => false,
    }
}

/// What to do with a line that begins with no key and `=`.
fn key_hint(line: &[u8]) -> &'static str {
    if line.starts_with(b"\"") || line.starts_with(b",") {
        return "a line begins with a key and =, as closes = \"17:00\"; a spreadsheet may have put this one in quotes";
    }
    if has_colon_after_key(line) {
        return "write = between the key and its value, and no colon";
    }
    "a line begins with a key and =, as closes = \"17:00\"; a comment begins with #"
}
