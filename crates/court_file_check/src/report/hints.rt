//! What to write in place of what is wrong.

use court_file_text::Key;

/// What may be written at a key.
pub(crate) fn example_of(key: Key) -> &'static str {
    match key {
        Key::Zone => "\"EST5EDT,M3.2.0/2,M11.1.0/2\"",
        Key::Opens => "\"08:30\"",
        Key::Closes => "\"17:00\"",
        Key::From => "\"2025-01-01\"",
        Key::To => "\"2030-12-31\"",
        Key::Federal => "[\"2025-01-01\", \"2025-01-20\"]",
        Key::State => "[]",
        Key::Judges => "[\"Ames\", \"Brandt\"]",
        Key::Rooms => "[\"11A\", \"11B\"]",
        Key::EfilingUntil => "\"18:00\"",
    }
}

/// What to write in place of a text that is no date.
pub(crate) fn date_hint(text: &str) -> &'static str {
    if text.contains('/') {
        return "a date is written as 2025-09-01: year, month, day (a spreadsheet may have changed it)";
    }
    if has_shape_of_date(text.as_bytes()) {
        return "the calendar has no such day, or its year isn't one from 1900 to 2199";
    }
    "a date is written as 2025-09-01: year, month, day, with two digits for month and day"
}

/// Whether the text has the shape of a date: digits, and `-` after the fourth and after the sixth of them.
fn has_shape_of_date(text: &[u8]) -> bool {
    match text {
        [a, b, c, d, b'-', e, f, b'-', g, h] => {
            are_digits(&[*a, *b, *c, *d]) && are_digits(&[*e, *f, *g, *h])
        }
        _ => false,
    }
}

fn are_digits(bytes: &[u8]) -> bool {
    bytes.iter().all(|byte| byte.is_ascii_digit())
}

/// What to write in place of what is no time of day.
pub(crate) fn time_hint(shown: &str) -> &'static str {
    let bytes = shown.as_bytes();
    if bytes.iter().any(|byte| *byte == b'p' || *byte == b'P') {
        return "a time is written as 17:00, from 00:00 to 23:59, without p.m.: add 12 to its hour";
    }
    "a time is written as 08:30: two digits, a colon, two digits, from 00:00 to 23:59"
}

/// The zones of which people write the names, by a part of the name, and what to write in their place.
const ZONES: [(&str, &str); 13] = [
    ("New_York", "write \"EST5EDT,M3.2.0/2,M11.1.0/2\""),
    ("Eastern", "write \"EST5EDT,M3.2.0/2,M11.1.0/2\""),
    ("Detroit", "write \"EST5EDT,M3.2.0/2,M11.1.0/2\""),
    ("Chicago", "write \"CST6CDT,M3.2.0/2,M11.1.0/2\""),
    ("Central", "write \"CST6CDT,M3.2.0/2,M11.1.0/2\""),
    ("Denver", "write \"MST7MDT,M3.2.0/2,M11.1.0/2\""),
    ("Mountain", "write \"MST7MDT,M3.2.0/2,M11.1.0/2\""),
    ("Phoenix", "write \"MST7\""),
    ("Los_Angeles", "write \"PST8PDT,M3.2.0/2,M11.1.0/2\""),
    ("Pacific", "write \"PST8PDT,M3.2.0/2,M11.1.0/2\""),
    ("Anchorage", "write \"AKST9AKDT,M3.2.0/2,M11.1.0/2\""),
    ("Honolulu", "write \"HST10\""),
    ("Puerto_Rico", "write \"AST4\""),
];

/// What to write in place of what is no zone.
pub(crate) fn zone_hint(shown: &str) -> &'static str {
    for (part, hint) in &ZONES {
        if shown.contains(*part) {
            return hint;
        }
    }
    "write an offset from Greenwich, as \"-07:00\", or a POSIX rule with the days on which the clocks change, as \"EST5EDT,M3.2.0/2,M11.1.0/2\"; docs/FORMATS.md has that of each district"
}
