//! Zones that no court of the United States has.

use court_clock::Day;
use court_file_text::{Key, text_at};
use toml::Table;

/// 2006-12-31, the last day before the changes of the clocks that are those of today.
const LAST_BEFORE: i32 = 13_513;

/// The clocks of the district courts that change twice a year, by the beginning of their rule.
const CHANGING: [&str; 5] = ["EST5EDT", "CST6CDT", "MST7MDT", "PST8PDT", "AKST9AKDT"];

/// The clocks of the others.
const FIXED: [&str; 8] = [
    "MST7", "-07:00", "HST10", "-10:00", "AST4", "-04:00", "ChST-10", "+10:00",
];

/// The changes since 2007, in the ways in which they are written.
const SINCE_2007: [&str; 4] = [
    "M3.2.0/2,M11.1.0/2",
    "M3.2.0,M11.1.0",
    "M3.2.0/2:00,M11.1.0/2:00",
    "M3.2.0/02:00:00,M11.1.0/02:00:00",
];

/// Those from 1987 to 2006.
const UNTIL_2006: [&str; 2] = ["M4.1.0/2,M10.5.0/2", "M4.1.0,M10.5.0"];

/// What is unusual of a zone.
#[derive(Clone, Copy, Debug, PartialEq, Eq)]
pub enum ZoneDoubt {
    /// No district court of the United States has such a clock.
    NoCourtHasIt,
    /// The clock is one of theirs, but it doesn't change when theirs do.
    OtherChanges,
    /// It changes as theirs did from 1987 to 2006, but the span goes on after that.
    OldChanges,
}

/// What is unusual of the zone, in a court whose span ends with that day.
pub(crate) fn zone_doubt(file: &Table, to: Day) -> Option<ZoneDoubt> {
    let Ok(text) = text_at(file, Key::Zone) else {
        return None;
    };
    if is_among(&FIXED[..], text) {
        return None;
    }
    let Some((clock, changes)) = text.split_once(',') else {
        return Some(ZoneDoubt::NoCourtHasIt);
    };
    if !is_among(&CHANGING[..], clock) {
        return Some(ZoneDoubt::NoCourtHasIt);
    }
    changes_doubt(changes, to)
}

/// What is unusual of the changes of a clock.
fn changes_doubt(changes: &str, to: Day) -> Option<ZoneDoubt> {
    if is_among(&SINCE_2007[..], changes) {
        return None;
    }
    if !is_among(&UNTIL_2006[..], changes) {
        return Some(ZoneDoubt::OtherChanges);
    }
    if to.number() > LAST_BEFORE {
        return Some(ZoneDoubt::OldChanges);
    }
    None
}

/// Whether the text is one of these.
fn is_among(texts: &[&str], text: &str) -> bool {
    texts.iter().any(|other| *other == text)
}
