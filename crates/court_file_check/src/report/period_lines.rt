//! The lines of warnings about the names that a file gives to periods, and to sets of them.

use crate::places::place_at;
use crate::report::sheet::{Sheet, shown};
use court_file_text::{is_name, is_printed};
use row_fields::{Said, cut_line, folded, section_said};
use std::alloc::AllocError;
use toml::{Table, Value};

/// The table that has the texts of periods, and the one in it that says where they are from.
const PERIODS: &str = "periods";

const CITE: &str = "cite";

/// The table that has sets of periods.
const TRIGGERS: &str = "triggers";

/// The table that has short names of judges and rooms.
pub(crate) const SHORT_NAMES: &str = "short_names";

/// Adds a line for each entry of the table of periods that no row can name.
pub(crate) fn push_periods(sheet: &mut Sheet<'_>, file: &Table) -> Result<(), AllocError> {
    let Some(value) = file.get(PERIODS) else {
        return Ok(());
    };
    let Some(table) = value.as_table() else {
        begin(sheet, "", PERIODS)?;
        return sheet.end(
            "this is no table, and nothing reads it; write [periods] in a line, and below it a line such as opposition = \"14d/after/service/served/plain\"",
        );
    };
    for (name, value) in table.iter() {
        let name = name.as_str();
        match value.as_table() {
            Some(cites) if name == CITE => push_cites(sheet, table, cites)?,
            _ => push_period(sheet, name, value)?,
        }
    }
    Ok(())
}

/// Adds a line for each set of periods that no row can name, or of which one is none.
pub(crate) fn push_triggers(sheet: &mut Sheet<'_>, file: &Table) -> Result<(), AllocError> {
    let Some(value) = file.get(TRIGGERS) else {
        return Ok(());
    };
    let Some(table) = value.as_table() else {
        begin(sheet, "", TRIGGERS)?;
        return sheet.end(
            "this is no table, and nothing reads it; write [triggers] in a line, and below it a line such as judgment = \"50b, 59e\"",
        );
    };
    for (name, value) in table.iter() {
        push_set(sheet, file, name.as_str(), value)?;
    }
    Ok(())
}

/// Adds a line for a set that no row can name, or of which a period is none.
fn push_set(
    sheet: &mut Sheet<'_>,
    file: &Table,
    name: &str,
    value: &Value,
) -> Result<(), AllocError> {
    let Some(text) = value.as_str() else {
        begin(sheet, "[triggers]", name)?;
        return sheet.end("this is no text, and nothing reads it; a set is written as \"50b, 59e\"");
    };
    if !is_name(name) || !is_printed(text) {
        begin(sheet, "[triggers]", name)?;
        return sheet.end(
            "nothing reads this; a name is of 1 to 32 letters, digits, -, _ and ., and a set is written as \"50b, 59e\"",
        );
    }
    let periods = cut_line(sheet.alloc(), text, b',')?;
    for i in 0..periods.len() {
        let period = periods.get(i).unwrap_or("");
        if !is_period(period) && !is_known(sheet, file, period)? {
            begin(sheet, "[triggers]", name)?;
            let part = shown(period.as_bytes(), 0, period.len());
            write!(sheet.text, "{part} is no period")?;
            sheet.end(
                ", and rows that name this set are faults; its periods are as rows name them, with commas between them",
            )?;
        }
    }
    Ok(())
}

/// Whether a text names a period: a section that sets one, or a name of the file.
fn is_known(sheet: &Sheet<'_>, file: &Table, text: &str) -> Result<bool, AllocError> {
    let word = folded(sheet.alloc(), text)?;
    match section_said(word.as_str()) {
        Said::Clear(_) => Ok(true),
        Said::Unclear(_, _) => Ok(false),
        Said::Unknown => match file.get(PERIODS).and_then(Value::as_table) {
            Some(table) => Ok(table.get(text).is_some()),
            None => Ok(false),
        },
    }
}

/// Adds a line for a period that no row can name.
fn push_period(sheet: &mut Sheet<'_>, name: &str, value: &Value) -> Result<(), AllocError> {
    if !is_name(name) {
        begin(sheet, "[periods]", name)?;
        return sheet.end("nothing reads this; a name is of 1 to 32 letters, digits, -, _ and .");
    }
    match value.as_str() {
        Some(text) if is_period(text) => push_hidden(sheet, name),
        _ => {
            begin(sheet, "[periods]", name)?;
            sheet.end(
                "this is no period, and rows that name it are faults; a period is written as \"14d/after/service/served/plain\"",
            )
        }
    }
}

/// Adds a line for a name that rows read as another period, since it is that of a section of the Rules or of a statute.
fn push_hidden(sheet: &mut Sheet<'_>, name: &str) -> Result<(), AllocError> {
    let word = folded(sheet.alloc(), name)?;
    match section_said(word.as_str()) {
        Said::Unknown => Ok(()),
        Said::Clear(_) | Said::Unclear(_, _) => {
            begin(sheet, "[periods]", name)?;
            sheet.end(
                "rows mean a section of the Rules or of a statute by this; give the period another name",
            )
        }
    }
}

/// Adds a line for each citation of nothing.
fn push_cites(sheet: &mut Sheet<'_>, table: &Table, cites: &Table) -> Result<(), AllocError> {
    for (name, value) in cites.iter() {
        let name = name.as_str();
        let is_read = match value.as_str() {
            Some(text) => is_printed(text),
            None => false,
        };
        if !is_read {
            begin(sheet, "[periods.cite]", name)?;
            sheet.end(
                "this is no text that can be shown in a line, and nothing reads it; write it as \"LRCiv 7.2(c)\"",
            )?;
        } else if table.get(name).is_none() {
            begin(sheet, "[periods.cite]", name)?;
            sheet.end("[periods] has no such name")?;
        }
    }
    Ok(())
}

/// Begins a line about a name, at its line below a header.
pub(crate) fn begin(sheet: &mut Sheet<'_>, header: &str, name: &str) -> Result<(), AllocError> {
    let bytes = sheet.bytes();
    match start_of(bytes, header.as_bytes(), name.as_bytes()) {
        Some(at) => sheet.begin(Some(place_at(bytes, at)))?,
        None => sheet.begin(None)?,
    }
    let name = shown_name(name);
    let table = if header == "[triggers]" || name == TRIGGERS {
        TRIGGERS
    } else if header == "[short_names]" || name == SHORT_NAMES {
        SHORT_NAMES
    } else {
        PERIODS
    };
    write!(sheet.text, "warning: {table}: {name}: ")
}

/// A name as it is shown: cut where it is long, and none where it can't be shown in a line.
fn shown_name(name: &str) -> &str {
    if is_printed(name) {
        shown(name.as_bytes(), 0, name.len())
    } else {
        "a name"
    }
}

/// How many bytes come before the first line that begins with the name, below a line with this header.
fn start_of(bytes: &[u8], header: &[u8], name: &[u8]) -> Option<usize> {
    let mut is_below = header.is_empty();
    let mut is_first = true;
    for (at, byte) in bytes.iter().enumerate() {
        if is_first {
            let written = bytes.get(at..).unwrap_or(&[]);
            if written.starts_with(b"[") {
                is_below = written.starts_with(header);
            } else if is_below && is_key(written, name) {
                return Some(at);
            }
        }
        is_first = *byte == b'\n';
    }
    None
}

/// Whether a line begins with this key, with or without a double quote before it.
fn is_key(line: &[u8], name: &[u8]) -> bool {
    match line {
        [b'"', rest @ ..] => is_word(rest, name),
        _ => is_word(line, name),
    }
}

/// Whether a text begins with this word, and goes on with no byte of a key.
fn is_word(text: &[u8], word: &[u8]) -> bool {
    text.starts_with(word)
        && match text.get(word.len()) {
            Some(byte) => !byte.is_ascii_alphanumeric() && *byte != b'-' && *byte != b'_',
            None => true,
        }
}

/// Whether a text is that of a period which is entered: `LENGTH/DIRECTION/ACT/FROM/MARK`.
fn is_period(text: &str) -> bool {
    let Some((length, rest)) = text.split_once('/') else {
        return false;
    };
    let Some((direction, rest)) = rest.split_once('/') else {
        return false;
    };
    let Some((act, rest)) = rest.split_once('/') else {
        return false;
    };
    let Some((from, mark)) = rest.split_once('/') else {
        return false;
    };
    is_length(length)
        && (direction == "after" || direction == "before")
        && (act == "filing" || act == "service")
        && (from == "event" || from == "served")
        && MARKS.iter().any(|known| *known == mark)
}

/// The marks of periods.
const MARKS: [&str; 8] = ["plain", "50b", "50d", "52b", "59b", "59d", "59e", "60b"];

/// Whether a text is a length: 1 to 3650 days, or 1 to 8760 hours.
fn is_length(text: &str) -> bool {
    match text.strip_suffix("d") {
        Some(digits) => is_count(digits.as_bytes(), 3650),
        None => match text.strip_suffix("h") {
            Some(digits) => is_count(digits.as_bytes(), 8760),
            None => false,
        },
    }
}

/// Whether digits write a number from 1 to this one, of at most four digits and with no zero before it.
fn is_count(digits: &[u8], most: u32) -> bool {
    if digits.is_empty() || digits.len() > 4 || digits.starts_with(b"0") {
        return false;
    }
    let mut count = 0u32;
    for digit in digits {
        if !digit.is_ascii_digit() {
            return false;
        }
        count = count
            .saturating_mul(10)
            .saturating_add(u32::from(digit.saturating_sub(b'0')));
    }
    count <= most
}
