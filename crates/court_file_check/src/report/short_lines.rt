//! The lines of warnings about short names of judges and rooms.

use crate::report::period_lines::{SHORT_NAMES, begin};
use crate::report::sheet::Sheet;
use court_file_text::{Key, is_name};
use std::alloc::AllocError;
use toml::{Table, Value};

/// Adds a line for each short name that rows can't have, or that stands for nobody.
pub(crate) fn push_short_names(sheet: &mut Sheet<'_>, file: &Table) -> Result<(), AllocError> {
    let Some(value) = file.get(SHORT_NAMES) else {
        return Ok(());
    };
    let Some(table) = value.as_table() else {
        begin(sheet, "", SHORT_NAMES)?;
        return sheet.end(
            "this is no table, and nothing reads it; write [short_names] in a line, and below it a line such as Brown = \"Judith A. Brown\"",
        );
    };
    for (name, value) in table.iter() {
        push_short_name(sheet, file, name.as_str(), value)?;
    }
    Ok(())
}

/// Adds a line for a short name that rows can't have, or that stands for nobody.
fn push_short_name(
    sheet: &mut Sheet<'_>,
    file: &Table,
    name: &str,
    value: &Value,
) -> Result<(), AllocError> {
    if !is_name(name) {
        begin(sheet, "[short_names]", name)?;
        return sheet.end("nothing reads this; a name is of 1 to 32 letters, digits, -, _ and .");
    }
    if is_listed(file, Key::Judges, value) || is_listed(file, Key::Rooms, value) {
        return Ok(());
    }
    begin(sheet, "[short_names]", name)?;
    sheet.end("no judge and no room has this name; write it as their list has it")
}

/// Whether the list at a key has this name.
fn is_listed(file: &Table, key: Key, name: &Value) -> bool {
    match file.get(key.name()).and_then(Value::as_array) {
        Some(values) => values.iter().any(|value| is_same(value, name)),
        None => false,
    }
}

/// Whether two values are the same text.
fn is_same(value: &Value, name: &Value) -> bool {
    match value.as_str() {
        Some(text) => match name.as_str() {
            Some(name) => text == name,
            None => false,
        },
        None => false,
    }
}
