//! Names that differ only in the case of letters.

use court_file_text::Key;
use std::alloc::{AllocError, Global};
use toml::{Table, Value};

/// An item of a list of names, and an earlier one that differs from it only in the case of letters.
#[derive(Clone, Copy, Debug, PartialEq, Eq)]
pub struct Alike {
    /// The number of the item, counted from 0.
    pub item: usize,
    /// That of the earlier one.
    pub earlier: usize,
}

/// The names of the list at a key that differ from an earlier one only in the case of letters. An `Err` says that memory
/// ran out.
pub(crate) fn alike_at(alloc: Global, file: &Table, key: Key) -> Result<Vec<Alike>, AllocError> {
    let mut alike = Vec::new(alloc);
    let Some(values) = file.get(key.name()).and_then(Value::as_array) else {
        return Ok(alike);
    };
    for (item, value) in values.iter().enumerate() {
        if let Some(earlier) = first_like(values, value) {
            if earlier < item {
                alike.push(Alike { item, earlier })?;
            }
        }
    }
    Ok(alike)
}

/// The number of the first of the names that is like this one.
fn first_like(values: &[Value], value: &Value) -> Option<usize> {
    let name = value.as_str()?;
    values.iter().position(|other| is_like(other, name))
}

/// Whether the value is the name, but for the case of letters.
fn is_like(value: &Value, name: &str) -> bool {
    match value.as_str() {
        Some(text) => text.eq_ignore_ascii_case(name),
        None => false,
    }
}
