//! Marks of the places of keys, values and items.

ghost use Rattle.std.specs.Prelude.{◌≡◌, true, IfOk, IfSome, Some, option_copied, option_map};
ghost use Rattle.toml.specs.Data.{as_str};
ghost use Rattle.toml.specs.View.{table_view, view};
ghost use Rattle.court_file_check.specs.Places.Marks.{IsPartAt, cut, data_of_part, text_of_part, text_read, value_of};
ghost use Rattle.court_file_check.specs.declared.places.marks.Part.TheVariants.{Item};

use crate::places::scan::marks_of;
use court_file_text::Key;
use std::alloc::{AllocError, Global};
use toml::{Table, Value};

/// What is at a place.
#[derive(Clone, Copy, Debug, PartialEq, Eq)]
pub enum Part {
    /// The key, before the first table.
    Key,
    /// The key, in a table, where it isn't one of the court's file.
    InTable,
    /// The header of a table that has the name of a key.
    Header,
    /// The value of the key.
    Value,
    /// The item with this number of the key's list, counted from 0.
    Item(usize),
}

/// Where a part of a key is: the bytes from the first of these numbers up to the second.
#[derive(Clone, Copy, Debug, PartialEq, Eq)]
pub struct Mark {
    /// The key.
    pub key: Key,
    /// What of it.
    pub part: Part,
    /// How many bytes of the text come before it.
    pub start: usize,
    /// How many come before its end.
    pub end: usize,
}

/// The places of the keys of a court's file, of their values and of the items of their lists.
#[derive(Debug, Drop)]
pub struct Places {
    marks: Vec<Mark>,
}

impl Places {
    /// The places in a text that is TOML. An `Err` says that memory ran out.
    pub fn of(alloc: Global, text: &[u8]) -> Result<Places, AllocError> {
        Ok(Places {
            marks: marks_of(alloc, text)?,
        })
    }

    /// Where the part of the key is, if the text has it.
    pub fn find(&self, key: Key, part: Part) -> Option<Mark> {
        self.marks
            .iter()
            .copied()
            .find(|mark| mark.key == key && mark.part == part)
    }

    /// Where the part of the key is in the text, of which the document is read. Where it is a text, the bytes there are
    /// read again, and None says that they aren't that text, or that no place was found. An `Err` says that memory ran
    /// out.
    pub fn read(
        &self,
        alloc: Global,
        text: &[u8],
        file: &Table,
        key: Key,
        part: Part,
    ) -> Result<Option<Mark>, AllocError>
        ensures { IfOk result (λ found. IfSome found (λ mark. IsPartAt text.now (table_view file.now) key part mark.start mark.end)) }
    {
        let Some(mark) = self.find(key, part) else {
            return Ok(None);
        };
        let Some(said) = text_of_part(file, key, part) else {
            return Ok(Some(mark));
        };
        if is_read_at(alloc, text, mark.start, mark.end, said)? {
            return Ok(Some(mark));
        }
        Ok(None)
    }
}

/// The text that a part of a key is, if it is one.
fn text_of_part(file: &Table, key: Key, part: Part) -> Option<&str>
    ensures { option_copied result ≡ text_of_part (table_view file.now) key part }
{
    match data_of_part(file, key, part) {
        Some(value) => value.as_str(),
        None => None,
    }
}

/// What the document has at a part of a key.
fn data_of_part(file: &Table, key: Key, part: Part) -> Option<&Value>
    ensures { option_map (λ v. view v.now) result ≡ data_of_part (table_view file.now) key part }
{
    match part {
        Part::Value => value_of(file, key),
        Part::Item(number) => item_of(file, key, number),
        _ => None,
    }
}

/// The item with a number of a key's list.
fn item_of(file: &Table, key: Key, number: usize) -> Option<&Value>
    ensures { option_map (λ v. view v.now) result ≡ data_of_part (table_view file.now) key (Item number) }
{
    match value_of(file, key) {
        Some(value) => value.get(number),
        None => None,
    }
}

/// What the document has at a key.
fn value_of(file: &Table, key: Key) -> Option<&Value>
    ensures { option_map (λ v. view v.now) result ≡ value_of (table_view file.now) key }
{
    file.get(key.name())
}

/// Whether the bytes between these places read as the text.
fn is_read_at(
    alloc: Global,
    text: &[u8],
    start: usize,
    end: usize,
    said: &str,
) -> Result<bool, AllocError>
    ensures { IfOk result (λ yes. yes ≡ true → text_read (cut text.now start end) ≡ Some said.now) }
{
    let Some(bytes) = text.get(start..end) else {
        return Ok(false);
    };
    match std::str::from_utf8(bytes) {
        Ok(written) => is_read(alloc, written, said),
        Err(_) => Ok(false),
    }
}

/// Whether TOML reads what is written as the text.
fn is_read(alloc: Global, written: &str, said: &str) -> Result<bool, AllocError>
    ensures { IfOk result (λ yes. yes ≡ true → text_read written.now ≡ Some said.now) }
{
    match Value::from_str(alloc, written) {
        Ok(value) => Ok(is_text(&value, said)),
        Err(error) => {
            if error.is_memory() {
                return Err(AllocError);
            }
            Ok(false)
        }
    }
}

/// Whether the value is the text.
fn is_text(value: &Value, said: &str) -> bool
    ensures { result ≡ true → as_str (view value.now) ≡ Some said.now }
{
    match value.as_str() {
        Some(text) => text == said,
        None => false,
    }
}
