//! Bytes that are put into the text of a court's file, and where.

ghost use Rattle.std.specs.Prelude.{◌≡◌, ◌++◌, IfOk, IfSome};
ghost use Rattle.court_writing.specs.Update.{IsPut, join_text};

use court_file_check::{Part, Places};
use court_file_text::Key;
use std::alloc::{AllocError, Global};

/// What comes before lines that are put at the end of a list or of a table.
#[derive(Clone, Copy, Debug)]
pub(crate) enum Join {
    /// Nothing: they begin a line, and a comma stands before them where one has to.
    Nothing,
    /// The end of the line before.
    Line,
    /// The comma after the item before, and the end of its line.
    Comma,
}

impl Join {
    /// What is written for it.
    pub(crate) fn text(self) -> &'static str
        ensures { result.now ≡ join_text self }
    {
        match self {
            Join::Nothing => "",
            Join::Line => "\n",
            Join::Comma => ",\n",
        }
    }
}

/// The text with new bytes in the place of old ones, which come after `at` others. None where they aren't there. An `Err` says that
/// memory ran out.
#[tactic(auto, using(crate::proofs::UpdateLemmas::is_put))]
pub(crate) fn put(
    alloc: Global,
    text: &[u8],
    at: usize,
    old: &[u8],
    new: &[u8],
) -> Result<Option<Vec<u8>>, AllocError>
    ensures { IfOk result (λ some. IfSome some (λ put. IsPut old.now new.now text.now put.items)) }
{
    if text.len() < at {
        return Ok(None);
    }
    let (before, rest) = text.split_at(at);
    let Some(after) = without_front(rest, old) else {
        return Ok(None);
    };
    let mut put = Vec::from_slice(alloc, before)?;
    put.extend_from_slice(new)?;
    put.extend_from_slice(after)?;
    Ok(Some(put))
}

/// What comes after the bytes with which a text begins.
#[tactic(auto, using(crate::proofs::UpdateLemmas::is_front))]
fn without_front<'a>(text: &'a [u8], front: &[u8]) -> Option<&'a [u8]>
    ensures { IfSome result (λ rest. text.now ≡ front.now ++ rest.now) }
{
    if text.len() < front.len() {
        return None;
    }
    let (begin, rest) = text.split_at(front.len());
    if begin == front { Some(rest) } else { None }
}

/// Where the bytes in quotes begin that are the value of `to`.
pub(crate) fn last_day_place(alloc: Global, text: &[u8]) -> Result<Option<usize>, AllocError> {
    let places = Places::of(alloc, text)?;
    match places.find(Key::To, Part::Value) {
        Some(mark) => Ok(Some(mark.start.saturating_add(1))),
        None => Ok(None),
    }
}

/// Where the list of a key ends, before its closing bracket, and what has to come before lines that are put there.
pub(crate) fn list_end(
    alloc: Global,
    text: &[u8],
    key: Key,
) -> Result<Option<(usize, Join)>, AllocError> {
    let places = Places::of(alloc, text)?;
    let Some(mark) = places.find(key, Part::Value) else {
        return Ok(None);
    };
    let end = mark.end.saturating_sub(1);
    match text.get(mark.start..end) {
        Some(list) => Ok(Some((end, join_after(list)))),
        None => Ok(None),
    }
}

/// What has to come before lines that are put after a list without its closing bracket.
fn join_after(list: &[u8]) -> Join {
    let mut last = b'[';
    let mut in_comment = false;
    let mut begins_line = false;
    for byte in list {
        match *byte {
            b'\n' => {
                in_comment = false;
                begins_line = true;
            }
            b' ' | b'\t' | b'\r' => {}
            b'#' => in_comment = true,
            other if !in_comment => {
                last = other;
                begins_line = false;
            }
            _ => {}
        }
    }
    if last != b'[' && last != b',' {
        Join::Comma
    } else if begins_line {
        Join::Nothing
    } else {
        Join::Line
    }
}

/// Where the table of the holidays' names ends, before the next table or at the end of the text, and what has to come before lines
/// that are put there. None where the text has no such table.
pub(crate) fn names_end(text: &[u8]) -> Option<(usize, Join)> {
    let mut at: usize = 0;
    let mut in_table = false;
    for line in text.split(|byte| *byte == b'\n') {
        if in_table && line.starts_with(b"[") {
            return Some((at, Join::Nothing));
        }
        in_table = in_table || line.starts_with(b"[holiday_names]");
        at = at.saturating_add(line.len()).saturating_add(1);
    }
    if !in_table {
        return None;
    }
    match text.last() {
        Some(b'\n') => Some((text.len(), Join::Nothing)),
        _ => Some((text.len(), Join::Line)),
    }
}
