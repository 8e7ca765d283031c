//! Texts as they are shown at a terminal: no control character reaches it.

use row_fields::typed;
use std::alloc::{AllocError, Global};

/// A text with `\x1b` in place of an escape, and so of each control character.
pub(crate) fn escaped(alloc: Global, text: &str) -> Result<String, AllocError> {
    let mut shown = String::new(alloc);
    for letter in text.chars() {
        if letter.is_control() {
            let code = letter as u32;
            write!(shown, "\\x{code:02x}")?;
        } else {
            shown.push(letter)?;
        }
    }
    Ok(shown)
}

/// A line with a question mark in place of each control character but a tab, so that all others stay in their places.
fn unmarked(alloc: Global, text: &str) -> Result<String, AllocError> {
    let mut shown = String::new(alloc);
    for letter in text.chars() {
        let is_shown = letter == '\t' || !letter.is_control();
        shown.push(if is_shown { letter } else { '?' })?;
    }
    Ok(shown)
}

/// The text of a line; of one that isn't text as far as plain keys type it.
pub(crate) fn text_of(alloc: Global, line: &[u8]) -> Result<String, AllocError> {
    match std::str::from_utf8(line) {
        Ok(text) => String::from_str(alloc, text),
        Err(_) => typed(alloc, line),
    }
}

/// The text of a line, as it is shown.
pub(crate) fn line_shown(alloc: Global, line: &[u8]) -> Result<String, AllocError> {
    let text = text_of(alloc, line)?;
    unmarked(alloc, text.as_str())
}
