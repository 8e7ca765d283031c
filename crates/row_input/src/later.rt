//! What is said of lines once they are read, as JSON.

use crate::objects::{put_number, put_text};
use json::Writer;
use std::alloc::{AllocError, Global};

/// The number of a line and the words, where a text is what is said of one, `line L WORDS`.
fn line_and_words(text: &str) -> Option<(usize, &str)> {
    let (number, words) = text.strip_prefix("line ")?.split_once(' ')?;
    match number.parse::<usize>() {
        Ok(number) => Some((number, words)),
        Err(_) => None,
    }
}

/// Writes what is said of a line, or what is said without a line.
fn put_said(out: &mut Writer<Global>, text: &str) -> Result<(), AllocError> {
    out.begin_object()?;
    match line_and_words(text) {
        Some((number, words)) => {
            put_number(out, "line", number)?;
            put_text(out, "said", words)?;
        }
        None => put_text(out, "said", text)?,
    }
    out.end_object()
}

/// What is said of lines, `line L WORDS` of each, as JSON: an array with an object for each. `Err` says that memory ran out.
pub fn json_of_said(alloc: Global, said: &str) -> Result<Vec<u8>, AllocError> {
    let mut out = Writer::new(Vec::new(alloc));
    out.begin_array()?;
    for text in said.lines() {
        put_said(&mut out, text)?;
    }
    out.end_array()?;
    let mut text = out.into_inner();
    text.push(b'\n')?;
    Ok(text)
}
