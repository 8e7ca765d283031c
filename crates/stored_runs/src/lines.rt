//! Inputs too large to be stored, made from a few lines.

use itoa::Buffer;
use std::alloc::{AllocError, Global};

// No clause says what is made; what is stored to be written shows it.

/// A line that stands for many: the same with each of these numbers.
#[derive(Drop)]
struct Repeat<'a> {
    first: u32,
    last: u32,
    line: &'a str,
}

/// The input that the text stands for. A line `repeat FIRST LAST: LINE` stands for LINE with each number from FIRST to
/// LAST, and any other line for itself. In a line `{}` is the number, or 0 where the line stands for itself, `{%M}` a number
/// from 1 to M that goes around as the number goes on, and `{ff}` the byte 255. `Err` says that memory ran out.
pub fn input_of(alloc: Global, text: &str) -> Result<Vec<u8>, AllocError> {
    let mut made = Vec::new(alloc);
    for line in text.split_inclusive('\n') {
        match repeated(line) {
            Some(repeat) => push_all(&mut made, &repeat)?,
            None => push_line(&mut made, line, 0)?,
        }
    }
    Ok(made)
}

// What a line says that stands for many.
fn repeated(line: &str) -> Option<Repeat<'_>> {
    let (numbers, line) = line.strip_prefix("repeat ")?.split_once(": ")?;
    let (first, last) = numbers.split_once(' ')?;
    Some(Repeat {
        first: first.parse().ok()?,
        last: last.parse().ok()?,
        line,
    })
}

// Adds the line with each number.
fn push_all(made: &mut Vec<u8>, repeat: &Repeat<'_>) -> Result<(), AllocError> {
    for number in repeat.first..=repeat.last {
        push_line(made, repeat.line, number)?;
    }
    Ok(())
}

// Adds the line with the number.
fn push_line(made: &mut Vec<u8>, line: &str, number: u32) -> Result<(), AllocError> {
    for piece in line.split('{') {
        match piece.split_once('}') {
            Some((mark, rest)) => {
                push_mark(made, mark, number)?;
                made.extend_from_slice(rest.as_bytes())?;
            }
            None => made.extend_from_slice(piece.as_bytes())?,
        }
    }
    Ok(())
}

// Adds what stands for the mark.
fn push_mark(made: &mut Vec<u8>, mark: &str, number: u32) -> Result<(), AllocError> {
    if mark == "ff" {
        return made.extend_from_slice(&[255]);
    }
    let mut buffer = Buffer::new();
    let shown = buffer.format(shown_by(mark, number));
    made.extend_from_slice(shown.as_bytes())
}

// The number that the mark shows.
fn shown_by(mark: &str, number: u32) -> u32 {
    match mark.strip_prefix('%') {
        Some(count) => {
            let count: u32 = count.parse().unwrap_or(1);
            number.saturating_sub(1) % count.max(1) + 1
        }
        None => number,
    }
}
