//! The marks of a text, found from its first byte to its last.

use crate::places::keys::key_of;
use crate::places::marks::{Mark, Part};
use crate::places::tokens::{line_end, quoted_end};
use court_file_text::Key;
use std::alloc::{AllocError, Global};

/// Where in a line of the file the scan is.
#[derive(Clone, Copy, Debug, PartialEq, Eq)]
enum Stage {
    /// Before a key or a header.
    Before,
    /// In a key that began at this byte.
    InKey(usize),
    /// After the `=` and before the value.
    BeforeValue,
    /// In a value that began at this byte.
    InValue(usize),
}

/// A scan of a text, after some of its bytes.
#[derive(Drop)]
struct Scan {
    marks: Vec<Mark>,
    stage: Stage,
    /// The bytes before this one were looked at with an earlier one.
    seen: usize,
    /// Whether there was a header.
    in_table: bool,
    /// The key whose value is read, if it is one of the file's.
    key: Option<Key>,
    /// How many brackets are open in the value.
    depth: usize,
    /// Whether the outermost of them is that of a list.
    in_list: bool,
    /// How many items of the list were read.
    items: usize,
    /// Where the item that is read began.
    item: Option<usize>,
    /// Where what was read of the value ends.
    end: usize,
}

/// The marks of a text. An `Err` says that memory ran out.
pub(crate) fn marks_of(alloc: Global, text: &[u8]) -> Result<Vec<Mark>, AllocError> {
    let mut scan = Scan {
        marks: Vec::new(alloc),
        stage: Stage::Before,
        seen: bom_length(text),
        in_table: false,
        key: None,
        depth: 0,
        in_list: false,
        items: 0,
        item: None,
        end: 0,
    };
    for (at, byte) in text.iter().enumerate() {
        if at >= scan.seen {
            scan.step(text, at, *byte)?;
        }
    }
    scan.end_line()?;
    Ok(scan.marks)
}

/// How many bytes of a byte order mark the text begins with.
fn bom_length(text: &[u8]) -> usize {
    match text {
        [0xEF, 0xBB, 0xBF, ..] => 3,
        _ => 0,
    }
}

impl Scan {
    /// Takes the byte that comes after `at` bytes.
    fn step(&mut self, text: &[u8], at: usize, byte: u8) -> Result<(), AllocError> {
        match byte {
            b' ' | b'\t' | b'\r' => Ok(()),
            b'\n' => {
                if self.depth == 0 {
                    self.end_line()?;
                }
                Ok(())
            }
            b'#' => {
                self.seen = line_end(text, at);
                Ok(())
            }
            _ => match self.stage {
                Stage::Before => self.begin(text, at, byte),
                Stage::InKey(start) => self.go_on_in_key(text, start, at, byte),
                Stage::BeforeValue => {
                    self.stage = Stage::InValue(at);
                    self.value_byte(text, at, byte)
                }
                Stage::InValue(_) => self.value_byte(text, at, byte),
            },
        }
    }

    /// Begins a key or a header.
    fn begin(&mut self, text: &[u8], at: usize, byte: u8) -> Result<(), AllocError> {
        if byte == b'[' {
            let end = line_end(text, at);
            self.in_table = true;
            self.seen = end;
            return self.mark(key_in(text, at, end), Part::Header, at, end);
        }
        self.stage = Stage::InKey(at);
        self.pass_quoted(text, at, byte);
        Ok(())
    }

    /// Takes a byte of a key, or the `=` after it.
    fn go_on_in_key(
        &mut self,
        text: &[u8],
        start: usize,
        at: usize,
        byte: u8,
    ) -> Result<(), AllocError> {
        if byte != b'=' {
            self.pass_quoted(text, at, byte);
            return Ok(());
        }
        let key = key_in(text, start, at);
        self.stage = Stage::BeforeValue;
        self.depth = 0;
        self.in_list = false;
        self.items = 0;
        self.item = None;
        if self.in_table {
            self.key = None;
            return self.mark(key, Part::InTable, start, at);
        }
        self.key = key;
        self.mark(key, Part::Key, start, at)
    }

    /// Takes a byte of a value.
    fn value_byte(&mut self, text: &[u8], at: usize, byte: u8) -> Result<(), AllocError> {
        match byte {
            b'[' | b'{' => {
                if self.depth == 0 {
                    self.in_list = byte == b'[';
                } else {
                    self.begin_item(at);
                }
                self.depth = self.depth.saturating_add(1);
            }
            b']' | b'}' => {
                if self.depth == 1 {
                    self.end_item()?;
                }
                self.depth = self.depth.saturating_sub(1);
            }
            b',' if self.depth == 1 => return self.end_item(),
            _ => self.begin_item(at),
        }
        self.end = at.saturating_add(1);
        self.pass_quoted(text, at, byte);
        Ok(())
    }

    /// Begins an item of the value's list, if none has begun.
    fn begin_item(&mut self, at: usize) {
        if self.depth == 1 && self.in_list && self.item.is_none() {
            self.item = Some(at);
        }
    }

    /// Ends the item that has begun.
    fn end_item(&mut self) -> Result<(), AllocError> {
        let Some(start) = self.item else {
            return Ok(());
        };
        self.mark(self.key, Part::Item(self.items), start, self.end)?;
        self.items = self.items.saturating_add(1);
        self.item = None;
        Ok(())
    }

    /// Ends the line, and the value in it.
    fn end_line(&mut self) -> Result<(), AllocError> {
        if let Stage::InValue(start) = self.stage {
            self.mark(self.key, Part::Value, start, self.end)?;
        }
        self.stage = Stage::Before;
        self.key = None;
        Ok(())
    }

    /// Passes over a text in quotes that begins here.
    fn pass_quoted(&mut self, text: &[u8], at: usize, byte: u8) {
        if byte == b'"' || byte == b'\'' {
            self.seen = quoted_end(text, at);
            self.end = self.seen;
        }
    }

    /// Marks a part of the key, if it is one of the file's.
    fn mark(
        &mut self,
        key: Option<Key>,
        part: Part,
        start: usize,
        end: usize,
    ) -> Result<(), AllocError> {
        if let Some(key) = key {
            self.marks.push(Mark {
                key,
                part,
                start,
                end,
            })?;
        }
        Ok(())
    }
}

/// The key that the bytes from the first of these up to the second write.
fn key_in(text: &[u8], start: usize, end: usize) -> Option<Key> {
    match text.get(start..end) {
        Some(written) => key_of(written),
        None => None,
    }
}
