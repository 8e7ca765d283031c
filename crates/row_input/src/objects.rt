//! The same as JSON.

use crate::advice::advice;
use crate::nearest::nearest;
use crate::reading::{FaultyLine, Reading};
use crate::report::sentence;
use crate::shown::text_of;
use crate::wording::expected;
use court_days::Court;
use json::Writer;
use row_fields::DateOrder;
use row_written::Fault;
use std::alloc::{AllocError, Global};

/// Writes a text under a key, unless it is empty.
pub(crate) fn put_text(out: &mut Writer<Global>, key: &str, text: &str) -> Result<(), AllocError> {
    if text.is_empty() {
        return Ok(());
    }
    out.key(key)?;
    out.string(text)
}

/// Writes a number under a key.
pub(crate) fn put_number(
    out: &mut Writer<Global>,
    key: &str,
    number: usize,
) -> Result<(), AllocError> {
    out.key(key)?;
    out.u64(number as u64)
}

/// Writes a fault of a line.
fn put_fault(
    alloc: Global,
    out: &mut Writer<Global>,
    court: &Court,
    order: Option<DateOrder>,
    line: &FaultyLine,
    fault: &Fault,
) -> Result<(), AllocError> {
    let found = fault.value.as_str();
    let whole = text_of(alloc, &line.line)?;
    let said = sentence(alloc, court, order, fault)?;
    let advice = advice(alloc, order, fault)?;
    out.begin_object()?;
    put_number(out, "line", line.number)?;
    let place = fault.place.saturating_add(line.mark);
    put_number(out, "column", place.saturating_add(1))?;
    put_text(out, "text", whole.as_str())?;
    out.key("found")?;
    out.string(found)?;
    put_text(out, "expected", expected(fault.flaw))?;
    put_text(out, "one", fault.one.as_str())?;
    put_text(out, "other", fault.other.as_str())?;
    if let Some(word) = nearest(alloc, court, fault.flaw, found)? {
        put_text(out, "nearest", word.as_str())?;
    }
    put_text(out, "advice", advice.as_str())?;
    put_text(out, "said", said.as_str())?;
    out.end_object()
}

/// The faults of an input as JSON: an array with an object for each. `Err` says that memory ran out.
pub fn json_of(
    alloc: Global,
    court: &Court,
    order: Option<DateOrder>,
    reading: &Reading,
) -> Result<Vec<u8>, AllocError> {
    let mut out = Writer::new(Vec::new(alloc));
    out.begin_array()?;
    for line in &reading.faulty {
        for fault in &line.faults {
            put_fault(alloc, &mut out, court, order, line, fault)?;
        }
    }
    out.end_array()?;
    let mut text = out.into_inner();
    text.push(b'\n')?;
    Ok(text)
}
