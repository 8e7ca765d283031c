//! What is said of faults, a few lines each.

use crate::advice::advice;
use crate::nearest::nearest;
use crate::reading::{FaultyLine, Reading};
use crate::shown::{escaped, line_shown};
use crate::wording::expected;
use court_days::Court;
use row_fields::DateOrder;
use row_written::{Fault, Flaw};
use std::alloc::{AllocError, Global};

/// What is said of a fault in a sentence.
pub(crate) fn sentence(
    alloc: Global,
    court: &Court,
    order: Option<DateOrder>,
    fault: &Fault,
) -> Result<String, AllocError> {
    let found = escaped(alloc, fault.value.as_str())?;
    let wanted = expected(fault.flaw);
    let mut text = if found.is_empty() {
        format!(in alloc; "found nothing, expected {wanted}")?
    } else if let Flaw::Unclear(_) = fault.flaw {
        let (one, other) = (fault.one.as_str(), fault.other.as_str());
        format!(in alloc; "found \"{found}\", which may be {one} or {other}")?
    } else {
        format!(in alloc; "found \"{found}\", expected {wanted}")?
    };
    if let Some(word) = nearest(alloc, court, fault.flaw, fault.value.as_str())? {
        let word = word.as_str();
        write!(text, "; did you mean {word}?")?;
    }
    let advice = advice(alloc, order, fault)?;
    if !advice.is_empty() {
        let advice = advice.as_str();
        write!(text, "; {advice}")?;
    }
    Ok(text)
}

/// Adds a line with marks below a field of the line before it.
fn push_marks(
    text: &mut String,
    shown: &str,
    place: usize,
    fault: &Fault,
) -> Result<(), AllocError> {
    text.push_str("    ")?;
    for (i, letter) in shown.chars().enumerate() {
        if i >= place {
            break;
        }
        text.push(if letter == '\t' { '\t' } else { ' ' })?;
    }
    text.push('^')?;
    for _ in 1..fault.value.len() {
        text.push('^')?;
    }
    text.push_str("\n")
}

/// Adds what is said of the faults of a line.
fn push_line(
    alloc: Global,
    text: &mut String,
    court: &Court,
    order: Option<DateOrder>,
    line: &FaultyLine,
) -> Result<(), AllocError> {
    let shown = line_shown(alloc, &line.line)?;
    let number = line.number;
    for fault in &line.faults {
        let place = fault.place.saturating_add(line.mark);
        let column = place.saturating_add(1);
        let said = sentence(alloc, court, order, fault)?;
        let (said, whole) = (said.as_str(), shown.as_str());
        write!(text, "line {number} column {column}: {said}\n    {whole}\n")?;
        push_marks(text, shown.as_str(), place, fault)?;
    }
    Ok(())
}

/// What is said of the faults of an input, a few lines each. `Err` says that memory ran out.
pub fn report_of(
    alloc: Global,
    court: &Court,
    order: Option<DateOrder>,
    reading: &Reading,
) -> Result<String, AllocError> {
    let mut text = String::new(alloc);
    for line in &reading.faulty {
        push_line(alloc, &mut text, court, order, line)?;
    }
    Ok(text)
}
