//! What is wrong with a line.

ghost use Rattle.std.specs.Prelude.{◌≡◌, ◌++◌, ◌∷◌, IfOk, OnOk, map};
ghost use Rattle.row_written.specs.Fault.{fault_at, fault_in};

use row_fields::{place_in, separator_of};
use row_forms::Column;
use std::alloc::{AllocError, Global};

/// What is wrong with a field.
#[derive(Clone, Copy, Debug, PartialEq, Eq)]
pub enum Flaw {
    /// It isn't what this column holds.
    Unknown(Column),
    /// It may be one thing or another in this column.
    Unclear(Column),
    /// The row has no column for it.
    Excess,
    /// It is no command word.
    NoCommand,
    /// No row has a column with this heading.
    NoHeading,
    /// Another column has this heading.
    TwiceNamed,
}

/// What is wrong with a field of a line.
#[derive(Debug, Drop)]
pub struct Fault {
    /// The place in the line where the field begins: how many characters come before it.
    pub place: usize,
    /// What is wrong.
    pub flaw: Flaw,
    /// The field.
    pub value: String,
    /// What it may be, where it may be two things.
    pub one: String,
    /// The other thing that it may be.
    pub other: String,
}

// What is wrong with the field of that number in a line, counted from 0.
pub(crate) fn fault_at(
    alloc: Global,
    text: &str,
    number: usize,
    flaw: Flaw,
    value: &str,
    readings: (&str, &str),
) -> Result<Fault, AllocError>
    ensures { IfOk result (λ fault. fault_in fault ≡ fault_at text.now number flaw value.now readings.entry.0.now readings.entry.1.now) }
{
    Ok(Fault {
        place: place_in(text, separator_of(text), number),
        flaw,
        value: String::from_str(alloc, value)?,
        one: String::from_str(alloc, readings.0)?,
        other: String::from_str(alloc, readings.1)?,
    })
}
