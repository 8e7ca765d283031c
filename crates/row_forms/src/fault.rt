//! What can be wrong with a row.

ghost use Rattle.std.specs.Prelude.{◌≡◌};
ghost use Rattle.row_forms.specs.declared.fault.RowError.TheVariants.{OutOfMemory};

use std::alloc::{AllocError, AllocFailed};
use std::fmt;

/// What is wrong with a row. Where several things are, it is the first in the order of their numbers 5, 3, 1,
/// 2, 3, 4; the row after the last that the office takes is `TooManyRows` whatever else is wrong with it.
#[derive(Clone, Copy, Debug, PartialEq, Eq)]
pub enum RowCause {
    /// 1: the clerk is no number from 1 to the number of clerks.
    BadClerk,
    /// 2: the second field is no command word.
    UnknownCommand,
    /// 3: the row has fewer than two fields, or another number than its command has.
    WrongCount,
    /// 4: the field in this column, counted from 1, is not written as the command has it. It is the leftmost.
    BadField(u8),
    /// 5: a field is not valid UTF-8.
    NotText,
    /// 6: there are more rows than the office takes.
    TooManyRows,
}

/// Writes the number and the name, and after `BadField` its column.
impl fmt::Display for RowCause {
    ghost use Rattle.std.specs.Prelude.{Some};
    ghost use Rattle.row_forms.specs.Fault.{cause_text};

    ghost output = { λ cause. Some (cause_text cause) };

    fn fmt<W: fmt::Write>(&self, f: &mut fmt::Formatter<W>) -> fmt::Result {
        match self {
            RowCause::BadClerk => f.write_str("1 BadClerk"),
            RowCause::UnknownCommand => f.write_str("2 UnknownCommand"),
            RowCause::WrongCount => f.write_str("3 WrongCount"),
            RowCause::BadField(column) => write!(f, "4 BadField {column}"),
            RowCause::NotText => f.write_str("5 NotText"),
            RowCause::TooManyRows => f.write_str("6 TooManyRows"),
        }
    }
}

/// Why rows could not be read.
#[derive(Clone, Copy, Debug, PartialEq, Eq)]
pub enum RowError {
    /// The row of this number, counted from 1, has this fault. The rows before it have none.
    Fault(u32, RowCause),
    /// No memory was left.
    OutOfMemory,
}

impl From<AllocError> for RowError {
    ghost from_gives = { λ _ error. error ≡ OutOfMemory };

    fn from(_error: AllocError) -> RowError {
        RowError::OutOfMemory
    }
}

impl<T: Drop> From<AllocFailed<T>> for RowError {
    ghost from_gives = { λ _ error. error ≡ OutOfMemory };

    fn from(_error: AllocFailed<T>) -> RowError {
        RowError::OutOfMemory
    }
}
