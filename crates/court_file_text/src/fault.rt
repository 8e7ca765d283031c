//! What is wrong with a court's file.

ghost use Rattle.std.specs.Prelude.{◌≡◌};
ghost use Rattle.court_file_text.specs.declared.fault.CourtFault.TheVariants.{OutOfMemory};

use crate::key::Key;
use std::alloc::{AllocError, AllocFailed};
use thiserror::Error;

mod fault_text;
mod numbered_fault;

pub use fault_text::FaultText;
pub use numbered_fault::NumberedFault;

/// The first fault of a court's file, in the order in which its keys are read.
#[derive(Debug, Drop, Error)]
#[error("{}", NumberedFault {fault: self})]
pub enum CourtFault {
    /// 1: the bytes are no TOML document.
    NotToml,
    /// 2: the key isn't there.
    Missing(Key),
    /// 3: the key, or an item of its list, holds a value of another type.
    WrongKind(Key),
    /// 4: the text is no date of the years 1900 to 2199 written `YYYY-MM-DD`.
    BadDate(FaultText),
    /// 5: `zone` is neither an offset nor a POSIX rule.
    BadZone,
    /// 6: `opens`, `closes` or `efiling_until` is no time of day, or the office doesn't open before it closes.
    BadHours,
    /// 7: `from` is after `to`, or the span has more than 36,525 days.
    BadSpan,
    /// 8: the text is no name that the program takes.
    BadName(FaultText),
    /// 9: the name is in its list twice.
    TwiceNamed(FaultText),
    /// 10: the list is longer than it may be.
    TooMany(Key),
    /// 11: memory ran out.
    OutOfMemory,
}

impl From<AllocError> for CourtFault {
    ghost from_gives = { λ _ e. e ≡ OutOfMemory };

    fn from(_: AllocError) -> CourtFault {
        CourtFault::OutOfMemory
    }
}

impl<T: Drop> From<AllocFailed<T>> for CourtFault {
    ghost from_gives = { λ _ e. e ≡ OutOfMemory };

    fn from(_: AllocFailed<T>) -> CourtFault {
        CourtFault::OutOfMemory
    }
}
