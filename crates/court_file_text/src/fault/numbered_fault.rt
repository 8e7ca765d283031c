//! The number and the name of a fault of a court's file.

use crate::fault::CourtFault;
use std::fmt;

/// A fault, to be written as its number, its name, and the key or the text that it names, as `2 Missing zone`. The
/// numbers and names are written here alone: the fault's own message is this text.
#[derive(Clone, Copy)]
pub struct NumberedFault<'a> {
    /// The fault.
    pub fault: &'a CourtFault,
}

impl<'a> fmt::Display for NumberedFault<'a> {
    ghost use Rattle.std.specs.Prelude.{Some};
    ghost use Rattle.court_file_text.specs.Fault.{court_fault_text};

    ghost output = { λ numbered. Some (court_fault_text numbered.fault.now) };

    fn fmt<W: fmt::Write>(&self, f: &mut fmt::Formatter<W>) -> fmt::Result {
        match self.fault {
            CourtFault::NotToml => f.write_str("1 NotToml"),
            CourtFault::Missing(key) => write!(f, "2 Missing {key}"),
            CourtFault::WrongKind(key) => write!(f, "3 WrongKind {key}"),
            CourtFault::BadDate(text) => write!(f, "4 BadDate {text}"),
            CourtFault::BadZone => f.write_str("5 BadZone"),
            CourtFault::BadHours => f.write_str("6 BadHours"),
            CourtFault::BadSpan => f.write_str("7 BadSpan"),
            CourtFault::BadName(text) => write!(f, "8 BadName {text}"),
            CourtFault::TwiceNamed(text) => write!(f, "9 TwiceNamed {text}"),
            CourtFault::TooMany(key) => write!(f, "10 TooMany {key}"),
            CourtFault::OutOfMemory => f.write_str("11 OutOfMemory"),
        }
    }
}
