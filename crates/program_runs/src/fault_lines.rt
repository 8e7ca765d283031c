//! The line and the status that tell of a fault.

ghost use Rattle.std.specs.Prelude.{◌≡◌, IfOk, string_bytes};
ghost use Rattle.program_runs.specs.Fault.{fault_text, status_number, told_line};

use crate::fault::OfficeFault;
use court_file_text::{CourtFault, NumberedFault};
use std::alloc::{AllocError, Global};
use std::fmt;

/// The status with which the program ends after the fault: 2 for a fault of the court's file, 3 for one of a
/// row, 4 for reading and writing, 5 for want of memory.
pub fn status_of(fault: &OfficeFault) -> u8
    ensures { result ≡ status_number fault.now }
{
    match fault {
        OfficeFault::Court(CourtFault::OutOfMemory) | OfficeFault::OutOfMemory => 5,
        OfficeFault::Court(_) => 2,
        OfficeFault::Row(_, _) => 3,
        OfficeFault::ReadFault | OfficeFault::WriteFault => 4,
    }
}

/// The line that tells of the fault, without its end, as `court fault 2 Missing zone` or
/// `row 7 fault 4 BadField 3`.
pub fn fault_line(alloc: Global, fault: &OfficeFault) -> Result<String, AllocError>
    ensures { IfOk result (λ line. string_bytes line ≡ fault_text fault.now) }
{
    let line = FaultLine { fault };
    format!(in alloc; "{line}")
}

// The same line with its end.
pub(crate) fn ended_line(alloc: Global, fault: &OfficeFault) -> Result<String, AllocError>
    ensures { IfOk result (λ line. string_bytes line ≡ told_line fault.now) }
{
    let line = FaultLine { fault };
    format!(in alloc; "{line}\n")
}

/// A fault, to be written as its line. The numbers and names of faults are in `NumberedFault` and in `RowCause`.
#[derive(Clone, Copy)]
pub struct FaultLine<'a> {
    /// The fault.
    pub fault: &'a OfficeFault,
}

impl<'a> fmt::Display for FaultLine<'a> {
    ghost use Rattle.std.specs.Prelude.{Some};
    ghost use Rattle.program_runs.specs.Fault.{fault_text};

    ghost output = { λ line. Some (fault_text line.fault.now) };

    fn fmt<W: fmt::Write>(&self, f: &mut fmt::Formatter<W>) -> fmt::Result {
        match self.fault {
            OfficeFault::Court(fault) => {
                let numbered = NumberedFault { fault };
                write!(f, "court fault {numbered}")
            }
            OfficeFault::Row(number, cause) => write!(f, "row {number} fault {cause}"),
            OfficeFault::ReadFault => f.write_str("read fault"),
            OfficeFault::WriteFault => f.write_str("write fault"),
            OfficeFault::OutOfMemory => f.write_str("out of memory"),
        }
    }
}
