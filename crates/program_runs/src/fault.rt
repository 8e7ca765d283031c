//! Why a run of the office stopped.

use crate::fault_lines::FaultLine;
use court_file_text::CourtFault;
use program_streams::StreamFault;
use row_forms::RowCause;
use thiserror::Error;

/// Why a run of the office stopped. Its message is its line.
#[derive(Debug, Drop, Error)]
#[error("{}", FaultLine {fault: self})]
pub enum OfficeFault {
    /// The court's file has this fault, its first.
    Court(CourtFault),
    /// The row of this number, counted from 1, has this fault. The rows before it have none.
    Row(u32, RowCause),
    /// A read answered with an error, or the input is longer than the office takes.
    ReadFault,
    /// A write answered with an error, or took none of some bytes.
    WriteFault,
    /// No memory was left.
    OutOfMemory,
}

impl From<StreamFault> for OfficeFault {
    ghost use Rattle.std.specs.Prelude.{◌≡◌};
    ghost use Rattle.program_runs.specs.Fault.{of_stream};

    ghost from_gives = { λ fault e. e ≡ of_stream fault };

    fn from(fault: StreamFault) -> OfficeFault {
        match fault {
            StreamFault::Read => OfficeFault::ReadFault,
            StreamFault::Write => OfficeFault::WriteFault,
            StreamFault::OutOfMemory => OfficeFault::OutOfMemory,
        }
    }
}
