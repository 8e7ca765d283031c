//! A court's file that is to be kept.
ghost use Rattle.std.specs.Prelude.{◌≡◌, IfErr, IfOk, OnOk};
ghost use Rattle.court_days.specs.Words.{CourtView};
ghost use Rattle.desk_entries.specs.Words.{SaysCourt};
ghost use Rattle.program_runs.specs.Words.{court_part};
ghost use Rattle.desk_program.specs.Desk.{HasCourtFault};

use crate::faults::CourtFileFault;
use court_days::Court;
use court_file_text::CourtFault;
use program_runs::divide;
use std::alloc::Global;

// The number of the line that comes after these bytes, counted from 1.
fn next_line(bytes: &[u8]) -> usize {
    let mut line = 1usize;
    for byte in bytes {
        if *byte == b'\n' {
            line = line.saturating_add(1);
        }
    }
    line
}

/// The court that a file says, which has no line `%%`: before the rows of its docket such a line would divide the file.
pub fn court_of(alloc: Global, file: &[u8]) -> Result<Court, CourtFileFault>
    ensures court { IfOk result (λ court. SaysCourt file.now court) }
    ensures whole { IfOk result (λ _. court_part file.now ≡ file.now) }
    ensures cause { IfErr result (HasCourtFault file.now) }
{
    let (before, _) = divide(file);
    if before != file {
        return Err(CourtFileFault::Divided(next_line(before)));
    }
    match Court::from_desk_bytes(alloc, file) {
        Ok(court) => Ok(court),
        Err(CourtFault::OutOfMemory) => Err(CourtFileFault::OutOfMemory),
        Err(fault) => Err(CourtFileFault::Court(fault)),
    }
}

/// Looks whether a file can be taken as a court's.
pub fn check_court(alloc: Global, file: &[u8]) -> Result<(), CourtFileFault>
    ensures court { OnOk result ((court : CourtView) × SaysCourt file.now court) }
    ensures whole { OnOk result (court_part file.now ≡ file.now) }
    ensures cause { IfErr result (HasCourtFault file.now) }
{
    match court_of(alloc, file) {
        Ok(_) => Ok(()),
        Err(fault) => Err(fault),
    }
}
