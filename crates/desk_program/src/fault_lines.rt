//! The line and the status that tell of a desk's fault.
ghost use Rattle.std.specs.Prelude.{◌≡◌, ◌⊎◌};
ghost use Rattle.desk_program.specs.Faults.{desk_status};

use crate::faults::{DeskFault, session_status};
use program_runs::refused;
use program_streams::Watched;
use std::alloc::Global;
use std::io::Write;

/// The status with which the program ends after the fault.
pub fn status_of(fault: &DeskFault) -> u8
    ensures { result ≡ desk_status fault.now }
{
    match fault {
        DeskFault::Open(fault) => fault.status(),
        DeskFault::CourtFile(fault) => fault.status(),
        DeskFault::Begin(fault) => fault.status(),
        DeskFault::Striking(fault) => fault.status(),
        DeskFault::Change(fault) => fault.status(),
        DeskFault::Together(fault) => fault.status(),
        DeskFault::Session(fault) | DeskFault::Unkept(fault) => session_status(fault),
        DeskFault::Faulty(_) => 8,
        DeskFault::LongInput => 4,
        DeskFault::File(fault) => fault.status(),
        DeskFault::Output(fault) => fault.status(),
        DeskFault::OutOfMemory => 5,
    }
}

/// Tells of a fault, as far as its line can be written, and gives its status. Where there is no memory for the line, it
/// tells of want of memory instead.
pub fn ended_by<E: Write>(alloc: Global, errors: &mut Watched<E>, fault: &DeskFault) -> u8
    ensures { (result ≡ desk_status fault.now) ⊎ (result ≡ 5) }
{
    match format!(in alloc; "{fault}\n") {
        Ok(text) => {
            let _ = refused(errors, text.as_str());
            status_of(fault)
        }
        Err(_) => {
            let _ = refused(errors, "out of memory\n");
            5
        }
    }
}
