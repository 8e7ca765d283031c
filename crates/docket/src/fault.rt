//! Why the program ends early, what is said of that, and with which status.
ghost use Rattle.std.specs.Prelude.{◌≡◌, ◌<◌, ◌⊎◌, IfErr, OnOk};
ghost use Rattle.docket.specs.Endings.{IsTold, write_status};
ghost use Rattle.docket.specs.declared.fault.Fault.TheVariants.{Desk, Input};
ghost use Rattle.desk_program.specs.Words.{lines_shown};
ghost use Rattle.desk_program.specs.declared.faults.desk.DeskFault.TheVariants.{Change, CourtFile, Faulty, File, OutOfMemory, Output, Striking};
ghost use Rattle.program_streams.specs.Words.{IsGiven};

use court_writing::WriteFault;
use desk_entries::HistoryFault;
use desk_program::{
    CorrectionFault, CourtFileFault, DeskFault, FileFault, OpenFault, OutputFault, StrikingFault,
    all_taken, ended_by, lines_shown,
};
use desk_session::Tally;
use program_runs::{self as runs, OfficeFault, missing, refused};
use program_streams::{Watched, write_all};
use std::alloc::{AllocError, AllocFailed, Global};
use std::io::Write;

/// Why the program ends early.
#[derive(Debug, Drop)]
pub enum Fault {
    /// A fault of a folder, or of a file.
    Desk(DeskFault),
    /// A fault of an input with a court's file and rows.
    Input(OfficeFault),
    /// What is asked for isn't there, as this line says, which ends with LF.
    Missing(String),
    /// The file of the folder's journal can't be used, as this line says, which ends with LF.
    Unusable(String),
    /// Other programs had the folder for as long as this one was to wait, as this line says, which ends with LF.
    Waited(String),
    /// No court's file is written.
    NotWritten(WriteFault),
    /// Standard error says already what is wrong. The program ends with this status.
    Told(u8),
}

impl From<DeskFault> for Fault {
    ghost from_gives = { λ fault e. e ≡ Desk fault };

    fn from(fault: DeskFault) -> Fault {
        Fault::Desk(fault)
    }
}

impl From<CourtFileFault> for Fault {
    ghost from_gives = { λ fault e. e ≡ Desk (CourtFile fault) };

    fn from(fault: CourtFileFault) -> Fault {
        Fault::Desk(DeskFault::CourtFile(fault))
    }
}

impl From<StrikingFault> for Fault {
    ghost from_gives = { λ fault e. e ≡ Desk (Striking fault) };

    fn from(fault: StrikingFault) -> Fault {
        Fault::Desk(DeskFault::Striking(fault))
    }
}

impl From<CorrectionFault> for Fault {
    ghost from_gives = { λ fault e. e ≡ Desk (Change fault) };

    fn from(fault: CorrectionFault) -> Fault {
        Fault::Desk(DeskFault::Change(fault))
    }
}

impl From<FileFault> for Fault {
    ghost from_gives = { λ fault e. e ≡ Desk (File fault) };

    fn from(fault: FileFault) -> Fault {
        Fault::Desk(DeskFault::File(fault))
    }
}

impl From<OutputFault> for Fault {
    ghost from_gives = { λ fault e. e ≡ Desk (Output fault) };

    fn from(fault: OutputFault) -> Fault {
        Fault::Desk(DeskFault::Output(fault))
    }
}

impl From<HistoryFault> for Fault {
    ghost use Rattle.desk_program.specs.Faults.{history_fault};
    ghost use Rattle.desk_program.specs.declared.faults.desk.DeskFault.TheVariants.{Open};

    ghost from_gives = { λ fault e. e ≡ Desk (Open (history_fault fault)) };

    fn from(fault: HistoryFault) -> Fault {
        Fault::Desk(DeskFault::Open(OpenFault::from(fault)))
    }
}

impl From<OfficeFault> for Fault {
    ghost from_gives = { λ fault e. e ≡ Input fault };

    fn from(fault: OfficeFault) -> Fault {
        Fault::Input(fault)
    }
}

impl From<AllocError> for Fault {
    ghost from_gives = { λ _ e. e ≡ Desk OutOfMemory };

    fn from(_: AllocError) -> Fault {
        Fault::Desk(DeskFault::OutOfMemory)
    }
}

impl<T: Drop> From<AllocFailed<T>> for Fault {
    ghost from_gives = { λ _ e. e ≡ Desk OutOfMemory };

    fn from(_: AllocFailed<T>) -> Fault {
        Fault::Desk(DeskFault::OutOfMemory)
    }
}

/// Whether all lines were taken, by their tally: none had a fault, and none was held back.
pub fn taken(tally: Tally) -> Result<(), Fault>
    ensures none { OnOk result ((tally.faults ≡ 0) × (tally.held ≡ 0)) }
    ensures some { IfErr result (λ fault. (fault ≡ Desk (Faulty tally)) × ((0 < tally.faults) ⊎ (0 < tally.held))) }
{
    match all_taken(tally) {
        Ok(()) => Ok(()),
        Err(tally) => Err(Fault::Desk(DeskFault::Faulty(tally))),
    }
}

// Why no court's file is written.
fn not_written<E: Write>(alloc: Global, errors: &mut Watched<E>, fault: &WriteFault) -> u8
    ensures { (result ≡ write_status fault.now) ⊎ (result ≡ 5) }
{
    let status = match fault {
        WriteFault::BadYears | WriteFault::BadHours => 1,
        WriteFault::NotReadBack => 2,
        WriteFault::OutOfMemory => return ended_by(alloc, errors, &DeskFault::OutOfMemory),
    };
    match format!(in alloc; "error: {fault}\n") {
        Ok(line) => {
            let _ = refused(errors, line.as_str());
            status
        }
        Err(_) => ended_by(alloc, errors, &DeskFault::OutOfMemory),
    }
}

// Says why a journal's file can't be used.
fn unusable<E: Write>(errors: &mut Watched<E>, line: &str) -> u8
    ensures status { result ≡ 10 }
    ensures line { IsGiven E.contents errors.old errors.new line.now }
{
    let _ = refused(errors, line);
    10
}

// Says that other programs had the folder.
fn waited<E: Write>(errors: &mut Watched<E>, line: &str) -> u8
    ensures status { result ≡ 11 }
    ensures line { IsGiven E.contents errors.old errors.new line.now }
{
    let _ = refused(errors, line);
    11
}

/// Says on standard error why the program ends, as far as it can be written, and gives the status.
pub fn told<E: Write>(alloc: Global, errors: &mut Watched<E>, fault: &Fault) -> u8
    ensures { IsTold fault.now result (IsGiven E.contents errors.old errors.new) }
{
    match fault {
        Fault::Desk(fault) => ended_by(alloc, errors, fault),
        Fault::Input(fault) => runs::ended_by(alloc, errors, fault),
        Fault::Missing(line) => missing(errors, line.as_str()),
        Fault::Unusable(line) => unusable(errors, line.as_str()),
        Fault::Waited(line) => waited(errors, line.as_str()),
        Fault::NotWritten(fault) => not_written(alloc, errors, fault),
        Fault::Told(status) => *status,
    }
}

/// Tells what is wrong with the words of the command line, of which no control character reaches a terminal, and gives the status: 1,
/// or 5 where there is no memory for the text.
pub fn misspoken<E: Write>(alloc: Global, errors: &mut Watched<E>, text: &str) -> u8
    ensures { ((result ≡ 1) × IsGiven E.contents errors.old errors.new (lines_shown text.now)) ⊎ (result ≡ 5) }
{
    match lines_shown(alloc, text.as_bytes()) {
        Ok(shown) => {
            if !errors.failed() {
                let _ = write_all(errors, &shown);
            }
            1
        }
        Err(_) => ended_by(alloc, errors, &DeskFault::OutOfMemory),
    }
}
