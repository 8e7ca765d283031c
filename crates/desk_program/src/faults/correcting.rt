//! Why a correction isn't taken: a strike, a restore, or another court's file.

use super::court_file::CourtFileFault;
use super::journal::{journal_status, write_journal_fault};
use desk_entries::StrikeFault;
use desk_journal::JournalFault;
use std::alloc::AllocError;
use std::fmt;
use thiserror::Error;

/// Why a correction isn't taken: a strike, a restore, or another court's file.
#[derive(Debug, Drop, Error)]
pub enum CorrectionFault {
    /// The court's file that would stand can't be kept.
    #[error("{0}")]
    CourtFile(CourtFileFault),
    /// This many rows would get other answers.
    #[error(fmt = write_differs)]
    Differs(usize),
    /// The journal can't be written.
    #[error(fmt = write_journal_fault)]
    Journal(JournalFault),
    /// What it changes can't be written.
    #[error("write fault")]
    Write,
    /// Memory ran out.
    #[error("out of memory")]
    OutOfMemory,
}

// How many answers would differ.
fn write_differs<W: fmt::Write>(count: &usize, f: &mut fmt::Formatter<W>) -> fmt::Result {
    match *count {
        1 => f.write_str("an answer would differ: nothing is changed, unless --accept says so"),
        count => write!(
            f,
            "{count} answers would differ: nothing is changed, unless --accept says so"
        ),
    }
}

impl From<JournalFault> for CorrectionFault {
    ghost use Rattle.std.specs.Prelude.{◌≡◌};
    ghost use Rattle.desk_program.specs.Faults.{untaken_journal};

    ghost from_gives = { λ fault e. e ≡ untaken_journal fault };

    fn from(fault: JournalFault) -> CorrectionFault {
        match fault {
            JournalFault::OutOfMemory => CorrectionFault::OutOfMemory,
            _ => CorrectionFault::Journal(fault),
        }
    }
}

impl CorrectionFault {
    ghost use Rattle.std.specs.Prelude.{◌≡◌};
    ghost use Rattle.desk_program.specs.Faults.{correction_status};

    /// The status with which the program ends after the fault.
    pub(crate) fn status(&self) -> u8
        ensures { result ≡ correction_status self.now }
    {
        match self {
            CorrectionFault::CourtFile(fault) => fault.status(),
            CorrectionFault::Differs(_) => 7,
            CorrectionFault::Journal(fault) => journal_status(fault),
            CorrectionFault::Write => 4,
            CorrectionFault::OutOfMemory => 5,
        }
    }
}

/// Why a row isn't struck, or isn't restored.
#[derive(Debug, Drop, Error)]
pub enum StrikingFault {
    /// It can't be struck, or can't be restored.
    #[error("nothing is changed: {0}")]
    Unstruck(StrikeFault),
    /// The correction isn't taken.
    #[error("{0}")]
    Untaken(CorrectionFault),
}

impl From<AllocError> for StrikingFault {
    ghost use Rattle.std.specs.Prelude.{◌≡◌};
    ghost use Rattle.desk_program.specs.declared.faults.correcting.CorrectionFault.TheVariants.{OutOfMemory};
    ghost use Rattle.desk_program.specs.declared.faults.correcting.StrikingFault.TheVariants.{Untaken};

    ghost from_gives = { λ _ e. e ≡ Untaken OutOfMemory };

    fn from(_: AllocError) -> StrikingFault {
        StrikingFault::Untaken(CorrectionFault::OutOfMemory)
    }
}

impl StrikingFault {
    ghost use Rattle.std.specs.Prelude.{◌≡◌};
    ghost use Rattle.desk_program.specs.Faults.{striking_status};

    /// The status with which the program ends after the fault.
    pub(crate) fn status(&self) -> u8
        ensures { result ≡ striking_status self.now }
    {
        match self {
            StrikingFault::Unstruck(_) => 3,
            StrikingFault::Untaken(fault) => fault.status(),
        }
    }
}
