//! Why a docket isn't begun.

use super::court_file::CourtFileFault;
use super::journal::{journal_status, write_journal_fault};
use desk_journal::JournalFault;
use thiserror::Error;

/// Why a docket isn't begun.
#[derive(Debug, Drop, Error)]
pub enum BeginFault {
    /// The court's file can't be kept.
    #[error("{0}")]
    CourtFile(CourtFileFault),
    /// There is a journal with entries already.
    #[error("the folder has a journal already: 'enter' goes on with it")]
    Taken,
    /// The journal can't be read or written.
    #[error(fmt = write_journal_fault)]
    Journal(JournalFault),
    /// Memory ran out.
    #[error("out of memory")]
    OutOfMemory,
}

impl From<JournalFault> for BeginFault {
    ghost use Rattle.std.specs.Prelude.{◌≡◌};
    ghost use Rattle.desk_program.specs.Faults.{unbegun_journal};

    ghost from_gives = { λ fault e. e ≡ unbegun_journal fault };

    fn from(fault: JournalFault) -> BeginFault {
        match fault {
            JournalFault::Taken => BeginFault::Taken,
            JournalFault::OutOfMemory => BeginFault::OutOfMemory,
            _ => BeginFault::Journal(fault),
        }
    }
}

impl BeginFault {
    ghost use Rattle.std.specs.Prelude.{◌≡◌};
    ghost use Rattle.desk_program.specs.Faults.{begin_status};

    /// The status with which the program ends after the fault.
    pub(crate) fn status(&self) -> u8
        ensures { result ≡ begin_status self.now }
    {
        match self {
            BeginFault::CourtFile(fault) => fault.status(),
            BeginFault::Taken => 10,
            BeginFault::Journal(fault) => journal_status(fault),
            BeginFault::OutOfMemory => 5,
        }
    }
}
