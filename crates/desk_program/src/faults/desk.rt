//! The faults of all tasks together.
ghost use Rattle.std.specs.Prelude.{◌≡◌};
ghost use Rattle.desk_program.specs.declared.faults.desk.DeskFault.TheVariants.{OutOfMemory};

use super::beginning::BeginFault;
use super::correcting::{CorrectionFault, StrikingFault};
use super::court_file::CourtFileFault;
use super::file::FileFault;
use super::opening::OpenFault;
use super::output::OutputFault;
use super::session::{write_faulty, write_session, write_unkept};
use super::together::TogetherFault;
use desk_session::{SessionFault, Tally};
use std::alloc::{AllocError, AllocFailed};
use thiserror::Error;

/// Why a task of a docket that lasts isn't done, or not as a whole: the faults of all tasks. Its message is its line.
#[derive(Debug, Drop, Error)]
pub enum DeskFault {
    /// The docket isn't opened.
    #[error("{0}")]
    Open(#[from] OpenFault),
    /// A file can't be kept as a court's.
    #[error("{0}")]
    CourtFile(#[from] CourtFileFault),
    /// The docket isn't begun.
    #[error("{0}")]
    Begin(#[from] BeginFault),
    /// The row isn't struck, or isn't restored.
    #[error("{0}")]
    Striking(#[from] StrikingFault),
    /// The other court's file isn't taken.
    #[error("{0}")]
    Change(#[from] CorrectionFault),
    /// The rows aren't kept together.
    #[error("{0}")]
    Together(#[from] TogetherFault),
    /// The session ended early.
    #[error(fmt = write_session)]
    Session(SessionFault),
    /// A session of which nothing is kept ended early.
    #[error(fmt = write_unkept)]
    Unkept(SessionFault),
    /// Some rows had faults or were held back and weren't taken, and the others were: how many of each.
    #[error(fmt = write_faulty)]
    Faulty(Tally),
    /// The input has more than is taken together.
    #[error("the input has more than 16777216 bytes, and nothing is kept: enter it in parts")]
    LongInput,
    /// A file or a folder can't be read, made or opened.
    #[error("{0}")]
    File(#[from] FileFault),
    /// The text isn't written.
    #[error("{0}")]
    Output(#[from] OutputFault),
    /// Memory ran out.
    #[error("out of memory")]
    OutOfMemory,
}

impl From<AllocError> for DeskFault {
    ghost from_gives = { λ _ e. e ≡ OutOfMemory };

    fn from(_: AllocError) -> DeskFault {
        DeskFault::OutOfMemory
    }
}

impl<T: Drop> From<AllocFailed<T>> for DeskFault {
    ghost from_gives = { λ _ e. e ≡ OutOfMemory };

    fn from(_: AllocFailed<T>) -> DeskFault {
        DeskFault::OutOfMemory
    }
}
