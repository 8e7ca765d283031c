//! Why a file can't be kept as a court's.
ghost use Rattle.std.specs.Prelude.{◌≡◌};
ghost use Rattle.desk_program.specs.declared.faults.court_file.CourtFileFault.TheVariants.{OutOfMemory};

use court_file_text::CourtFault;
use std::alloc::AllocError;
use thiserror::Error;

/// Why a file can't be kept as a court's.
#[derive(Debug, Drop, Error)]
pub enum CourtFileFault {
    /// It has this fault, its first.
    #[error("court fault {0}")]
    Court(CourtFault),
    /// It has a line `%%`, which is this one, counted from 1.
    #[error("line {0} of the court's file is %%, which ends a court's file: write it otherwise")]
    Divided(usize),
    /// Memory ran out.
    #[error("out of memory")]
    OutOfMemory,
}

impl From<AllocError> for CourtFileFault {
    ghost from_gives = { λ _ e. e ≡ OutOfMemory };

    fn from(_: AllocError) -> CourtFileFault {
        CourtFileFault::OutOfMemory
    }
}

impl CourtFileFault {
    ghost use Rattle.desk_program.specs.Faults.{court_file_status};

    /// The status with which the program ends after the fault.
    pub(crate) fn status(&self) -> u8
        ensures { result ≡ court_file_status self.now }
    {
        match self {
            CourtFileFault::Court(CourtFault::OutOfMemory) | CourtFileFault::OutOfMemory => 5,
            CourtFileFault::Court(_) | CourtFileFault::Divided(_) => 2,
        }
    }
}
