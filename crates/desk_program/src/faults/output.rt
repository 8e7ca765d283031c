//! Why a text isn't written.
ghost use Rattle.std.specs.Prelude.{◌≡◌};
ghost use Rattle.desk_program.specs.declared.faults.output.OutputFault.TheVariants.{OutOfMemory};

use std::alloc::{AllocError, AllocFailed};
use thiserror::Error;

/// Why a text isn't written. It is what `StreamFault` says, without the reads.
#[derive(Clone, Copy, Debug, PartialEq, Eq, Error)]
pub enum OutputFault {
    /// The output can't be written.
    #[error("write fault")]
    Write,
    /// Memory ran out.
    #[error("out of memory")]
    OutOfMemory,
}

impl From<AllocError> for OutputFault {
    ghost from_gives = { λ _ e. e ≡ OutOfMemory };

    fn from(_: AllocError) -> OutputFault {
        OutputFault::OutOfMemory
    }
}

impl<T: Drop> From<AllocFailed<T>> for OutputFault {
    ghost from_gives = { λ _ e. e ≡ OutOfMemory };

    fn from(_: AllocFailed<T>) -> OutputFault {
        OutputFault::OutOfMemory
    }
}

impl OutputFault {
    ghost use Rattle.desk_program.specs.Faults.{output_status};

    /// The status with which the program ends after the fault.
    pub(crate) fn status(&self) -> u8
        ensures { result ≡ output_status self.now }
    {
        match self {
            OutputFault::Write => 4,
            OutputFault::OutOfMemory => 5,
        }
    }
}
