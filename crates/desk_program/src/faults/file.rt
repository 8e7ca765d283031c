//! Why a file or a folder can't be read, made or opened.

use std::alloc::AllocError;
use std::io;
use thiserror::Error;

/// Why a file or a folder can't be read, made or opened.
#[derive(Debug, Drop, Error)]
pub enum FileFault {
    /// Another program has the folder's journal open.
    #[error("another program has the journal open: enter rows there, or ask beside it with 'ask'")]
    Busy,
    /// The folder has a file `journal-journal`, which isn't the desk's.
    #[error("the folder has a file journal-journal, which isn't the desk's: move it away")]
    Foreign,
    /// The call on the file or the folder of this name has this error.
    #[error("{0}: {1}")]
    Named(String, io::Error),
    /// Memory ran out.
    #[error("out of memory")]
    OutOfMemory,
}

impl From<AllocError> for FileFault {
    ghost use Rattle.std.specs.Prelude.{◌≡◌};
    ghost use Rattle.desk_program.specs.declared.faults.file.FileFault.TheVariants.{OutOfMemory};

    ghost from_gives = { λ _ e. e ≡ OutOfMemory };

    fn from(_: AllocError) -> FileFault {
        FileFault::OutOfMemory
    }
}

impl FileFault {
    ghost use Rattle.std.specs.Prelude.{◌≡◌};
    ghost use Rattle.desk_program.specs.Faults.{file_status};

    /// The status with which the program ends after the fault.
    pub(crate) fn status(&self) -> u8
        ensures { result ≡ file_status self.now }
    {
        match self {
            FileFault::Busy | FileFault::Foreign => 10,
            FileFault::Named(_, _) => 4,
            FileFault::OutOfMemory => 5,
        }
    }
}
