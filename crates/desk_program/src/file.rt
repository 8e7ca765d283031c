//! The journal's file of a folder.
ghost use Rattle.std.specs.Prelude.{◌≡◌, ◌≢◌, ◌⊎◌, IfOk};
ghost use Rattle.std.specs.IoError.{error_kind};
ghost use Rattle.desk_journal.specs.Words.{IsDurable};
ghost use Rattle.desk_program.specs.Faults.{IsNamed};

use crate::faults::FileFault;
use sqlite_disk::{Disk, Start};
use sqlite_std_file::{FileFrom, OpenError, open};
use std::alloc::Global;
use std::io::{self, ErrorKind};

/// The fault of a call on the file or the folder of that name. Want of memory has no name.
pub fn file_fault(alloc: Global, name: &str, error: io::Error) -> FileFault
    ensures memory { error_kind error ≡ ErrorKind.OutOfMemory → result ≡ FileFault.OutOfMemory }
    ensures named { error_kind error ≢ ErrorKind.OutOfMemory → IsNamed name.now error result ⊎ (result ≡ FileFault.OutOfMemory) }
{
    if error.kind() == ErrorKind::OutOfMemory {
        return FileFault::OutOfMemory;
    }
    match String::from_str(alloc, name) {
        Ok(name) => FileFault::Named(name, error),
        Err(_) => FileFault::OutOfMemory,
    }
}

/// Opens a journal's file, or makes it. No other program can open it until it is dropped. What it holds is that of `start`,
/// which stands for what no code can read before: by the model of the disk it is all on the disk, and a read gives it.
pub fn open_file<S: Start>(rt: &HostRuntime, path: &str, start: S) -> Result<FileFrom<S>, FileFault>
    ensures { IfOk result (λ file. IsDurable ⟦<FileFrom<S> as Disk>⟧ S.Start.db file) }
{
    match open(rt, path, start) {
        Ok(files) => Ok(files.db),
        Err(OpenError::Busy) => Err(FileFault::Busy),
        Err(OpenError::HotJournal) => Err(FileFault::Foreign),
        Err(OpenError::OutOfMemory) => Err(FileFault::OutOfMemory),
        Err(OpenError::Io(error)) => Err(file_fault(rt.alloc(), path, error)),
    }
}
