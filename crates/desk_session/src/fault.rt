//! Why a session ends before its input does.
ghost use Rattle.std.specs.Prelude.{◌≡◌};
ghost use Rattle.desk_session.specs.declared.fault.SessionFault.TheVariants.{OutOfMemory};

use desk_journal::JournalFault;
use std::alloc::{AllocError, AllocFailed};
use thiserror::Error;

/// Why a session ends before its input does. What was answered is kept, whatever it is.
#[derive(Clone, Copy, Debug, PartialEq, Eq, Error)]
pub enum SessionFault {
    /// The lines that were read last can't be kept, and aren't answered.
    #[error("{0}")]
    Journal(JournalFault),
    /// The input can't be read.
    #[error("the input can't be read; what was answered is kept")]
    Read,
    /// The answers can't be written. All lines that were read are kept, also those that were read last.
    #[error("the answers can't be written; the rows that were read are kept, and 'rows' shows them")]
    Write,
    /// A line has more than 65,536 bytes. It and the lines that were read with it aren't kept.
    #[error("a line has more than 65536 bytes; enter again what wasn't answered")]
    LongLine,
    /// The last line has no end, so that it may have been cut. It isn't kept; all lines before it are.
    #[error("the last line has no end and isn't taken; end it with a line feed and enter it again")]
    Unfinished,
    /// Memory ran out. The lines that were read last aren't kept.
    #[error("out of memory")]
    OutOfMemory,
}

impl From<JournalFault> for SessionFault {
    ghost use Rattle.desk_session.specs.Faults.{fault_from};

    ghost from_gives = { λ fault e. e ≡ fault_from fault };

    fn from(fault: JournalFault) -> SessionFault {
        match fault {
            JournalFault::OutOfMemory => SessionFault::OutOfMemory,
            _ => SessionFault::Journal(fault),
        }
    }
}

impl From<AllocError> for SessionFault {
    ghost from_gives = { λ _ e. e ≡ OutOfMemory };

    fn from(_: AllocError) -> SessionFault {
        SessionFault::OutOfMemory
    }
}

impl<T: Drop> From<AllocFailed<T>> for SessionFault {
    ghost from_gives = { λ _ e. e ≡ OutOfMemory };

    fn from(_: AllocFailed<T>) -> SessionFault {
        SessionFault::OutOfMemory
    }
}
