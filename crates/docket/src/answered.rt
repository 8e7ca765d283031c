//! Whether each row that a session kept was answered.

use crate::fault::Fault;
use desk_journal::JournalFault;
use desk_program::{DeskFault, FileFault, TogetherFault};
use desk_session::SessionFault;

// Whether each row that is kept was answered, where the session ended with this fault.
fn is_answered_at(fault: &SessionFault) -> bool {
    match fault {
        SessionFault::Journal(fault) => is_unchanged_by(fault),
        SessionFault::Write | SessionFault::OutOfMemory => false,
        _ => true,
    }
}

// The same of rows that were to be kept together.
fn is_answered_together(fault: &TogetherFault) -> bool {
    match fault {
        TogetherFault::Session(fault) => is_answered_at(fault),
        TogetherFault::OutOfMemory => false,
        _ => true,
    }
}

// The same, where the desk says so.
fn is_answered_by(fault: &DeskFault) -> bool {
    match fault {
        DeskFault::Session(fault) => is_answered_at(fault),
        DeskFault::Together(fault) => is_answered_together(fault),
        DeskFault::File(FileFault::OutOfMemory) | DeskFault::OutOfMemory => false,
        _ => true,
    }
}

/// Whether each row that is kept was answered, by what the session came to.
pub fn is_answered(ended: &Result<(), Fault>) -> bool {
    match ended {
        Ok(()) => true,
        Err(fault) => match fault {
            Fault::Desk(fault) => is_answered_by(fault),
            _ => true,
        },
    }
}

// Whether nothing was written to the journal at this fault.
fn is_unchanged_by(fault: &JournalFault) -> bool {
    match fault {
        JournalFault::Changed | JournalFault::Full => true,
        _ => false,
    }
}
