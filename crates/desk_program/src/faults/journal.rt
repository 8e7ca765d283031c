//! What is said of the faults of a folder's journal.
ghost use Rattle.std.specs.Prelude.{◌≡◌};
ghost use Rattle.desk_program.specs.Faults.{journal_status};

use desk_journal::JournalFault;
use std::fmt;

/// The status with which the program ends after the fault.
pub(super) fn journal_status(fault: &JournalFault) -> u8
    ensures { result ≡ journal_status fault.now }
{
    match fault {
        JournalFault::OutOfMemory => 5,
        _ => 10,
    }
}

/// What is wrong with a journal that is written to, or is to be.
pub(super) fn write_journal_fault<W: fmt::Write>(
    fault: &JournalFault,
    f: &mut fmt::Formatter<W>,
) -> fmt::Result {
    match fault {
        JournalFault::Older => f.write_str(
            "the journal is of an earlier format, which this program doesn't read: open the folder with the version that wrote it",
        ),
        JournalFault::Changed => f.write_str(
            "another program has written to the journal since this one read it, or put another file in its place: nothing more is kept or answered",
        ),
        _ => write!(f, "{fault}"),
    }
}
