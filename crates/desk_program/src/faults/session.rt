//! What is said of a session of lines that ended early.
ghost use Rattle.std.specs.Prelude.{◌≡◌};
ghost use Rattle.desk_program.specs.Faults.{session_status};

use super::journal::write_journal_fault;
use desk_session::{SessionFault, Tally};
use std::fmt;

/// The status with which the program ends after the fault.
pub(crate) fn session_status(fault: &SessionFault) -> u8
    ensures { result ≡ session_status fault.now }
{
    match fault {
        SessionFault::Journal(_) => 10,
        SessionFault::OutOfMemory => 5,
        _ => 4,
    }
}

/// Why a session ended early.
pub(super) fn write_session<W: fmt::Write>(
    fault: &SessionFault,
    f: &mut fmt::Formatter<W>,
) -> fmt::Result {
    match fault {
        SessionFault::Journal(fault) => write_journal_fault(fault, f),
        _ => write!(f, "{fault}"),
    }
}

/// Why a session of which nothing is kept ended early.
pub(super) fn write_unkept<W: fmt::Write>(
    fault: &SessionFault,
    f: &mut fmt::Formatter<W>,
) -> fmt::Result {
    match fault {
        SessionFault::Journal(fault) => write!(f, "{fault}"),
        SessionFault::Read => f.write_str("the input can't be read, and nothing of it is kept"),
        SessionFault::Write => f.write_str("the output can't be written, and nothing is kept"),
        SessionFault::LongLine => f.write_str(
            "a line has more than 65536 bytes, and nothing is kept",
        ),
        SessionFault::Unfinished => f.write_str(
            "the last line has no end, so it may have been cut, and nothing is kept: end it with a line feed",
        ),
        SessionFault::OutOfMemory => f.write_str("out of memory"),
    }
}

/// How many rows had faults, and how many were held back, among others that were taken.
pub(super) fn write_faulty<W: fmt::Write>(tally: &Tally, f: &mut fmt::Formatter<W>) -> fmt::Result {
    let Tally { rows, faults, held } = *tally;
    match (faults, held) {
        (1, 0) => write!(
            f,
            "1 of {rows} rows had a fault and wasn't taken: mend it and enter it again"
        ),
        (_, 0) => write!(
            f,
            "{faults} of {rows} rows had faults and weren't taken: mend them and enter them again"
        ),
        (0, 1) => write!(
            f,
            "1 of {rows} rows was held back and isn't kept: mend it, or enter it with a '!' before it"
        ),
        (0, _) => write!(
            f,
            "{held} of {rows} rows were held back and aren't kept: mend them, or enter them with a '!' before them"
        ),
        _ => {
            let with = if faults == 1 { "a fault" } else { "faults" };
            let were = if held == 1 { "was" } else { "were" };
            write!(
                f,
                "{faults} of {rows} rows had {with} and {held} {were} held back, and none of these is kept: mend them and enter them again"
            )
        }
    }
}
