//! Why rows aren't kept together.

use super::session::{session_status, write_session, write_unkept};
use desk_session::SessionFault;
use std::fmt;
use thiserror::Error;

/// Why rows aren't kept together.
#[derive(Debug, Drop, Error)]
pub enum TogetherFault {
    /// This many lines have a fault, and none of the rows is kept.
    #[error(fmt = write_faults)]
    Faults(usize),
    /// The command in this line would be refused, or names what isn't found, and none of the rows is kept.
    #[error("line {0} wouldn't be done, so nothing is kept: mend the list and enter all of it again; --keep-refused keeps a list in which a command is refused")]
    Refused(usize),
    /// The row in this line draws a warning, and none of the rows is kept.
    #[error("the row in line {0} draws a warning, so nothing is kept: mend it, or put a '!' before it, and enter all lines again")]
    Held(usize),
    /// The session ended early, and some of the rows may be kept.
    #[error(fmt = write_session)]
    Session(SessionFault),
    /// The session ended early, and none of the rows is kept.
    #[error(fmt = write_unkept)]
    Unkept(SessionFault),
    /// Memory ran out.
    #[error("out of memory")]
    OutOfMemory,
}

// How many lines have faults.
fn write_faults<W: fmt::Write>(count: &usize, f: &mut fmt::Formatter<W>) -> fmt::Result {
    match *count {
        1 => f.write_str(
            "a line has a fault, so nothing is kept: mend it and enter all lines again",
        ),
        count => write!(
            f,
            "{count} lines have faults, so nothing is kept: mend them and enter all lines again"
        ),
    }
}

impl TogetherFault {
    ghost use Rattle.std.specs.Prelude.{◌≡◌};
    ghost use Rattle.desk_program.specs.Faults.{together_status};

    /// The status with which the program ends after the fault.
    pub(crate) fn status(&self) -> u8
        ensures { result ≡ together_status self.now }
    {
        match self {
            TogetherFault::Session(fault) | TogetherFault::Unkept(fault) => session_status(fault),
            TogetherFault::OutOfMemory => 5,
            _ => 3,
        }
    }
}
