//! Why no file is written.

ghost use Rattle.std.specs.Prelude.{◌≡◌};
ghost use Rattle.court_writing.specs.declared.fault.WriteFault.TheVariants.{OutOfMemory};

use std::alloc::AllocError;
use thiserror::Error;

/// Why no court's file is written.
#[derive(Clone, Copy, Debug, PartialEq, Eq, Error)]
pub enum WriteFault {
    /// The years aren't some of 2016 to 2199, the first at or before the last, or they are more than a hundred.
    #[error("the years have to be some of 2016 to 2199, a hundred at most, and the first not after the last")]
    BadYears,
    /// The office doesn't open before it closes.
    #[error("the office has to open before it closes: mend --opens or --closes; without them they are 08:30 and 17:00")]
    BadHours,
    /// The text didn't read back as a court with the days that it was written for. The tests find no such text.
    #[error("the text that was made isn't the file of that court: this is a fault of the program")]
    NotReadBack,
    /// Memory ran out.
    #[error("out of memory")]
    OutOfMemory,
}

impl From<AllocError> for WriteFault {
    ghost from_gives = { λ _ e. e ≡ OutOfMemory };

    fn from(_: AllocError) -> WriteFault {
        WriteFault::OutOfMemory
    }
}
