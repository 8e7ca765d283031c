//! Why the words of a command line gave no options.

ghost use Rattle.std.specs.Prelude.{◌≡◌};
ghost use Rattle.program_main.specs.declared.options.fault.OptionsFault.TheVariants.{OutOfMemory};

use std::alloc::AllocError;
use thiserror::Error;

/// Why the words of a command line gave no options. Each text ends with the end of a line.
#[derive(Debug, Drop, Error)]
pub enum OptionsFault {
    /// The words name something that the program doesn't have, or a value that it doesn't take. The text says which.
    #[error("{0}")]
    BadWords(String),
    /// The words ask for the help or for the version, and this is the text.
    #[error("{0}")]
    Help(String),
    /// No memory was left.
    #[error("out of memory")]
    OutOfMemory,
}

impl From<AllocError> for OptionsFault {
    ghost from_gives = { λ _ e. e ≡ OutOfMemory };

    fn from(_: AllocError) -> OptionsFault {
        OptionsFault::OutOfMemory
    }
}
