//! Why a stream isn't read or written to its end.

use thiserror::Error;

/// Why a stream isn't read or written to its end.
#[derive(Clone, Copy, Debug, PartialEq, Eq, Error)]
pub enum StreamFault {
    /// A read answered with an error, or there is more to read than is taken.
    #[error("read fault")]
    Read,
    /// A write answered with an error, or took none of some bytes.
    #[error("write fault")]
    Write,
    /// No memory was left.
    #[error("out of memory")]
    OutOfMemory,
}
