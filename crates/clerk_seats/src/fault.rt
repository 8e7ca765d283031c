//! Why an office isn't opened or closed, and why a command isn't finished.

ghost use Rattle.std.specs.Prelude.{◌≡◌};
ghost use Rattle.clerk_seats.specs.declared.fault.CommitError.TheVariants.{OutOfMemory};
ghost use Rattle.clerk_seats.specs.declared.fault.OfficeError.TheVariants as office;
ghost use Rattle.clerk_seats.specs.declared.fault.PerformError.TheVariants as perform;

use docket_rows::PartId;
use std::alloc::AllocError;
use thiserror::Error;

/// Why no office was opened, the first reason that applies.
#[derive(Clone, Copy, Debug, PartialEq, Eq, Error)]
pub enum OfficeError {
    /// 1: there are to be no seats, or more than 64.
    #[error("an office has 1 to 64 seats")]
    BadSeats,
    /// 2: the journal is to take more than 1,000,000 entries.
    #[error("a journal takes at most 1,000,000 entries")]
    BadLimit,
    /// 3: there was no place for a seat to read from, or no memory for its reader. The two can't be told apart. It may
    /// come without cause.
    #[error("a seat got no place to read from")]
    NoReader,
    /// 4: no memory was left.
    #[error("out of memory")]
    OutOfMemory,
}

impl From<AllocError> for OfficeError {
    ghost from_gives = { λ _ e. e ≡ office.OutOfMemory };

    fn from(_: AllocError) -> OfficeError {
        OfficeError::OutOfMemory
    }
}

/// Why a prepared command wasn't finished, the first reason that applies. None of them changes the journal.
#[derive(Clone, Copy, Debug, PartialEq, Eq, Error)]
pub enum CommitError {
    /// 1: the seat has no draft.
    #[error("nothing is prepared")]
    NothingPrepared,
    /// 2: the journal has as many entries as it takes. The draft is kept.
    #[error("the journal is full")]
    JournalFull,
    /// 3: an entry has touched this part after the draft read it, and this is the place of the last one to do so. It is
    /// the first such part in read order. The draft is dropped.
    #[error("a part was touched after it was read")]
    Stale(PartId, u64),
    /// 4: no memory was left. The draft is kept.
    #[error("out of memory")]
    OutOfMemory,
}

impl From<AllocError> for CommitError {
    ghost from_gives = { λ _ e. e ≡ OutOfMemory };

    fn from(_: AllocError) -> CommitError {
        CommitError::OutOfMemory
    }
}

/// Why a command wasn't finished. Neither of them changes the journal, and no draft is left.
#[derive(Clone, Copy, Debug, PartialEq, Eq, Error)]
pub enum PerformError {
    /// The journal has as many entries as it takes.
    #[error("the journal is full")]
    JournalFull,
    /// No memory was left. It may come before a full journal is found, since the command's parts are read first.
    #[error("out of memory")]
    OutOfMemory,
}

impl From<AllocError> for PerformError {
    ghost from_gives = { λ _ e. e ≡ perform.OutOfMemory };

    fn from(_: AllocError) -> PerformError {
        PerformError::OutOfMemory
    }
}

/// Why an office wasn't closed, the first reason that applies. It and the tallies stay as they were.
#[derive(Clone, Copy, Debug, PartialEq, Eq, Error)]
pub enum CloseError {
    /// 1: there is no tally of the seat of this number, the least such. Seats are numbered from 1.
    #[error("the tally of seat {0} is missing")]
    MissingTally(u8),
    /// 2: no memory was left. Closing takes none, so this doesn't come.
    #[error("out of memory")]
    OutOfMemory,
}
