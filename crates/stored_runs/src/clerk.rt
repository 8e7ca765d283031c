//! Who enters rows in these runs, and when: always the same.

use desk_journal::Stamp;
use std::alloc::{AllocError, Global};
use std::io;
use std::rt::Clock;
use std::time::Duration;

/// The account of the clerk in these runs.
pub(crate) const ACCOUNT: &str = "clerk@court (1000)";

/// A clock that shows the first instant of 1970, as it does to `asked_of` in these runs.
pub(crate) struct FirstClock;

impl Clock for FirstClock {
    fn monotonic(&self) -> io::Result<Duration> {
        Ok(Duration::ZERO)
    }

    fn since_1970(&self) -> io::Result<Duration> {
        Ok(Duration::ZERO)
    }
}

/// What each entry has of these runs.
pub(crate) fn stamp(alloc: Global) -> Result<Stamp, AllocError> {
    Ok(Stamp::new(0, Vec::from_slice(alloc, ACCOUNT.as_bytes())?))
}
