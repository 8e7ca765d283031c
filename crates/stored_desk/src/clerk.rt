//! Who enters rows in these sessions, and when.
use desk_journal::Stamp;
use std::alloc::{AllocError, Global};
use std::io;
use std::rt::Clock;
use std::time::Duration;

// The second of UTC at which all is entered, on 9 October 2025.
const SECOND: u64 = 1_760_000_000;

/// A clock that shows that second.
pub struct OneSecond;

impl Clock for OneSecond {
    fn monotonic(&self) -> io::Result<Duration> {
        Ok(Duration::ZERO)
    }

    fn since_1970(&self) -> io::Result<Duration> {
        Ok(Duration::from_secs(SECOND))
    }
}

/// What each entry has.
pub fn stamp(alloc: Global) -> Result<Stamp, AllocError> {
    Ok(Stamp::new(SECOND, Vec::from_slice(alloc, b"a@b (1)")?))
}
