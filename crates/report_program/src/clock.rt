//! The clock of the system.

ghost use Rattle.std.specs.Prelude.{◌≡◌, pos};

use court_clock::Instant;
use std::rt::Clock;
use std::time::{SystemTime, UNIX_EPOCH};

/// The instant that the system's clock shows, in whole seconds. A clock that can't be read, or that shows a time before 1970 or
/// after 2199, counts as one that shows the first instant of 1970.
pub fn clock_time(clock: &impl Clock) -> Instant {
    match SystemTime::now(clock) {
        Ok(time) => instant_of(time),
        Err(_) => first_instant(),
    }
}

/// The instant of a time.
fn instant_of(time: SystemTime) -> Instant {
    let Ok(since) = time.duration_since(UNIX_EPOCH) else {
        return first_instant();
    };
    let Ok(seconds) = i64::try_from(since.as_secs()) else {
        return first_instant();
    };
    match Instant::new(seconds) {
        Some(instant) => instant,
        None => first_instant(),
    }
}

/// The first instant of 1970, in UTC.
fn first_instant() -> Instant
    ensures { result ≡ pos 0 }
{
    match Instant::new(0) {
        Some(instant) => instant,
        None => unreachable!(),
    }
}
