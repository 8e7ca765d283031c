//! The second that a clock shows.
ghost use Rattle.std.specs.Prelude.{◌≡◌, ◌/◌};
ghost use Rattle.std.specs.Time.{system_time_nanos};

use std::rt::Clock;
use std::time::{SystemTime, UNIX_EPOCH};

// The whole seconds of a time since 1970 began.
fn seconds_of(time: SystemTime) -> u64
    ensures { result ≡ system_time_nanos time / 1_000_000_000 }
{
    match time.duration_since(UNIX_EPOCH) {
        Ok(since) => since.as_secs(),
        Err(_) => 0,
    }
}

/// The second that a clock shows, of UTC since 1970 began. A clock that can't be read, or that shows a time before 1970, says 0.
pub fn second_of(clock: &impl Clock) -> u64 {
    match SystemTime::now(clock) {
        Ok(time) => seconds_of(time),
        Err(_) => 0,
    }
}
