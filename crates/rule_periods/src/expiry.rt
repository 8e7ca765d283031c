//! When a period ends, before anything is shown of it.

use court_clock::{Day, Instant};

/// The end of a period in days, or of one in hours.
#[derive(Clone, Copy, Debug, PartialEq, Eq)]
pub enum Expiry {
    /// With a last day.
    OnDay(Day),
    /// At an instant.
    AtInstant(Instant),
}
