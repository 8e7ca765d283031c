//! Instants in whole seconds.

ghost use Rattle.std.specs.Prelude.{◌≡◌, ◌↔◌, ℤ, IsSome, IfSome};
ghost use Rattle.court_clock.specs.Clock.{IsInstantSecond};

use std::marker::Model;

/// An instant: whole seconds from 1970-01-01T00:00Z, from -9,600,000,000 to 9,600,000,000.
#[derive(Clone, Copy, Debug, PartialEq, Eq, PartialOrd, Ord)]
pub struct Instant {
    second: i64,
}

impl Model for Instant {
    ghost Value = { ℤ };

    ghost view = { λ t. t.second };

    ghost invariant = { λ t. IsInstantSecond t.second };

    ghost inverse = { λ n. record { second = n } };
}

impl Instant {
    /// The instant that is `second` seconds after 1970-01-01T00:00Z, or before it for a negative number.
    /// None outside -9,600,000,000 to 9,600,000,000.
    pub fn new(second: i64) -> Option<Instant>
        ensures some { IsSome result ↔ IsInstantSecond second }
        ensures value { IfSome result (λ t. t ≡ second) }
    {
        if second < -9_600_000_000 || second > 9_600_000_000 {
            return None;
        }
        Some(Instant { second })
    }

    /// The seconds from 1970-01-01T00:00Z, negative before it.
    pub fn seconds(self) -> i64
        ensures value { result ≡ self }
        ensures in_range { IsInstantSecond result }
    {
        self.second
    }
}
