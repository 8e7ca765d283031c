//! When the clerk's office was inaccessible.

ghost use Rattle.std.specs.Prelude.{◌≡◌, ◌↔◌, ◌<◌, ◌≤◌, ℕ, IsSome, IfSome};
ghost use Rattle.court_days.specs.Days.{OutageView};

use court_clock::Day;
use std::marker::Model;

/// A span of minutes on one day in which the clerk's office was inaccessible (Fed. R. Civ. P. 6(a)(3)).
/// Minutes are counted from midnight in the court's zone; the first is included and the last is not.
#[derive(Clone, Copy, Debug, PartialEq, Eq)]
pub struct Outage {
    day: Day,
    from: u16,
    to: u16,
}

impl Model for Outage {
    ghost Value = { OutageView };

    ghost view = { λ o. record { day = o.day; from = o.from; to = o.to } };

    ghost invariant = { λ o. (o.from < o.to) × (o.to ≤ 1440) };

    ghost inverse = { λ v. record { day = v.day; from = v.from; to = v.to } };
}

impl Outage {
    /// An outage on `day` from minute `from` up to minute `to`. None unless `from < to <= 1440`.
    pub fn new(day: Day, from: u16, to: u16) -> Option<Outage>
        ensures some { IsSome result ↔ ((from < to) × (to ≤ 1440)) }
        ensures value { IfSome result (λ o. o ≡ record { day = day; from = from; to = to }) }
    {
        if from >= to || to > 1440 {
            return None;
        }
        Some(Outage { day, from, to })
    }

    /// The day on which the office was inaccessible.
    pub fn day(self) -> Day
        ensures { result ≡ self.day }
    {
        self.day
    }

    /// The first minute of the outage.
    pub fn from(self) -> u16
        ensures value { result ≡ self.from }
        ensures ordered { self.from < self.to }
    {
        self.from
    }

    /// The first minute after the outage.
    pub fn to(self) -> u16
        ensures value { result ≡ self.to }
        ensures within_the_day { self.to ≤ 1440 }
    {
        self.to
    }
}
