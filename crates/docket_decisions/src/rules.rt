//! What no command changes of a court.

ghost use Rattle.std.specs.Prelude.{◌≡◌, ◌≤◌, IfOk};
ghost use Rattle.docket_rows.specs.Words.{CourtSetup, setup_of};

use court_clock::Clock;
use court_days::{Court, Days};
use std::alloc::AllocError;
use std::marker::Model;

/// The court's clock, the days of its file, and how many judges and rooms it has: by these each command is decided.
#[derive(Drop)]
pub struct DocketRules {
    clock: Clock,
    days: Days,
    judges: u8,
    rooms: u8,
}

impl Model for DocketRules {
    ghost Value = { CourtSetup };

    ghost view = { λ r. record { clock = r.clock; days = r.days; judges = r.judges; rooms = r.rooms } };

    ghost invariant = { λ r. (r.judges ≤ 32) × (r.rooms ≤ 32) };
}

impl DocketRules {
    /// The rules of this court. `Err` says that memory ran out.
    pub fn new(court: &Court) -> Result<DocketRules, AllocError>
        ensures value { IfOk result (λ rules. rules ≡ setup_of court.now) }
        ensures few { IfOk result (λ rules. (rules.judges ≤ 32) × (rules.rooms ≤ 32)) }
    {
        Ok(DocketRules {
            clock: court.clock().copy()?,
            days: court.days().copy()?,
            judges: court.judges(),
            rooms: court.rooms(),
        })
    }

    /// The same rules, which share the clock and the days. `Err` says that there are as many copies as can be counted.
    pub fn copy(&self) -> Result<DocketRules, AllocError>
        ensures { IfOk result (λ rules. rules ≡ self.now) }
    {
        Ok(DocketRules {
            clock: self.clock.copy()?,
            days: self.days.copy()?,
            judges: self.judges,
            rooms: self.rooms,
        })
    }

    /// The court's clock.
    pub fn clock(&self) -> &Clock
        ensures { result.now ≡ self.now.clock }
    {
        &self.clock
    }

    /// The days of the court's file.
    pub(crate) fn days(&self) -> &Days
        ensures { result.now ≡ self.now.days }
    {
        &self.days
    }

    /// How many judges the court has.
    pub fn judges(&self) -> u8
        ensures value { result ≡ self.now.judges }
        ensures most { result ≤ 32 }
    {
        self.judges
    }

    /// How many rooms the court has.
    pub(crate) fn rooms(&self) -> u8
        ensures value { result ≡ self.now.rooms }
        ensures most { result ≤ 32 }
    {
        self.rooms
    }
}
