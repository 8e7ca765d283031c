//! The outages entered so far.

ghost use Rattle.std.specs.Prelude.{◌≡◌, ◌++◌, ◌∷◌, ℤ, List, [], IfOk, OnOk};
ghost use Rattle.std.specs.Ordering.{int_eq};
ghost use Rattle.std.specs.List.{list_any};
ghost use Rattle.court_days.specs.Days.{OutageView, is_among, has_outage};

use crate::days::dates::Dates;
use crate::days::outage::Outage;
use court_clock::Day;
use std::alloc::{AllocError, Global};
use std::marker::Model;

/// Outages in the order in which they were entered, and the days that have one.
#[derive(Debug, Drop)]
pub(crate) struct Outages {
    outages: Vec<Outage>,
    days: Dates,
}

impl Model for Outages {
    ghost Value = { List OutageView };

    ghost view = { λ o. o.outages.items };

    ghost invariant = { λ o. (d : ℤ) → is_among o.days d ≡ list_any (λ u. int_eq u.day d) o.outages.items };
}

impl Outages {
    /// No outages, for a span from the first day to the last.
    pub(crate) fn empty(alloc: Global, first: Day, last: Day) -> Result<Outages, AllocError>
        ensures { IfOk result (λ o. o ≡ []) }
    {
        Ok(Outages {
            outages: Vec::new(alloc),
            days: Dates::empty(alloc, first, last)?,
        })
    }

    /// Whether one of them is on the day.
    pub(crate) fn lie_on(&self, day: Day) -> bool
        ensures { result ≡ list_any (λ o. int_eq o.day day) self.now }
    {
        self.days.contains(day)
    }

    /// The outages, in the order in which they were entered.
    pub(crate) fn as_slice(&self) -> &[Outage]
        ensures { result.now ≡ self.now }
    {
        &self.outages
    }

    /// The outages and one more, in memory of their own.
    pub(crate) fn with(&self, alloc: Global, outage: Outage) -> Result<Outages, AllocError>
        ensures { IfOk result (λ o. o ≡ self.now ++ outage ∷ []) }
    {
        let mut outages = Vec::from_slice(alloc, &self.outages)?;
        outages.push(outage)?;
        let mut days = self.days.copy(alloc)?;
        days.add(outage.day())?;
        Ok(Outages { outages, days })
    }
}
