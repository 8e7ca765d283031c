//! What strikes and restores come to.
ghost use Rattle.std.specs.Prelude.{◌≡◌, nat_eq, not, IfOk, OnErr, OnOk};
ghost use Rattle.desk_numbers.specs.Strikes.Corrections.{CorrectionsView, is_struck, no_corrections, struck_with, struck_without};

use crate::KeptNumbers;
use indexmap::IndexSet;
use std::alloc::{AllocError, Global};
use std::marker::Model;

/// The rows that are struck, and the numbers that rows keep.
#[derive(Debug, Drop)]
pub struct Corrections {
    struck: IndexSet<u32>,
    kept: KeptNumbers,
}

impl Model for Corrections {
    ghost Value = { CorrectionsView };

    ghost view = { λ c. record { struck = c.struck.keys; kept = c.kept } };
}

impl Corrections {
    /// None.
    pub fn new(alloc: Global) -> Corrections
        ensures { result ≡ no_corrections }
    {
        Corrections {
            struck: IndexSet::new(alloc),
            kept: KeptNumbers::new(alloc),
        }
    }

    /// Others of the same rows, after which rows keep these numbers. `Err` says that memory ran out.
    pub fn keeping(&self, kept: KeptNumbers) -> Result<Corrections, AllocError>
        ensures { IfOk result (λ corrections. corrections ≡ record { struck = self.now.struck; kept = kept }) }
    {
        Ok(Corrections {
            struck: self.struck.clone()?,
            kept,
        })
    }

    /// Whether the row of that number, counted from 1, is struck.
    pub fn is_struck(&self, row: u32) -> bool
        ensures { result ≡ is_struck self.now row }
    {
        self.struck.contains(&row)
    }

    /// The numbers that rows keep.
    pub fn kept(&self) -> &KeptNumbers
        ensures { result.now ≡ self.now.kept }
    {
        &self.kept
    }

    /// Strikes the row of that number. `Err` says that memory ran out, and leaves the corrections as they were.
    #[tactic(auto, unfolding(crate::specs::Strikes::Corrections::struck_with))]
    pub fn strike(&mut self, row: u32) -> Result<(), AllocError>
        ensures ok { OnOk result (self.new ≡ record { struck = struck_with self.old.struck row; kept = self.old.kept }) }
        ensures err { OnErr result (self.new ≡ self.old) }
    {
        self.struck.insert(row)?;
        Ok(())
    }

    /// Restores the row of that number: it isn't struck from here on, and the others are as they were.
    pub fn restore(&mut self, row: u32)
        ensures { self.new ≡ record { struck = struck_without self.old.struck row; kept = self.old.kept } }
    {
        self.struck.retain(
            |other: &u32| -> bool
                ensures { result ≡ not (nat_eq other.now row) }
            { *other != row },
        );
    }
}
