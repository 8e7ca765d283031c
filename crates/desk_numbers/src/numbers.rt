//! The numbers of what rows start and enter, as they are decided one after another.
ghost use Rattle.std.specs.Prelude.{◌≡◌, [], max, IfOk, OnOk};
ghost use Rattle.desk_numbers.specs.Given.{last_given};
ghost use Rattle.desk_numbers.specs.Numbers.{NumbersView, fitted, no_numbers, number_for, numbers_after, passed, with_number};

use crate::given::Given;
use crate::kept::KeptNumbers;
use crate::moved::{Moved, MovedNumbers};
use std::alloc::{AllocError, Global};
use std::marker::Model;

/// What rows gave so far, and what has another number than its place.
#[derive(Debug, Drop)]
pub struct RowNumbers {
    // By row.
    given: Vec<Option<Given>>,
    moved: MovedNumbers,
}

impl Model for RowNumbers {
    ghost Value = { NumbersView };

    ghost view = { λ n. record { given = n.given.items; moved = n.moved } };
}

// A number, or the place where it doesn't fit 32 bits.
fn fitted(place: u32, number: u64) -> u32
    ensures { result ≡ fitted place number }
{
    match u32::try_from(number) {
        Ok(number) => number,
        Err(_) => place,
    }
}

impl RowNumbers {
    /// Those before the first row.
    pub fn new(alloc: Global) -> RowNumbers
        ensures { result ≡ no_numbers }
    {
        RowNumbers {
            given: Vec::new(alloc),
            moved: MovedNumbers::new(alloc),
        }
    }

    /// What has another number than its place.
    pub fn moved(&self) -> &MovedNumbers
        ensures { result.now ≡ self.now.moved }
    {
        &self.moved
    }

    /// By row, the number that it gave so far. A row that is struck or refused since keeps the one that it gave before.
    pub fn given(&self) -> &[Option<Given>]
        ensures { result.now ≡ self.now.given }
    {
        &self.given
    }

    /// What the last row gave, if it gave something.
    pub fn last(&self) -> Option<Given>
        ensures { result ≡ last_given self.now.given }
    {
        match self.given.last() {
            Some(given) => *given,
            None => None,
        }
    }

    /// The numbers that rows keep from here on. `Err` says that memory ran out.
    pub fn kept(&self, alloc: Global) -> Result<KeptNumbers, AllocError>
        ensures { IfOk result (λ kept. kept ≡ self.now.given) }
    {
        KeptNumbers::of(alloc, &self.given)
    }

    // The number of what the row of that number gave, which has its place: the one that the row keeps, or a new one.
    fn number_for(&self, kept: &KeptNumbers, row: u32, given: Given) -> u32
        ensures { result ≡ number_for kept.now self.now.moved row given }
    {
        match kept.at(row) {
            Some(own) => own.number,
            None => {
                let next = kept
                    .next(given.case, given.counted)
                    .max(self.moved.next(given.case, given.counted));
                fitted(given.number, next.max(u64::from(given.number)))
            }
        }
    }

    // Gives this number to what a row gave, which has its place. `Err` says that memory ran out.
    fn add(&mut self, given: Given, number: u32) -> Result<(), AllocError>
        ensures { OnOk result (self.new ≡ with_number self.old given number) }
    {
        let Given {
            case,
            counted,
            number: place,
        } = given;
        self.given.push(Some(Given {
            case,
            counted,
            number,
        }))?;
        if place == number {
            return Ok(());
        }
        self.moved.push(Moved {
            case,
            counted,
            place,
            number,
        })
    }

    /// Passes over the row of that number, counted from 1, which gives nothing: it keeps the number that it gave before.
    /// `Err` says that memory ran out.
    pub fn pass(&mut self, kept: &KeptNumbers, row: u32) -> Result<(), AllocError>
        ensures { OnOk result (self.new ≡ passed kept.now self.old row) }
    {
        self.given.push(kept.at(row))?;
        Ok(())
    }

    /// Takes the row of that number, counted from 1, of which this was given, with its place as the number. `Err` says that
    /// memory ran out.
    #[tactic(auto, unfolding(crate::specs::Numbers::numbers_after))]
    pub fn take(
        &mut self,
        kept: &KeptNumbers,
        row: u32,
        given: Option<Given>,
    ) -> Result<(), AllocError>
        ensures { OnOk result (self.new ≡ numbers_after kept.now self.old row given) }
    {
        match given {
            Some(given) => self.add(given, self.number_for(kept, row, given)),
            None => self.pass(kept, row),
        }
    }
}
