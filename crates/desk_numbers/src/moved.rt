//! What isn't at the place that its number says: some before it were struck, or are done now that were refused before.
ghost use Rattle.std.specs.Prelude.{◌≡◌, ◌∷◌, ◌++◌, ◌&&◌, [], length, nat_eq, find, option_copied, OnErr, OnOk};
ghost use Rattle.std.specs.List.{list_any};
ghost use Rattle.desk_numbers.specs.Moved.{after_it, after_moved, has_number, is_apart, is_at, is_moved, number_in, place_apart, place_in};

use docket_rows::Counted;
use std::alloc::{AllocError, Global};
use std::marker::Model;

/// What is at a place in a case, and has another number.
#[derive(Clone, Copy, Debug, PartialEq, Eq)]
pub struct Moved {
    /// The number of the case.
    pub case: u32,
    /// What it is.
    pub counted: Counted,
    /// Its place, counted from 1.
    pub place: u32,
    /// Its number, counted from 1.
    pub number: u32,
}

impl Moved {
    // Whether it is of that case and kind.
    fn is_of(&self, case: u32, counted: Counted) -> bool
        ensures { result ≡ is_moved case counted self.now }
    {
        self.case == case && self.counted.is_like(counted)
    }

    // Whether it is at that place of that case and kind.
    fn is_at(&self, case: u32, counted: Counted, place: u32) -> bool
        ensures { result ≡ is_at case counted place self.now }
    {
        self.is_of(case, counted) && self.place == place
    }

    // The least number after its own, if it is of that case and kind, or 0.
    fn after(&self, case: u32, counted: Counted) -> u64
        ensures { result ≡ after_it case counted self.now }
    {
        if self.is_of(case, counted) {
            u64::from(self.number) + 1
        } else {
            0
        }
    }

    // Whether it has that number of that case and kind.
    fn has_number(&self, case: u32, counted: Counted, number: u32) -> bool
        ensures { result ≡ has_number case counted number self.now }
    {
        self.is_of(case, counted) && self.number == number
    }
}

/// A place apart for a number that nothing has any more, or the number for which a place is one.
pub fn place_apart(number: u32) -> u32
    ensures { result ≡ place_apart number }
{
    u32::MAX - number
}

/// Whether a place is one apart, at which there is nothing.
pub fn is_apart(place: u32) -> bool
    ensures { result ≡ is_apart place }
{
    place > 2_147_483_647
}

/// What has another number than its place. All else that is counted in a case has its place as its number. With none it is
/// made and asked at no cost.
#[derive(Debug, Drop)]
pub struct MovedNumbers {
    list: Vec<Moved>,
}

impl Model for MovedNumbers {
    ghost use Rattle.std.specs.Prelude.{List};
    ghost use Rattle.desk_numbers.specs.declared.moved.Moved.{Moved};

    ghost Value = { List Moved };

    ghost view = { λ m. m.list.items };
}

impl MovedNumbers {
    /// None.
    pub fn new(alloc: Global) -> MovedNumbers
        ensures { result ≡ [] }
    {
        MovedNumbers {
            list: Vec::new(alloc),
        }
    }

    /// Whether there is none.
    pub fn is_empty(&self) -> bool
        ensures { result ≡ nat_eq (length self.now) 0 }
    {
        self.list.is_empty()
    }

    /// What they are, in the order in which they were added.
    pub fn as_slice(&self) -> &[Moved]
        ensures { result.now ≡ self.now }
    {
        &self.list
    }

    /// Adds one. `Err` says that memory ran out, and leaves them as they were.
    pub fn push(&mut self, moved: Moved) -> Result<(), AllocError>
        ensures ok { OnOk result (self.new ≡ self.old ++ moved ∷ []) }
        ensures err { OnErr result (self.new ≡ self.old) }
    {
        self.list.push(moved)?;
        Ok(())
    }

    // The one at a place of a case and kind.
    fn at(&self, case: u32, counted: Counted, place: u32) -> Option<&Moved>
        ensures { option_copied result ≡ find (is_at case counted place) self.now }
    {
        self.list
            .iter()
            .find(|moved| moved.is_at(case, counted, place))
    }

    // The one with a number of a case and kind.
    fn with_number(&self, case: u32, counted: Counted, number: u32) -> Option<&Moved>
        ensures { option_copied result ≡ find (has_number case counted number) self.now }
    {
        self.list
            .iter()
            .find(|moved| moved.has_number(case, counted, number))
    }

    // Whether there is one at a place of a case and kind.
    fn has_at(&self, case: u32, counted: Counted, place: u32) -> bool
        ensures { result ≡ list_any (is_at case counted place) self.now }
    {
        self.list
            .iter()
            .any(|moved| moved.is_at(case, counted, place))
    }

    /// The number of what is at a place in a case, counted from 1.
    #[tactic(auto, unfolding(crate::specs::Moved::number_in))]
    pub fn number_at(&self, case: u32, counted: Counted, place: u32) -> u32
        ensures { result ≡ number_in self.now case counted place }
    {
        match self.at(case, counted, place) {
            Some(moved) => moved.number,
            None => place,
        }
    }

    /// The place of what has a number in a case, counted from 1. Where nothing has the number, nothing is at its place.
    #[tactic(auto, unfolding(crate::specs::Moved::place_in))]
    pub fn place_of(&self, case: u32, counted: Counted, number: u32) -> u32
        ensures { result ≡ place_in self.now case counted number }
    {
        match self.with_number(case, counted, number) {
            Some(moved) => moved.place,
            None if self.has_at(case, counted, number) => place_apart(number),
            None => number,
        }
    }

    // The least number after all that these have in a case and kind, or 0 where there is none.
    pub(crate) fn next(&self, case: u32, counted: Counted) -> u64
        ensures { result ≡ after_moved self.now case counted }
    {
        next_after(&self.list, case, counted)
    }
}

// The least number after all of these in a case and kind, or 0 where there is none.
fn next_after(list: &[Moved], case: u32, counted: Counted) -> u64
    ensures { result ≡ after_moved list.now case counted }
{
    let mut next = 0u64;
    'list: for moved in list {
        next = next.max(moved.after(case, counted));
    }
    next
}
