//! The least number after all that were given, by case and kind, found at once.
ghost use Rattle.std.specs.Prelude.{◌≡◌, ◌<◌, ◌≤◌, ◌++◌, ◌∷◌, [], ℕ, length, max, slice_index_or, OnOk};
ghost use Rattle.desk_numbers.specs.Kept.{after_one};
ghost use Rattle.desk_numbers.specs.Tops.{Notes, raised, slot_of};
ghost use Rattle.docket_rows.specs.declared.command.Counted.{Counted as CountedOf};

use crate::given::Given;
use docket_rows::Counted;
use std::alloc::{AllocError, Global};
use std::marker::Model;

/// By case and kind, the least number after all that were given: 0 where none was.
#[derive(Debug, Drop)]
pub(crate) struct Tops {
    // At twice the number of a case that for its deadlines, and after it that for its motions.
    list: Vec<u64>,
}

impl Model for Tops {
    ghost use Rattle.std.specs.Prelude.{List, ℕ};

    ghost Value = { List ℕ };

    ghost view = { λ t. t.list.items };
}

// Where the list has that of a case and kind, counted from 0.
fn slot_of(case: u32, counted: Counted) -> usize
    ensures { result ≡ slot_of case counted }
{
    let first = case as usize * 2;
    match counted {
        Counted::Deadline => first,
        Counted::Motion => first + 1,
    }
}

// Lengthens a list to hold a slot, by zeros.
fn lengthen(list: &mut Vec<u64>, slot: usize) -> Result<(), AllocError>
    ensures long { OnOk result (slot < length list.new.items) }
    ensures same { OnOk result ((s : ℕ) → slice_index_or list.new.items s 0 ≡ slice_index_or list.old.items s 0) }
{
    'zeros: while list.len() <= slot {
        list.push(0)?;
    }
    Ok(())
}

impl Tops {
    // Those where no number was given.
    pub(crate) fn new(alloc: Global) -> Tops
        ensures { result ≡ [] }
    {
        Tops {
            list: Vec::new(alloc),
        }
    }

    // That of a case and kind.
    pub(crate) fn at(&self, case: u32, counted: Counted) -> u64
        ensures { result ≡ slice_index_or self.now (slot_of case counted) 0 }
    {
        match self.list.get(slot_of(case, counted)) {
            Some(next) => *next,
            None => 0,
        }
    }

    // Makes the one of a slot no less than this. `Err` says that memory ran out.
    fn raise(&mut self, slot: usize, next: u64) -> Result<(), AllocError>
        ensures { OnOk result ((s : ℕ) → slice_index_or self.new s 0 ≡ raised self.old slot next s) }
    {
        lengthen(&mut self.list, slot)?;
        if self.list[slot] < next {
            self.list[slot] = next;
        }
        Ok(())
    }

    // Notes what a row gave. `Err` says that memory ran out.
    pub(crate) fn note(&mut self, row: &Option<Given>) -> Result<(), AllocError>
        ensures { OnOk result (Notes self.old row.now self.new) }
    {
        match row {
            Some(given) => self.raise(
                slot_of(given.case, given.counted),
                u64::from(given.number) + 1,
            ),
            None => Ok(()),
        }
    }
}
