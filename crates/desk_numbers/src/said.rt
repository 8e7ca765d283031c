//! What a correction says of rows: the numbers that they gave since the correction before it. They keep them from then on.
ghost use Rattle.std.specs.Prelude.{◌≡◌, ◌<◌, [], All, length, IfOk, IfSome, OnOk};
ghost use Rattle.std.specs.List.{cons_option};
ghost use Rattle.desk_numbers.specs.Said.{extended, keeps, kept_with, said_of, unsaid, with_all, with_said};
ghost use Rattle.desk_numbers.specs.Strikes.SaidText.{Fits};

use crate::given::Given;
use crate::kept::KeptNumbers;
use crate::numbers::RowNumbers;
use std::alloc::{AllocError, Global};

/// The number that a row gave, as a correction says it.
#[derive(Clone, Copy, Debug, PartialEq, Eq)]
pub struct Said {
    /// The row's number, counted from 1.
    pub row: u32,
    /// The number that the row gave.
    pub given: Given,
}

// Whether a row keeps that number.
fn keeps(own: Option<Given>, given: Given) -> bool
    ensures { result ≡ keeps own given }
{
    match own {
        Some(own) => {
            own.case == given.case
                && own.counted.is_like(given.counted)
                && own.number == given.number
        }
        None => false,
    }
}

// What is to be said of a row that keeps the one and gave the other.
fn said_of(own: Option<Given>, given: Option<Given>, row: u32) -> Option<Said>
    ensures said { cons_option result [] ≡ said_of own given row }
    ensures fits { IfSome result Fits }
{
    let given = given?;
    if keeps(own, given) {
        return None;
    }
    Some(Said { row, given })
}

// What is to be said of all rows, of which this is by row what it gave. `Err` says that memory ran out.
fn unsaid(
    alloc: Global,
    kept: &KeptNumbers,
    given: &[Option<Given>],
) -> Result<Vec<Said>, AllocError>
    ensures said { IfOk result (λ said. length given.now < 4_294_967_296 → said.items ≡ unsaid kept.now given.now 1) }
    ensures fits { IfOk result (λ said. All Fits said.items) }
{
    let mut said = Vec::new(alloc);
    let mut row = 1u32;
    'given: for of_row in given {
        if let Some(one) = said_of(kept.at(row), *of_row, row) {
            said.push(one)?;
        }
        row = row.saturating_add(1);
    }
    Ok(said)
}

impl RowNumbers {
    /// What is to be said of rows that keep these numbers: what they gave and don't keep yet, in the order of the rows. The number of
    /// the last row is to be below 2 to the 32. `Err` says that memory ran out.
    pub fn unsaid(&self, alloc: Global, kept: &KeptNumbers) -> Result<Vec<Said>, AllocError>
        ensures said { IfOk result (λ said. length self.now.given < 4_294_967_296 → said.items ≡ unsaid kept.now self.now.given 1) }
        ensures fits { IfOk result (λ said. All Fits said.items) }
    {
        unsaid(alloc, kept, self.given())
    }
}

// Lengthens what rows keep to that many rows, by none for each. `Err` says that memory ran out.
fn extend(kept: &mut Vec<Option<Given>>, rows: u32) -> Result<(), AllocError>
    ensures { OnOk result (kept.new.items ≡ extended kept.old.items rows) }
{
    'rows: while kept.len() < rows as usize {
        kept.push(None)?;
    }
    Ok(())
}

// Sets what is said of one row, if it is there.
#[tactic(auto, using(std::proofs::lemmas::List::set_past))]
fn set_one(kept: &mut [Option<Given>], said: &Said)
    ensures { kept.new ≡ with_said kept.old said.now }
{
    let place = said.row.saturating_sub(1) as usize;
    if place < kept.len() {
        kept[place] = Some(said.given);
    }
}

// Sets what is said of each row.
fn set_all(kept: &mut [Option<Given>], said: &[Said])
    ensures { kept.new ≡ with_all kept.old said.now }
{
    'said: for one in said {
        set_one(kept, one);
    }
}

/// Has rows keep what is said of them, where there are that many rows: the list is lengthened to them, by none for each. A row
/// that isn't there is passed over. `Err` says that memory ran out.
#[tactic(auto, unfolding(crate::specs::Said::kept_with))]
pub fn say(kept: &mut Vec<Option<Given>>, rows: u32, said: &[Said]) -> Result<(), AllocError>
    ensures { OnOk result (kept.new.items ≡ kept_with kept.old.items rows said.now) }
{
    extend(kept, rows)?;
    set_all(kept, said);
    Ok(())
}
