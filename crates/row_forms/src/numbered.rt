//! Rows with their numbers.

ghost use Rattle.std.specs.Prelude.{◌≡◌, IfOk};
ghost use Rattle.row_forms.specs.Numbered.{numbered_from};

use crate::row::{Row, RowTypes};
use std::alloc::{AllocError, Global};

/// A row with its number, by which answers and reports name it. Rows of an input are numbered as they come; rows that a docket
/// keeps have the numbers that they were answered with, so that one that is struck leaves a gap.
#[derive(Clone, Copy, Debug, PartialEq, Eq)]
pub struct NumberedRow {
    /// The row's number, counted from 1.
    pub number: u64,
    /// What it asks for, and who asks.
    pub row: Row,
}

/// The rows of an input with their numbers: the first has number 1. `Err` says that memory ran out.
#[tactic(auto, unfolding(crate::specs::Numbered::numbered_from))]
pub fn numbered_rows(alloc: Global, rows: &[Row]) -> Result<Vec<NumberedRow>, AllocError>
    ensures { IfOk result (λ numbered. numbered.items ≡ numbered_from 1 rows.now) }
{
    let _types: RowTypes = None;
    let mut numbered = Vec::new(alloc);
    let mut number = 1;
    for row in rows {
        numbered.push(NumberedRow { number, row: *row })?;
        number += 1;
    }
    Ok(numbered)
}
