//! The cells of the parts: one for the court's days, then one for each judge, each room and each case that can be.

ghost use Rattle.std.specs.Prelude.{◌≡◌, IfOk};
ghost use Rattle.published_docket.specs.Cells.{opening_cells, part_at, cell_of};

use crate::cell::Cell;
use docket_rows::PartId;
use shared_docket::DocketParts;
use std::alloc::{AllocError, Global};
use versioned_steps::Parted;

/// The number of the part's cell.
pub(crate) fn cell_of(part: PartId) -> usize
    ensures { result ≡ cell_of part }
{
    match part {
        PartId::Court => 0,
        PartId::Judge(judge) => 1 + usize::from(judge),
        PartId::Room(room) => 33 + usize::from(room),
        PartId::Case(case) => 64 + case as usize,
    }
}

// The part whose cell has that number.
fn part_at(cell: u32) -> PartId
    ensures { result ≡ part_at cell }
{
    if cell < 1 {
        return PartId::Court;
    }
    if cell < 33 {
        return PartId::Judge((cell - 1) as u8);
    }
    if cell < 65 {
        return PartId::Room((cell - 33) as u8);
    }
    PartId::Case(cell - 64)
}

/// The cells before any entry, each with its part's opening value. `Err` says that memory ran out.
#[tactic(auto, using(crate::proofs::CellLemmas::opening_none, crate::proofs::CellLemmas::opening_more))]
pub(crate) fn opening_cells(alloc: Global, parts: &DocketParts) -> Result<Vec<Cell>, AllocError>
    ensures { IfOk result (λ cells. cells.items ≡ opening_cells parts.now 4161) }
{
    let mut cells = Vec::new(alloc);
    for number in 0..4_161u32 {
        let value = parts.opening(alloc, &part_at(number))?;
        cells.push(Cell { version: 0, value })?;
    }
    Ok(cells)
}
