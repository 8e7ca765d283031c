//! Sheets, with the numbers of what is docketed in their cases.
ghost use Rattle.std.specs.Prelude.{◌≡◌, map};
ghost use Rattle.desk_numbers.specs.Words.{numbered_sheet};

use desk_numbers::MovedNumbers;
use docket_rows::{Sheet, SheetDeadlines, SheetMotions};
use std::alloc::Global;
use std::mem;

// Gives the deadlines and the motions of a sheet their numbers.
fn number_sheet(alloc: Global, moved: &MovedNumbers, sheet: &mut Sheet)
    ensures { sheet.new ≡ numbered_sheet moved.now sheet.old }
{
    let empty = Sheet {
        case: sheet.case,
        filed: sheet.filed,
        closed: sheet.closed,
        assigned: sheet.assigned,
        deadlines: SheetDeadlines::from_vec(Vec::new(alloc)),
        motions: SheetMotions::from_vec(Vec::new(alloc)),
    };
    let taken = mem::replace(sheet, empty);
    *sheet = moved.number_sheet(taken);
}

/// Gives the deadlines and the motions of sheets, which have their places, their numbers.
pub fn number_sheets(alloc: Global, moved: &MovedNumbers, sheets: &mut [Sheet])
    ensures { sheets.new ≡ map (numbered_sheet moved.now) sheets.old }
{
    'list: for sheet in sheets.iter_mut() {
        number_sheet(alloc, moved, sheet);
    }
}
