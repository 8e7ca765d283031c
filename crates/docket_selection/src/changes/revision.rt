//! Which row changed an event last.

ghost use Rattle.std.specs.Prelude.{◌≡◌, ℕ, max, IfOk, OnOk, if◌then◌else◌};
ghost use Rattle.docket_selection.specs.Changes.Noted.{NotesRows, row_noted};
ghost use Rattle.docket_selection.specs.Changes.Revision.{case_changed, changes_case, changes_days, last_row};

use crate::changes::change::{Change, RowChange};
use std::alloc::{AllocError, Global};
use std::collections::HashMap;

/// The last row that changed each case, by the case's number.
pub(crate) type CaseRows = HashMap<u32, u64>;

/// The last row that changed the court's days; 0 where none did.
pub(crate) fn days_row(changes: &[RowChange]) -> u64
    ensures { result ≡ last_row changes_days changes.now }
{
    let mut last = 0;
    for change in changes {
        if change.change == Change::Days {
            last = later(last, change.row);
        }
    }
    last
}

/// The last row that changed each case.
pub(crate) fn rows_by(alloc: Global, changes: &[RowChange]) -> Result<CaseRows, AllocError>
    ensures { IfOk result (NotesRows changes.now) }
{
    let mut rows = HashMap::new(alloc);
    for change in changes {
        note_row(&mut rows, change)?;
    }
    Ok(rows)
}

/// Notes the row of one change more.
fn note_row(rows: &mut CaseRows, change: &RowChange) -> Result<(), AllocError>
    ensures { OnOk result ((case : ℕ) → row_noted case rows.new ≡ (if changes_case case change.now.change then max (row_noted case rows.old) change.now.row else row_noted case rows.old)) }
{
    if let Some(case) = case_changed(&change.change) {
        let before = rows.get(&case).copied().unwrap_or(0);
        rows.insert(case, later(before, change.row))?;
    }
    Ok(())
}

/// The case of the deadline, the hearing or the judges that are changed.
fn case_changed(change: &Change) -> Option<u32>
    ensures { result ≡ case_changed change.now }
{
    match change {
        Change::Days => None,
        Change::Deadline(case) => Some(*case),
        Change::Hearing(hearing) => Some(hearing.case),
        Change::Judges(case, _, _) => Some(*case),
    }
}

/// The greater of two numbers of rows.
pub(crate) fn later(x: u64, y: u64) -> u64
    ensures { result ≡ max x y }
{
    if x < y { y } else { x }
}
