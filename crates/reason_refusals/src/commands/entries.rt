//! The entries on which a refusal rests.

ghost use Rattle.std.specs.Prelude.{◌≡◌, ◌==◌, IfOk, find, option_copied};
ghost use Rattle.docket_rows.specs.declared.sheet.SheetMotion.{SheetMotion as SheetMotionOf};
ghost use Rattle.docket_core.specs.Words.{parts_held};
ghost use Rattle.reason_refusals.specs.Commands.Entries.{deadline_at, motion_at, motion_viewed};

use docket_core::Docket;
use docket_rows::{Query, SheetMotion, View};
use rule_periods::{DeadlineRow, DocketRow};
use std::alloc::{AllocError, Global};

/// The deadline of a case and a number, if they are given and the docket has it. It takes no memory.
pub fn deadline_at(docket: &Docket, at: Option<(u32, u32)>) -> Option<&DeadlineRow>
    ensures { option_copied result ≡ deadline_at (parts_held docket.now) at }
{
    match at {
        Some((case, number)) => row_of(docket.deadline(case, number)),
        None => None,
    }
}

/// The deadline of a row of the docket.
fn row_of(found: Option<&DocketRow>) -> Option<&DeadlineRow>
    ensures { option_copied result ≡ option_copied found.entry }
{
    match found {
        Some(row) => Some(row.row()),
        None => None,
    }
}

/// The motion of a case and a number, as the sheet of the case shows it, if they are given and the docket has it. `Err` says
/// that memory ran out.
pub fn motion_at(
    alloc: Global,
    docket: &Docket,
    at: Option<(u32, u32)>,
) -> Result<Option<SheetMotion>, AllocError>
    ensures { IfOk result (λ motion. motion ≡ motion_at docket.now.setup (parts_held docket.now) at) }
{
    match at {
        Some((case, number)) => {
            let view = docket.show(alloc, &Query::Sheet(case))?;
            Ok(motion_viewed(&view, number))
        }
        None => Ok(None),
    }
}

/// The motion of that number on a sheet.
fn motion_viewed(view: &View, number: u32) -> Option<SheetMotion>
    ensures { result ≡ motion_viewed number view.now }
{
    match view {
        View::Sheet(sheet) => motion_of(sheet.motions.as_slice(), number),
        _ => None,
    }
}

/// The first motion of that number in a list.
fn motion_of(motions: &[SheetMotion], number: u32) -> Option<SheetMotion>
    ensures { result ≡ find (λ (m : SheetMotionOf). m.number == number) motions.now }
{
    match motions {
        [] => None,
        [motion, rest @ ..] => {
            if motion.number == number {
                return Some(*motion);
            }
            motion_of(rest, number)
        }
    }
}
