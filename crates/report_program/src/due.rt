//! The text of what is due.

ghost use Rattle.std.specs.Prelude.{◌≡◌, IfOk, length};
ghost use Rattle.docket_rows.specs.Words.{Rows, setup_of};
ghost use Rattle.docket_selection.specs.Words.{IsDue, all_left_out};
ghost use Rattle.office_texts.specs.Run.Words.{Holds};
ghost use Rattle.report_program.specs.Calendar.{IsDueText, IsNumberedDue};

use court_days::Court;
use docket_core::Docket;
use docket_selection::{Choice, DueItem, DueTypes, deadlines_left_out, due_of};
use report_texts::{Labels, number_items, push_due, push_left_out};
use std::alloc::{AllocError, Global};

/// What is due of the docket. `Err` says that memory ran out.
pub(crate) fn due_text(
    alloc: Global,
    court: &Court,
    labels: &Labels<'_>,
    docket: &Docket,
    choice: &Choice,
) -> Result<Vec<u8>, AllocError>
    requires court { docket.now.setup ≡ setup_of court.now }
    ensures { (docketed : Rows) → Holds (setup_of court.now) docket.now docketed → IfOk result (λ text. IsDueText court.now labels.now docketed choice.now text.items) }
{
    let _types: DueTypes = None;
    let items = numbered_due(alloc, court, labels, docket, choice)?;
    let count = left_out_count(alloc, court, docket, choice)?;
    let mut text = String::new(alloc);
    push_due(&mut text, court, labels, choice, &items)?;
    push_left_out(&mut text, count)?;
    Ok(text.into_bytes())
}

/// How many deadlines of the docket aren't due since they are ended. `Err` says that memory ran out.
fn left_out_count(
    alloc: Global,
    court: &Court,
    docket: &Docket,
    choice: &Choice,
) -> Result<u64, AllocError>
    requires court { docket.now.setup ≡ setup_of court.now }
    ensures { (docketed : Rows) → Holds (setup_of court.now) docket.now docketed → IfOk result (λ count. count ≡ length (all_left_out (setup_of court.now) docketed choice.now)) }
{
    let _types: DueTypes = None;
    let list = deadlines_left_out(alloc, court, docket, choice)?;
    Ok(list.len() as u64)
}

/// What is due of the docket, with places in place of numbers. `Err` says that memory ran out.
pub(crate) fn placed_due(
    alloc: Global,
    court: &Court,
    labels: &Labels<'_>,
    docket: &Docket,
    choice: &Choice,
) -> Result<Vec<DueItem>, AllocError>
    requires court { docket.now.setup ≡ setup_of court.now }
    ensures { (docketed : Rows) → Holds (setup_of court.now) docket.now docketed → IfOk result (λ list. IsDue (setup_of court.now) docketed labels.now.doubtful choice.now list.items) }
{
    let _types: DueTypes = None;
    due_of(alloc, court, docket, labels.doubtful, choice)
}

/// What is due of the docket, with the numbers of deadlines and motions. `Err` says that memory ran out.
pub(crate) fn numbered_due(
    alloc: Global,
    court: &Court,
    labels: &Labels<'_>,
    docket: &Docket,
    choice: &Choice,
) -> Result<Vec<DueItem>, AllocError>
    requires court { docket.now.setup ≡ setup_of court.now }
    ensures { (docketed : Rows) → Holds (setup_of court.now) docket.now docketed → IfOk result (λ list. IsNumberedDue (setup_of court.now) docketed labels.now choice.now list.items) }
{
    let _types: DueTypes = None;
    let mut items = placed_due(alloc, court, labels, docket, choice)?;
    number_items(labels.moved, &mut items);
    Ok(items)
}
