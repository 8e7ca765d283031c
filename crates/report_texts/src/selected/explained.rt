//! The sheets of the chosen cases, with the numbers of what is docketed in them, and the reasons of each deadline.
ghost use Rattle.std.specs.Prelude.{◌≡◌, map, IfOk};
ghost use Rattle.docket_rows.specs.Words.{Rows, setup_of};
ghost use Rattle.docket_core.specs.Words.{StandsFor};
ghost use Rattle.docket_selection.specs.Words.{chosen_sheets};
ghost use Rattle.docket_selection.specs.Explained.Words.{AreExplained};
ghost use Rattle.desk_numbers.specs.Words.{numbered_sheet};

use crate::labels::Labels;
use crate::selected::sheets::number_sheets;
use court_days::Court;
use desk_numbers::MovedNumbers;
use docket_core::Docket;
use docket_rows::Sheet;
use docket_selection::{Choice, ExplainedSheet, explained_sheets, sheets_chosen};
use std::alloc::{AllocError, Global};

/// The sheets of the chosen cases, in the order of the cases' numbers, with the numbers of deadlines and motions and with the
/// reasons of each deadline by the days that are docketed and its end by another reading. `Err` says that memory ran out.
pub fn explained_selection(
    alloc: Global,
    court: &Court,
    docket: &Docket,
    labels: &Labels<'_>,
    choice: &Choice,
) -> Result<Vec<ExplainedSheet>, AllocError>
    requires court { docket.now.setup ≡ setup_of court.now }
    ensures { (docketed : Rows) → StandsFor docket.now docketed →
        IfOk result (λ list. AreExplained docketed.days court.now.clock labels.now.doubtful (map (numbered_sheet labels.now.moved) (chosen_sheets (setup_of court.now) docketed choice.now)) list.items) }
{
    let sheets = numbered_sheets(alloc, docket, labels.moved, choice)?;
    explained_sheets(alloc, docket.days(), court.clock(), labels.doubtful, sheets)
}

// The sheets of the chosen cases, with the numbers of deadlines and motions.
fn numbered_sheets(
    alloc: Global,
    docket: &Docket,
    moved: &MovedNumbers,
    choice: &Choice,
) -> Result<Vec<Sheet>, AllocError>
    ensures { (docketed : Rows) → StandsFor docket.now docketed →
        IfOk result (λ sheets. sheets.items ≡ map (numbered_sheet moved.now) (chosen_sheets docket.now.setup docketed choice.now)) }
{
    let mut sheets = sheets_chosen(alloc, docket, choice)?;
    number_sheets(alloc, moved, &mut sheets);
    Ok(sheets)
}
