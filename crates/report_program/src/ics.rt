//! The text of a calendar for calendar programs.

ghost use Rattle.std.specs.Prelude.{◌≡◌, IfOk, IsSome};
ghost use Rattle.docket_rows.specs.Words.{Rows, setup_of};
ghost use Rattle.docket_selection.specs.Words.{IsDue};
ghost use Rattle.office_texts.specs.Run.Words.{Holds};
ghost use Rattle.report_program.specs.Calendar.{IsIcsText, of_other_cases};

use crate::appointments::numbered_appointments;
use crate::docket::Came;
use crate::due::placed_due;
use court_clock::Instant;
use court_days::Court;
use docket_core::Docket;
use docket_selection::{Choice, DueItem, DueTypes, HearingHistories};
use report_ics::icalendar;
use report_texts::Labels;
use std::alloc::{AllocError, Global};

/// The calendar of what is chosen of the docket, after what came of rows and this number of corrections, written at an instant. `Err`
/// says that memory ran out.
pub(crate) fn ics_text(
    alloc: Global,
    court: &Court,
    labels: &Labels<'_>,
    docket: &Docket,
    came: Came,
    corrections: u64,
    choice: &Choice,
    stamp: Instant,
) -> Result<Vec<u8>, AllocError>
    requires court { docket.now.setup ≡ setup_of court.now }
    ensures { (docketed : Rows) → Holds (setup_of court.now) docket.now docketed → IfOk result (λ text. IsIcsText court.now labels.now docketed came.changes.items came.lost.items corrections choice.now stamp text.items) }
{
    let _types: DueTypes = None;
    let items = placed_due(alloc, court, labels, docket, choice)?;
    let Came { changes, lost } = came;
    let histories = HearingHistories::of_changes(alloc, choice.judge, changes)?;
    let others = due_elsewhere(alloc, court, labels, docket, choice)?;
    let appointments = numbered_appointments(
        alloc,
        labels,
        corrections,
        choice,
        &histories,
        &items,
        &others,
        &lost,
    )?;
    let text = icalendar(alloc, court, labels, stamp, &appointments)?;
    Ok(text.into_bytes())
}

/// What is due in the cases that aren't before the judge, where one is chosen; without one it isn't asked for.
fn due_elsewhere(
    alloc: Global,
    court: &Court,
    labels: &Labels<'_>,
    docket: &Docket,
    choice: &Choice,
) -> Result<Vec<DueItem>, AllocError>
    requires court { docket.now.setup ≡ setup_of court.now }
    ensures { (docketed : Rows) → Holds (setup_of court.now) docket.now docketed → IfOk result (λ list. IsSome choice.now.judge → IsDue (setup_of court.now) docketed labels.now.doubtful (of_other_cases choice.now) list.items) }
{
    let _types: DueTypes = None;
    match choice.judge {
        Some(_) => placed_due(alloc, court, labels, docket, &of_other_cases(choice)),
        None => Ok(Vec::new(alloc)),
    }
}

/// The same choice, of the cases that aren't before the judge.
fn of_other_cases(choice: &Choice) -> Choice
    ensures { result ≡ of_other_cases choice.now }
{
    let mut others = *choice;
    others.elsewhere = true;
    others
}
