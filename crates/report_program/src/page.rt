//! The page.

ghost use Rattle.std.specs.Prelude.{◌≡◌, IfOk};
ghost use Rattle.docket_rows.specs.Words.{Rows, setup_of};
ghost use Rattle.office_texts.specs.Run.Words.{Holds};
ghost use Rattle.report_program.specs.Calendar.{IsPage};

use crate::due::numbered_due;
use court_days::Court;
use docket_core::Docket;
use docket_selection::{Choice, DueTypes};
use page_markup::Page;
use report_page::push_page;
use report_texts::{Labels, explained_selection, numbered_calendars};
use std::alloc::{AllocError, Global};

/// The page of the docket: what is due, the chosen judges' hearings, and the sheets of the chosen cases with their
/// reasons. `Err` says that memory ran out.
pub(crate) fn page_text(
    alloc: Global,
    court: &Court,
    labels: &Labels<'_>,
    docket: &Docket,
    choice: &Choice,
) -> Result<Vec<u8>, AllocError>
    requires court { docket.now.setup ≡ setup_of court.now }
    ensures { (docketed : Rows) → Holds (setup_of court.now) docket.now docketed → IfOk result (λ text. IsPage court.now labels.now docketed choice.now text.items) }
{
    let _types: DueTypes = None;
    let items = numbered_due(alloc, court, labels, docket, choice)?;
    let calendars = numbered_calendars(alloc, court, docket, labels, choice)?;
    let sheets = explained_selection(alloc, court, docket, labels, choice)?;
    let mut page = Page::new(alloc);
    push_page(
        alloc,
        &mut page,
        court,
        docket.days(),
        labels,
        choice,
        &items,
        &calendars,
        &sheets,
    )?;
    Ok(page.into_bytes())
}
