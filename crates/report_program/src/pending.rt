//! What has been pending for long.

ghost use Rattle.std.specs.Prelude.{◌≡◌, IfOk};
ghost use Rattle.docket_rows.specs.Words.{Rows, setup_of};
ghost use Rattle.office_texts.specs.Run.Words.{Holds};
ghost use Rattle.report_program.specs.Calendar.{numbered_all, pending_form, pending_text_of};
ghost use Rattle.report_page.specs.Words.{pending_page as page_of};
ghost use Rattle.report_texts.specs.Words.{pending_csv as csv_of, pending_text as text_of};

use crate::chosen::Form;
use court_clock::Day;
use court_days::Court;
use docket_core::Docket;
use docket_selection::{PendingItem, PendingKind, PendingTypes, pending_of};
use page_markup::Page;
use report_page::push_pending_page;
use report_texts::{Labels, number_all_pending, push_pending, push_pending_csv};
use std::alloc::{AllocError, Global};

/// What has been pending for long on the day, by the docket. `Err` says that memory ran out.
pub(crate) fn pending_text(
    alloc: Global,
    court: &Court,
    labels: &Labels<'_>,
    docket: &Docket,
    day: Day,
    form: Form,
) -> Result<Vec<u8>, AllocError>
    requires court { docket.now.setup ≡ setup_of court.now }
    ensures { (docketed : Rows) → Holds (setup_of court.now) docket.now docketed → IfOk result (λ text. text.items ≡ pending_text_of court.now labels.now docketed day form) }
{
    let _types: PendingTypes = None;
    let motions = numbered_all(alloc, court, labels, docket, PendingKind::Motions, day)?;
    let cases = numbered_all(alloc, court, labels, docket, PendingKind::Cases, day)?;
    written_as(alloc, court, labels, form, day, &motions, &cases)
}

/// The motions or the cases, with the numbers of motions.
fn numbered_all(
    alloc: Global,
    court: &Court,
    labels: &Labels<'_>,
    docket: &Docket,
    kind: PendingKind,
    day: Day,
) -> Result<Vec<PendingItem>, AllocError>
    requires court { docket.now.setup ≡ setup_of court.now }
    ensures { (docketed : Rows) → Holds (setup_of court.now) docket.now docketed → IfOk result (λ list. list.items ≡ numbered_all court.now labels.now docketed kind day) }
{
    let _types: PendingTypes = None;
    let mut items = pending_of(alloc, court, docket, kind, day)?;
    number_all_pending(labels.moved, &mut items);
    Ok(items)
}

/// These motions and these cases as a text, as a page, or as a table.
fn written_as(
    alloc: Global,
    court: &Court,
    labels: &Labels<'_>,
    form: Form,
    day: Day,
    motions: &[PendingItem],
    cases: &[PendingItem],
) -> Result<Vec<u8>, AllocError>
    ensures { IfOk result (λ text. text.items ≡ pending_form court.now labels.now form day motions.now cases.now) }
{
    let _types: PendingTypes = None;
    match form {
        Form::Text => as_text(alloc, court, labels, day, motions, cases),
        Form::Page => as_page(alloc, court, labels, day, motions, cases),
        Form::Csv => as_csv(alloc, court, labels, motions, cases),
    }
}

fn as_text(
    alloc: Global,
    court: &Court,
    labels: &Labels<'_>,
    day: Day,
    motions: &[PendingItem],
    cases: &[PendingItem],
) -> Result<Vec<u8>, AllocError>
    ensures { IfOk result (λ text. text.items ≡ text_of court.now labels.now day motions.now cases.now) }
{
    let _types: PendingTypes = None;
    let mut text = String::new(alloc);
    push_pending(&mut text, court, labels, day, motions, cases)?;
    Ok(text.into_bytes())
}

fn as_page(
    alloc: Global,
    court: &Court,
    labels: &Labels<'_>,
    day: Day,
    motions: &[PendingItem],
    cases: &[PendingItem],
) -> Result<Vec<u8>, AllocError>
    ensures { IfOk result (λ text. text.items ≡ page_of court.now labels.now day motions.now cases.now) }
{
    let _types: PendingTypes = None;
    let mut page = Page::new(alloc);
    push_pending_page(alloc, &mut page, court, labels, day, motions, cases)?;
    Ok(page.into_bytes())
}

fn as_csv(
    alloc: Global,
    court: &Court,
    labels: &Labels<'_>,
    motions: &[PendingItem],
    cases: &[PendingItem],
) -> Result<Vec<u8>, AllocError>
    ensures { IfOk result (λ text. text.items ≡ csv_of court.now labels.now motions.now cases.now) }
{
    let _types: PendingTypes = None;
    let mut bytes = Vec::new(alloc);
    push_pending_csv(alloc, &mut bytes, court, labels, motions, cases)?;
    Ok(bytes)
}
