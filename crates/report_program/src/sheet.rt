//! The sheet of one case.

ghost use Rattle.std.specs.Prelude.{◌≡◌, IfOk, OnOk};
ghost use Rattle.docket_rows.specs.Words.{Rows, setup_of};
ghost use Rattle.office_texts.specs.Run.Words.{Holds};
ghost use Rattle.office_texts.specs.Words.{AddsText};
ghost use Rattle.report_program.specs.Calendar.{sheet_text_of, shown_called};

use court_days::Court;
use docket_core::Docket;
use docket_rows::{Query, View};
use office_texts::{Reply, push_named_reply};
use report_texts::{Labels, push_labelled_sheet};
use std::alloc::{AllocError, Global};

/// What the docket shows of the case, as a row that asks for its sheet is answered, and what rows call it, its deadlines and its
/// motions. `Err` says that memory ran out.
pub(crate) fn sheet_text(
    alloc: Global,
    court: &Court,
    labels: &Labels<'_>,
    docket: &Docket,
    case: u32,
) -> Result<Vec<u8>, AllocError>
    requires court { docket.now.setup ≡ setup_of court.now }
    ensures { (docketed : Rows) → Holds (setup_of court.now) docket.now docketed → IfOk result (λ text. text.items ≡ sheet_text_of court.now labels.now docketed case) }
{
    let view = docket.show(alloc, &Query::Sheet(case))?;
    let shown = Reply::Viewed(labels.moved.number_view(view));
    let mut text = String::new(alloc);
    push_shown(&mut text, court, labels, &shown)?;
    Ok(text.into_bytes())
}

/// Adds a sheet with what rows call things, or another reply as rows get it.
fn push_shown(
    text: &mut String,
    court: &Court,
    labels: &Labels<'_>,
    shown: &Reply,
) -> Result<(), AllocError>
    ensures { OnOk result (AddsText text.old text.new (shown_called court.now labels.now shown.now)) }
{
    match shown {
        Reply::Viewed(View::Sheet(sheet)) => {
            text.push_str("sheet\n")?;
            push_labelled_sheet(text, court, labels, sheet)
        }
        _ => push_named_reply(text, court, labels.cases, shown),
    }
}
