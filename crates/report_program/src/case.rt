//! One page of a case.

ghost use Rattle.std.specs.Prelude.{◌≡◌, IfOk, OnOk};
ghost use Rattle.docket_rows.specs.Words.{Rows, setup_of};
ghost use Rattle.office_texts.specs.Run.Words.{Holds};
ghost use Rattle.office_texts.specs.Words.{AddsText};
ghost use Rattle.report_program.specs.Calendar.{case_text_of, page_called};

use court_days::Court;
use docket_core::Docket;
use docket_rows::{Query, View};
use office_texts::{Reply, push_named_reply};
use report_texts::{Labels, push_case_page};
use std::alloc::{AllocError, Global};

/// The page of the case, up to the entries of its log. `Err` says that memory ran out.
pub(crate) fn case_text(
    alloc: Global,
    court: &Court,
    labels: &Labels<'_>,
    docket: &Docket,
    case: u32,
) -> Result<Vec<u8>, AllocError>
    requires court { docket.now.setup ≡ setup_of court.now }
    ensures { (docketed : Rows) → Holds (setup_of court.now) docket.now docketed → IfOk result (λ text. text.items ≡ case_text_of court.now labels.now docketed case) }
{
    let view = docket.show(alloc, &Query::Sheet(case))?;
    let shown = Reply::Viewed(labels.moved.number_view(view));
    let mut text = String::new(alloc);
    push_page(&mut text, court, labels, &shown)?;
    Ok(text.into_bytes())
}

/// Adds the page of a sheet, or another reply as rows get it.
fn push_page(
    text: &mut String,
    court: &Court,
    labels: &Labels<'_>,
    shown: &Reply,
) -> Result<(), AllocError>
    ensures { OnOk result (AddsText text.old text.new (page_called court.now labels.now shown.now)) }
{
    match shown {
        Reply::Viewed(View::Sheet(sheet)) => push_case_page(text, court, labels, sheet),
        _ => push_named_reply(text, court, labels.cases, shown),
    }
}
