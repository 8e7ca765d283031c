//! Whether the case that alone is chosen is open.

ghost use Rattle.std.specs.Prelude.{◌≡◌, List, Some, IfOk};
ghost use Rattle.docket_rows.specs.Words.{Rows, setup_of};
ghost use Rattle.row_forms.specs.declared.numbered.NumberedRow.{NumberedRow as NumberedRowOf};
ghost use Rattle.office_texts.specs.Run.Words.{Holds};
ghost use Rattle.report_program.specs.Calendar.{docketed_by};
ghost use Rattle.report_program.specs.Opened.{case_chosen, case_of, closed_case, closed_in, found_of, found_unless, if_open, is_open_after, is_sheet, unless_sheet};

use crate::asked::Asked;
use crate::chosen::{Chosen, Listing, Missing, chosen_of};
use crate::docket::{Came, docket_after};
use court_days::Court;
use docket_core::Docket;
use docket_rows::{Query, View};
use report_texts::Labels;
use row_forms::NumberedRow;
use std::alloc::{AllocError, Global};

/// What is chosen of the court after all rows, or the first that isn't there of it. `Err` says that memory ran out.
#[tactic(auto, unfolding(crate::specs::Opened::found_of))]
pub(crate) fn found_of(
    alloc: Global,
    court: &Court,
    labels: &Labels<'_>,
    rows: &[NumberedRow],
    asked: &Asked,
) -> Result<Result<Chosen, Missing>, AllocError>
    ensures { IfOk result (λ found. found ≡ found_of court.now labels.now.cases rows.now asked.now) }
{
    match chosen_of(court, labels, asked) {
        Ok(chosen) => if_open(alloc, court, rows, chosen),
        Err(missing) => Ok(Err(missing)),
    }
}

/// What is chosen, unless it is of a case alone that no row has opened.
fn if_open(
    alloc: Global,
    court: &Court,
    rows: &[NumberedRow],
    chosen: Chosen,
) -> Result<Result<Chosen, Missing>, AllocError>
    ensures { IfOk result (λ found. found ≡ if_open court.now rows.now chosen) }
{
    match closed_case(alloc, court, rows, case_chosen(&chosen))? {
        Some(case) => Ok(Err(Missing::Closed(case))),
        None => Ok(Ok(chosen)),
    }
}

/// The case that alone is chosen, if one is.
fn case_chosen(chosen: &Chosen) -> Option<u32>
    ensures { result ≡ case_chosen chosen.now }
{
    match chosen {
        Chosen::Listed(Listing::Due(choice)) => choice.case,
        Chosen::Listed(Listing::Page(choice)) => choice.case,
        Chosen::Listed(Listing::Ics(choice, _)) => choice.case,
        Chosen::Listed(Listing::Sheet(case)) => Some(*case),
        Chosen::Listed(Listing::Case(case)) => Some(*case),
        Chosen::Json(choice) => choice.case,
        _ => None,
    }
}

/// The case, if one is given that no row has opened.
fn closed_case(
    alloc: Global,
    court: &Court,
    rows: &[NumberedRow],
    case: Option<u32>,
) -> Result<Option<u32>, AllocError>
    ensures { IfOk result (λ closed. closed ≡ closed_case court.now rows.now case) }
{
    let Some(number) = case else {
        return Ok(None);
    };
    if is_open_after(alloc, court, rows, number)? {
        return Ok(None);
    }
    Ok(Some(number))
}

/// Whether the case is open after all rows.
fn is_open_after(
    alloc: Global,
    court: &Court,
    rows: &[NumberedRow],
    case: u32,
) -> Result<bool, AllocError>
    ensures { IfOk result (λ opened. opened ≡ is_open_after court.now rows.now case) }
{
    let mut came = Came::new(alloc);
    let docket = docket_after(alloc, court, &[], rows, &mut came)?;
    let view = docket.show(alloc, &Query::Sheet(case))?;
    Ok(is_sheet(&view))
}

/// Whether a sheet is shown.
fn is_sheet(view: &View) -> bool
    ensures { result ≡ is_sheet view.now }
{
    matches!(view, View::Sheet(_))
}

/// The same of a docket that has taken all rows. `Err` says that memory ran out.
pub(crate) fn found_in(
    alloc: Global,
    court: &Court,
    labels: &Labels<'_>,
    docket: &Docket,
    asked: &Asked,
) -> Result<Result<Chosen, Missing>, AllocError>
    requires court { docket.now.setup ≡ setup_of court.now }
    ensures { (rows : List NumberedRowOf) → Holds (setup_of court.now) docket.now (docketed_by court.now rows) → IfOk result (λ found. found ≡ found_of court.now labels.now.cases rows asked.now) }
{
    let chosen = chosen_of(court, labels, asked);
    let closed = closed_in(alloc, court, docket, case_of(&chosen))?;
    Ok(found_unless(chosen, closed))
}

/// The case that alone is chosen, if one is.
fn case_of(chosen: &Result<Chosen, Missing>) -> Option<u32>
    ensures { result ≡ case_of chosen.now }
{
    match chosen {
        Ok(chosen) => case_chosen(chosen),
        Err(_) => None,
    }
}

/// The case, if one is given that isn't open.
fn closed_in(
    alloc: Global,
    court: &Court,
    docket: &Docket,
    case: Option<u32>,
) -> Result<Option<u32>, AllocError>
    requires court { docket.now.setup ≡ setup_of court.now }
    ensures { (docketed : Rows) → Holds (setup_of court.now) docket.now docketed → IfOk result (λ closed. closed ≡ closed_in court.now docketed case) }
{
    match case {
        Some(number) => closed_unless_shown(alloc, court, docket, number),
        None => Ok(None),
    }
}

/// The case, unless the docket shows its sheet.
fn closed_unless_shown(
    alloc: Global,
    court: &Court,
    docket: &Docket,
    case: u32,
) -> Result<Option<u32>, AllocError>
    requires court { docket.now.setup ≡ setup_of court.now }
    ensures { (docketed : Rows) → Holds (setup_of court.now) docket.now docketed → IfOk result (λ closed. closed ≡ closed_in court.now docketed (Some case)) }
{
    let view = docket.show(alloc, &Query::Sheet(case))?;
    Ok(unless_sheet(&view, case))
}

/// The case, unless a sheet is shown.
fn unless_sheet(view: &View, case: u32) -> Option<u32>
    ensures { result ≡ unless_sheet view.now case }
{
    if is_sheet(view) { None } else { Some(case) }
}

/// What is chosen, unless a case isn't open.
fn found_unless(chosen: Result<Chosen, Missing>, closed: Option<u32>) -> Result<Chosen, Missing>
    ensures { result ≡ found_unless chosen closed }
{
    match closed {
        Some(case) => Err(Missing::Closed(case)),
        None => chosen,
    }
}
