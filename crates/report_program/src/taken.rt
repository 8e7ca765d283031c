//! What is asked for of a docket that has taken all rows already: they aren't decided again.

ghost use Rattle.std.specs.Prelude.{◌≡◌, true, not, List, Ok, Err, is_some, option_map, IfOk, IfSome};
ghost use Rattle.docket_rows.specs.Words.{setup_of};
ghost use Rattle.row_forms.specs.declared.numbered.NumberedRow.{NumberedRow as NumberedRowOf};
ghost use Rattle.office_texts.specs.Run.Words.{Holds};
ghost use Rattle.program_runs.specs.declared.report.Finding.TheVariants.{Text as TextFound};
ghost use Rattle.program_runs.specs.Words.{IsFinding};
ghost use Rattle.report_program.specs.Calendar.{IsCalendar, IsListing, IsMissing, IsTextOf, changes_by, docketed_by, is_calendar, is_of_docket, lost_of, rests_on_docket};
ghost use Rattle.report_program.specs.Opened.{found_of};
ghost use Rattle.report_program.specs.Past.{PastView};
ghost use Rattle.report_texts.specs.Words.{labels_of};

use crate::asked::Asked;
use crate::chosen::{Chosen, ChosenTypes, Listing, Missing};
use crate::docket::Came;
use crate::missing::missing_line;
use crate::opened::found_in;
use crate::report::listing_of;
use case_numbers::Cases;
use court_days::Court;
use desk_numbers::{CalledTexts, MovedNumbers};
use docket_core::Docket;
use program_runs::Finding;
use report_texts::{Labels, holiday_names};
use std::alloc::{AllocError, Global};

/// What was asked for of this docket, as `report_of_rows` finds it of the rows that the docket has taken; None just where it rests on
/// the rows themselves, as a calendar for calendar programs, JSON and SQL do. `Err` says that memory ran out.
pub fn report_of_docket(
    alloc: Global,
    asked: &Asked,
    file: &[u8],
    court: &Court,
    cases: &Cases,
    moved: &MovedNumbers,
    called: &CalledTexts,
    docket: &Docket,
) -> Result<Option<Finding<Vec<u8>>>, AllocError>
    requires { docket.now.setup ≡ setup_of court.now }
    ensures found { (past : PastView) (rows : List NumberedRowOf) → Holds (setup_of court.now) docket.now (docketed_by court.now rows)
        → IfOk result (λ found. IfSome found (IsFinding (λ text. text.items) (IsCalendar asked.now court.now (labels_of file.now cases.now.named moved.now called.now) past rows) (IsMissing asked.now court.now cases.now.named rows))) }
    ensures some { (rows : List NumberedRowOf) → Holds (setup_of court.now) docket.now (docketed_by court.now rows)
        → IfOk result (λ found. is_some found ≡ rests_on_docket (found_of court.now cases.now.named rows asked.now)) }
{
    let found = holiday_names(alloc, file)?;
    let labels = Labels {
        cases,
        moved,
        called,
        holidays: found.names.as_slice(),
        doubtful: found.doubtful.as_slice(),
    };
    answer_in(alloc, asked, court, &labels, docket)
}

/// The same, where this is what cases, deadlines, motions and holidays are called.
fn answer_in(
    alloc: Global,
    asked: &Asked,
    court: &Court,
    labels: &Labels<'_>,
    docket: &Docket,
) -> Result<Option<Finding<Vec<u8>>>, AllocError>
    requires court { docket.now.setup ≡ setup_of court.now }
    ensures found { (past : PastView) (rows : List NumberedRowOf) → Holds (setup_of court.now) docket.now (docketed_by court.now rows)
        → IfOk result (λ found. IfSome found (IsFinding (λ text. text.items) (IsCalendar asked.now court.now labels.now past rows) (IsMissing asked.now court.now labels.now.cases rows))) }
    ensures some { (rows : List NumberedRowOf) → Holds (setup_of court.now) docket.now (docketed_by court.now rows)
        → IfOk result (λ found. is_some found ≡ rests_on_docket (found_of court.now labels.now.cases rows asked.now)) }
{
    let _types: ChosenTypes = None;
    let found = found_in(alloc, court, labels, docket, asked)?;
    match found {
        Ok(chosen) => text_found(alloc, asked, court, labels, docket, &chosen),
        Err(missing) => line_found(alloc, asked, court, labels, &missing),
    }
}

/// The text of what is chosen, as it is found.
fn text_found(
    alloc: Global,
    asked: &Asked,
    court: &Court,
    labels: &Labels<'_>,
    docket: &Docket,
    chosen: &Chosen,
) -> Result<Option<Finding<Vec<u8>>>, AllocError>
    requires court { docket.now.setup ≡ setup_of court.now }
    ensures found { (past : PastView) (rows : List NumberedRowOf) → Holds (setup_of court.now) docket.now (docketed_by court.now rows) → found_of court.now labels.now.cases rows asked.now ≡ Ok chosen.now
        → IfOk result (λ found. IfSome found (IsFinding (λ text. text.items) (IsCalendar asked.now court.now labels.now past rows) (IsMissing asked.now court.now labels.now.cases rows))) }
    ensures some { IfOk result (λ found. is_some found ≡ is_of_docket chosen.now) }
{
    let text = text_in(alloc, court, labels, docket, chosen)?;
    Ok(as_found(text))
}

/// A text, as it is found.
fn as_found(text: Option<Vec<u8>>) -> Option<Finding<Vec<u8>>>
    ensures { result ≡ option_map (λ t. TextFound t) text }
{
    match text {
        Some(text) => Some(Finding::Text(text)),
        None => None,
    }
}

/// The line that says what isn't there, as it is found.
fn line_found(
    alloc: Global,
    asked: &Asked,
    court: &Court,
    labels: &Labels<'_>,
    missing: &Missing,
) -> Result<Option<Finding<Vec<u8>>>, AllocError>
    ensures found { (past : PastView) (rows : List NumberedRowOf) → found_of court.now labels.now.cases rows asked.now ≡ Err missing.now
        → IfOk result (λ found. IfSome found (IsFinding (λ text. text.items) (IsCalendar asked.now court.now labels.now past rows) (IsMissing asked.now court.now labels.now.cases rows))) }
    ensures some { IfOk result (λ found. is_some found ≡ true) }
{
    let line = missing_line(alloc, court, labels, asked, missing)?;
    Ok(Some(Finding::Missing(line)))
}

/// The text of what is chosen, unless it rests on rows.
fn text_in(
    alloc: Global,
    court: &Court,
    labels: &Labels<'_>,
    docket: &Docket,
    chosen: &Chosen,
) -> Result<Option<Vec<u8>>, AllocError>
    requires court { docket.now.setup ≡ setup_of court.now }
    ensures found { (past : PastView) (rows : List NumberedRowOf) → Holds (setup_of court.now) docket.now (docketed_by court.now rows)
        → IfOk result (λ text. IfSome text (λ text. IsTextOf court.now labels.now past rows chosen.now text.items)) }
    ensures some { IfOk result (λ text. is_some text ≡ is_of_docket chosen.now) }
{
    match chosen {
        Chosen::Listed(listing) => listed_in(alloc, court, labels, docket, listing),
        _ => Ok(None),
    }
}

/// The text of what is shown of the docket, unless it rests on rows.
fn listed_in(
    alloc: Global,
    court: &Court,
    labels: &Labels<'_>,
    docket: &Docket,
    listing: &Listing,
) -> Result<Option<Vec<u8>>, AllocError>
    requires court { docket.now.setup ≡ setup_of court.now }
    ensures found { (past : PastView) (rows : List NumberedRowOf) → Holds (setup_of court.now) docket.now (docketed_by court.now rows)
        → IfOk result (λ text. IfSome text (λ text. IsListing court.now labels.now (docketed_by court.now rows) (changes_by court.now past rows) (lost_of court.now past rows) past.corrections listing.now text.items)) }
    ensures some { IfOk result (λ text. is_some text ≡ not (is_calendar listing.now)) }
{
    if is_calendar(listing) {
        return Ok(None);
    }
    let came = Came::new(alloc);
    let text = listing_of(alloc, court, labels, docket, came, 0, listing)?;
    Ok(Some(text))
}

/// Whether it is a calendar for calendar programs.
fn is_calendar(listing: &Listing) -> bool
    ensures { result ≡ is_calendar listing.now }
{
    match listing {
        Listing::Ics(_, _) => true,
        _ => false,
    }
}
