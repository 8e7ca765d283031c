//! The whole: the court, what each row was answered, the sheets of cases and the calendars of judges.

ghost use Rattle.std.specs.Prelude.{◌≡◌, [], ◌∷◌, IfOk, OnOk, codes};
ghost use Rattle.std.specs.List.{flat_map};
ghost use Rattle.json.specs.Tree.{json_tokens};
ghost use Rattle.docket_rows.specs.Words.{Rows, opening_rows, setup_of};
ghost use Rattle.docket_core.specs.Words.{StandsFor};
ghost use Rattle.office_texts.specs.Run.Words.{Holds, docketed_after};
ghost use Rattle.row_forms.specs.Words.{rows_of};
ghost use Rattle.report_json.specs.Document.{AreSheetsAfter, IsDocketJson, answers_from, calendars_field, court_fields, court_value, document_fields, document_value, office_fields, until_fields};
ghost use Rattle.report_json.specs.Values.{Adds, AddsFields, AddsValue, array_of, field};

use crate::answers::AnsweredRow;
use crate::names::push_judges;
use crate::to_json::ToJson;
use crate::writer::JsonWriter;
use court_days::Court;
use docket_core::Docket;
use docket_selection::{Choice, ExplainedSheet};
use office_texts::reply_to;
use report_texts::{Labels, explained_selection, numbered_calendars};
use row_forms::NumberedRow;
use std::alloc::{AllocError, Global};

/// One line of JSON: an object with the court, what each row was answered, by its number, the sheets of the chosen cases with the reasons
/// of each deadline, and the calendars of the chosen judges after the last row. The name of a case is beside its number, and in sheets
/// and calendars so is what rows call it, its deadlines and its motions. Deadlines and motions have their numbers, while rows name
/// them by their places. `Err` says that memory ran out.
pub fn json_text(
    alloc: Global,
    court: &Court,
    labels: &Labels<'_>,
    rows: &[NumberedRow],
    choice: &Choice,
) -> Result<Vec<u8>, AllocError>
    ensures { IfOk result (λ text. IsDocketJson court.now labels.now choice.now rows.now text.items) }
{
    let mut out = JsonWriter::new(alloc);
    let _sheets = push_document(alloc, &mut out, court, labels, rows, choice)?;
    let mut text = out.into_text();
    text.push(b'\n')?;
    Ok(text)
}

/// Writes the whole object, and gives the sheets that are in it.
fn push_document(
    alloc: Global,
    out: &mut JsonWriter,
    court: &Court,
    labels: &Labels<'_>,
    rows: &[NumberedRow],
    choice: &Choice,
) -> Result<Vec<ExplainedSheet>, AllocError>
    ensures sheets { IfOk result (λ sheets. AreSheetsAfter court.now labels.now choice.now rows.now sheets.items) }
    ensures object { IfOk result (λ sheets. AddsValue out.old out.new (document_value court.now labels.now choice.now rows.now sheets.items)) }
{
    out.begin_object()?;
    let sheets = push_document_fields(alloc, out, court, labels, rows, choice)?;
    out.end_object()?;
    Ok(sheets)
}

fn push_document_fields(
    alloc: Global,
    out: &mut JsonWriter,
    court: &Court,
    labels: &Labels<'_>,
    rows: &[NumberedRow],
    choice: &Choice,
) -> Result<Vec<ExplainedSheet>, AllocError>
    ensures sheets { IfOk result (λ sheets. AreSheetsAfter court.now labels.now choice.now rows.now sheets.items) }
    ensures fields { IfOk result (λ sheets. AddsFields out.old out.new (document_fields court.now labels.now choice.now rows.now sheets.items)) }
{
    let mut docket = Docket::new(alloc, court)?;
    push_court(out, court, labels)?;
    push_answers(alloc, out, court, labels, &mut docket, rows)?;
    let sheets = explained_selection(alloc, court, &docket, labels, choice)?;
    out.called_field(court, labels, 0, "cases", &sheets)?;
    push_calendars(alloc, out, court, labels, &docket, choice)?;
    Ok(sheets)
}

/// Writes the court.
#[tactic(auto, unfolding(crate::specs::Values::field_tokens))]
fn push_court(out: &mut JsonWriter, court: &Court, labels: &Labels<'_>) -> Result<(), AllocError>
    ensures { OnOk result (AddsFields out.old out.new (field (codes "court") (court_value court.now) ∷ [])) }
{
    out.key("court")?;
    push_court_value(out, court, labels)
}

fn push_court_value(
    out: &mut JsonWriter,
    court: &Court,
    labels: &Labels<'_>,
) -> Result<(), AllocError>
    ensures { OnOk result (AddsValue out.old out.new (court_value court.now)) }
{
    out.begin_object()?;
    push_court_fields(out, court, labels)?;
    out.end_object()
}

/// Writes what the court's file says of the court.
#[tactic(auto, using(crate::proofs::TokenLemmas::more_fields))]
fn push_court_fields(
    out: &mut JsonWriter,
    court: &Court,
    labels: &Labels<'_>,
) -> Result<(), AllocError>
    ensures { OnOk result (AddsFields out.old out.new (court_fields court.now)) }
{
    push_office_fields(out, court, labels)?;
    push_until(out, court.clock().efiling_until())
}

/// Writes the minute to which electronic filing runs on a last day, if there is one.
fn push_until(out: &mut JsonWriter, minute: Option<u16>) -> Result<(), AllocError>
    ensures { OnOk result (AddsFields out.old out.new (until_fields minute)) }
{
    match minute {
        Some(minute) => out.minute_field("efiling_until", minute),
        None => Ok(()),
    }
}

/// Writes the hours of the clerk's office, the first and the last day, and the judges.
fn push_office_fields(
    out: &mut JsonWriter,
    court: &Court,
    labels: &Labels<'_>,
) -> Result<(), AllocError>
    ensures { OnOk result (AddsFields out.old out.new (office_fields court.now)) }
{
    let clock = court.clock();
    out.minute_field("opens", clock.opens())?;
    out.minute_field("closes", clock.closes())?;
    out.field(court, labels, "from", &court.days().from())?;
    out.field(court, labels, "to", &court.days().to())?;
    push_judges(out, court)
}

/// Writes what each row is answered, and carries it out.
fn push_answers(
    alloc: Global,
    out: &mut JsonWriter,
    court: &Court,
    labels: &Labels<'_>,
    docket: &mut Docket,
    rows: &[NumberedRow],
) -> Result<(), AllocError>
    requires { Holds (setup_of court.now) docket.old (opening_rows (setup_of court.now)) }
    ensures answers { OnOk result (AddsFields out.old out.new (field (codes "answers") (array_of (answers_from court.now labels.now (opening_rows (setup_of court.now)) rows.now)) ∷ [])) }
    ensures docket { OnOk result (Holds (setup_of court.now) docket.new (docketed_after (setup_of court.now) (opening_rows (setup_of court.now)) (rows_of rows.now))) }
{
    out.key("answers")?;
    out.begin_array()?;
    push_answered(alloc, out, court, labels, docket, rows)?;
    out.end_array()
}

/// Carries out each row in turn, and writes what it is answered, without the brackets.
fn push_answered(
    alloc: Global,
    out: &mut JsonWriter,
    court: &Court,
    labels: &Labels<'_>,
    docket: &mut Docket,
    rows: &[NumberedRow],
) -> Result<(), AllocError>
    requires { Holds (setup_of court.now) docket.old (opening_rows (setup_of court.now)) }
    ensures answers { OnOk result (Adds out.old out.new (flat_map json_tokens (answers_from court.now labels.now (opening_rows (setup_of court.now)) rows.now))) }
    ensures docket { OnOk result (Holds (setup_of court.now) docket.new (docketed_after (setup_of court.now) (opening_rows (setup_of court.now)) (rows_of rows.now))) }
{
    for numbered in rows {
        let reply = reply_to(alloc, docket, &numbered.row.work)?;
        let answered = AnsweredRow {
            number: numbered.number,
            clerk: numbered.row.clerk,
            reply: labels.moved.number_reply(&numbered.row.work, reply),
        };
        answered.write(out, court, labels)?;
    }
    Ok(())
}

/// Writes the calendars of the chosen judges.
fn push_calendars(
    alloc: Global,
    out: &mut JsonWriter,
    court: &Court,
    labels: &Labels<'_>,
    docket: &Docket,
    choice: &Choice,
) -> Result<(), AllocError>
    requires court { docket.now.setup ≡ setup_of court.now }
    ensures { (docketed : Rows) → StandsFor docket.now docketed → OnOk result (AddsFields out.old out.new (calendars_field court.now labels.now choice.now docketed ∷ [])) }
{
    let calendars = numbered_calendars(alloc, court, docket, labels, choice)?;
    out.called_field(court, labels, 0, "calendars", &calendars)
}
