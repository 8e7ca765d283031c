//! Lines that name a deadline or a motion without its number, read by the docket as it is, or before it is known.
ghost use Rattle.std.specs.Prelude.{◌≡◌, ℕ, List, IfOk};
ghost use Rattle.csv.specs.Records.{fields_of};
ghost use Rattle.docket_rows.specs.Words.{setup_of};
ghost use Rattle.office_texts.specs.Run.Words.{Holds};
ghost use Rattle.row_forms.specs.declared.row.Row.{Row as RowOf};
ghost use Rattle.row_forms.specs.declared.line.line.Line.TheVariants as says;
ghost use Rattle.row_forms.specs.Line.Words.{fields_read, line_read};
ghost use Rattle.row_forms.specs.Words.{names_of};
ghost use Rattle.desk_register.specs.Called.{called_standing};
ghost use Rattle.desk_register.specs.Cases.{cases_of};
ghost use Rattle.desk_register.specs.Entries.{most_clerks};
ghost use Rattle.desk_register.specs.Rows.{IsReadAt, unfound_at};
ghost use Rattle.desk_register.specs.Run.{docketed_by, run_by};
ghost use Rattle.desk_register.specs.Subjects.{IsReadApart, with_found};

use crate::case_line::{numbered, read_named};
use crate::cause::{Unfound, unfound_as, unfound_there};
use crate::register::{MOST_CLERKS, RowTypes};
use crate::standing::Standing;
use crate::subject::{found_for, named_in};
use case_numbers::{CaseName, Cases};
use court_days::Court;
use csv::StringRecord;
use desk_numbers::{CalledTexts, Found, RowNumbers};
use docket_core::Docket;
use row_forms::{Line, read_line};
use std::alloc::{AllocError, Global};

// What a plain line says that says this and has these fields, with the number of what is found in place of a name in that column.
fn said_with(
    alloc: Global,
    court: &Court,
    said: Line,
    at: u8,
    found: Found,
    fields: &mut StringRecord,
) -> Result<Line, AllocError>
    ensures said { (text : List ℕ) → said ≡ line_read most_clerks (names_of court.now) text → fields_of fields.old ≡ fields_read text → IfOk result (λ then. then ≡ line_read most_clerks (names_of court.now) (with_found at text found)) }
    ensures fields { (text : List ℕ) → said ≡ line_read most_clerks (names_of court.now) text → fields_of fields.old ≡ fields_read text → IfOk result (λ then. (row : RowOf) → then ≡ says.Row row → fields_of fields.new ≡ fields_read (with_found at text found)) }
{
    match found {
        Found::One(number) => {
            let text = numbered(alloc, fields, at.saturating_sub(1), number)?;
            read_line(alloc, &text, MOST_CLERKS, court, fields)
        }
        _ => Ok(said),
    }
}

// Reads a line after entries that opened these cases and came to this docket.
pub(crate) fn read_next(
    alloc: Global,
    under: &Standing,
    docket: &Docket,
    numbers: &RowNumbers,
    called: &CalledTexts,
    cases: &Cases,
    line: &[u8],
    fields: &mut StringRecord,
) -> Result<(Line, Option<CaseName>), AllocError>
    ensures { (kept : List (List ℕ)) → cases.now ≡ cases_of under.now kept → numbers.now ≡ (run_by under.now kept).numbers → called.now ≡ called_standing under.now kept → Holds (setup_of under.now.court) docket.now (docketed_by under.now kept) → IfOk result (IsReadAt under.now kept line.now (fields_of fields.new)) }
{
    let _types: RowTypes = None;
    let (said, name) = read_named(alloc, &under.court, cases, line, fields)?;
    match named_in(alloc, &under.court, &said, fields)? {
        Some(named) => {
            let found = found_for(alloc, docket, numbers, called, &named, fields)?;
            let said = said_with(alloc, &under.court, said, named.at, found, fields)?;
            Ok((said, name))
        }
        None => Ok((said, name)),
    }
}

// Reads a line after rows that opened these cases, with the number 1 in place of the name of a deadline or a motion.
pub(crate) fn read_apart(
    alloc: Global,
    court: &Court,
    cases: &Cases,
    line: &[u8],
    fields: &mut StringRecord,
) -> Result<(Line, Option<CaseName>), AllocError>
    ensures { IfOk result (IsReadApart (names_of court.now) cases.now line.now) }
{
    let _types: RowTypes = None;
    let (said, name) = read_named(alloc, court, cases, line, fields)?;
    match named_in(alloc, court, &said, fields)? {
        Some(named) => {
            let said = said_with(alloc, court, said, named.at, Found::One(1), fields)?;
            Ok((said, name))
        }
        None => Ok((said, name)),
    }
}

// Why the deadline or the motion isn't found that a line names after such entries, if it isn't.
pub(crate) fn unfound_in(
    alloc: Global,
    under: &Standing,
    docket: &Docket,
    numbers: &RowNumbers,
    called: &CalledTexts,
    cases: &Cases,
    line: &[u8],
) -> Result<Option<Unfound>, AllocError>
    ensures { (kept : List (List ℕ)) → cases.now ≡ cases_of under.now kept → numbers.now ≡ (run_by under.now kept).numbers → called.now ≡ called_standing under.now kept → Holds (setup_of under.now.court) docket.now (docketed_by under.now kept) → IfOk result (λ why. why ≡ unfound_at under.now kept line.now) }
{
    let _types: RowTypes = None;
    let mut fields = StringRecord::new(alloc);
    let (said, _name) = read_named(alloc, &under.court, cases, line, &mut fields)?;
    match named_in(alloc, &under.court, &said, &fields)? {
        Some(named) => {
            let found = found_for(alloc, docket, numbers, called, &named, &fields)?;
            Ok(unfound_there(named.at, unfound_as(named.name, found)))
        }
        None => Ok(None),
    }
}
