//! Lines that name columns.

ghost use Rattle.std.specs.Prelude.{◌≡◌, ◌++◌, ◌∷◌, [], IfOk, OnOk, map, option_map, string_bytes};
ghost use Rattle.csv.specs.Records.{fields_of};
ghost use Rattle.row_written.specs.Fault.{fault_in};
ghost use Rattle.row_written.specs.Headings.{has_name, heading_fault, heading_faults, heading_flaw, heading_of, heading_said, index_of, later_heading, names_columns, word_at};

use crate::fault::{Fault, Flaw, fault_at};
use csv::StringRecord;
use row_fields::folded;
use std::alloc::{AllocError, Global};

/// The field of that number, counted from 0; empty where there is none.
pub fn word_at(fields: &StringRecord, number: usize) -> &str
    ensures { result.now ≡ word_at (fields_of fields.now) number }
{
    fields.get(number).unwrap_or("")
}

/// How many names come before this one: all of them, where it isn't among them.
pub(crate) fn index_of(names: &StringRecord, name: &str) -> usize
    ensures { result ≡ index_of name.now (fields_of names.now) }
{
    let count = names.len();
    for i in 0..count {
        if word_at(names, i) == name {
            return i;
        }
    }
    count
}

// Whether the name is among them.
fn has_name(names: &StringRecord, name: &str) -> bool
    ensures { result ≡ has_name (fields_of names.now) name.now }
{
    index_of(names, name) < names.len()
}

/// Whether a line with these headings names columns.
pub(crate) fn names_columns(headings: &StringRecord) -> bool
    ensures { result ≡ names_columns (fields_of headings.now) }
{
    has_name(headings, "command")
}

/// The heading that is meant, for a text that is folded. `note` is that of a column that no row has, and that is passed over.
#[tactic(auto, unfolding(crate::specs::Headings::heading_said))]
pub fn heading_said(word: &str) -> Option<&'static str>
    ensures { option_map (λ name. name.now) result ≡ heading_said word.now }
{
    match word {
        "clerk" => Some("clerk"),
        "command" | "action" => Some("command"),
        "case" | "caseno" | "casenumber" => Some("case"),
        "deadline" | "deadlineno" => Some("deadline"),
        "motion" | "motionno" => Some("motion"),
        "period" | "rule" => Some("period"),
        "date" | "day" => Some("date"),
        "time" => Some("time"),
        "second" | "seconddate" => Some("second"),
        "kind" | "service" | "serviceby" => Some("kind"),
        "means" => Some("means"),
        "grant" | "extension" => Some("grant"),
        "cause" | "goodcause" => Some("cause"),
        "neglect" | "excusableneglect" => Some("neglect"),
        "need" | "noticedays" => Some("need"),
        "list" | "holidays" => Some("list"),
        "from" => Some("from"),
        "to" => Some("to"),
        _ => later_heading(word),
    }
}

// The same, of the headings after "to".
#[tactic(auto, unfolding(crate::specs::Headings::later_heading))]
fn later_heading(word: &str) -> Option<&'static str>
    ensures { option_map (λ name. name.now) result ≡ later_heading word.now }
{
    match word {
        "judge" | "judges" => Some("judge"),
        "referred" | "referredto" | "magistrate" | "magistratejudge" => Some("referred"),
        "room" | "courtroom" => Some("room"),
        "slots" => Some("slots"),
        "notice" | "noticeserved" => Some("notice"),
        "act" => Some("act"),
        "dated" | "orderdated" | "orderdate" | "dateoforder" => Some("dated"),
        "why" | "reason" => Some("why"),
        "ruling" => Some("ruling"),
        "title" | "caption" => Some("title"),
        "of" => Some("of"),
        "number" => Some("number"),
        "label" => Some("label"),
        "note" | "notes" | "remarks" | "comment" | "comments" => Some("note"),
        _ => None,
    }
}

// The heading that a field says; empty where it says none.
fn heading_of(alloc: Global, field: &str) -> Result<&'static str, AllocError>
    ensures { IfOk result (λ heading. heading.now ≡ heading_of field.now) }
{
    let word = folded(alloc, field)?;
    Ok(heading_said(word.as_str()).unwrap_or(""))
}

// What is wrong with the heading of a column, after those of the columns before it.
fn heading_flaw(before: &StringRecord, heading: &str) -> Option<Flaw>
    ensures { result ≡ heading_flaw (fields_of before.now) heading.now }
{
    if heading.is_empty() {
        Some(Flaw::NoHeading)
    } else if heading == "note" {
        None
    } else if has_name(before, heading) {
        Some(Flaw::TwiceNamed)
    } else {
        None
    }
}

// Takes the heading of a field, and its fault if it has one.
fn take_heading(
    alloc: Global,
    text: &str,
    number: usize,
    field: &str,
    headings: &mut StringRecord,
    faults: &mut Vec<Fault>,
) -> Result<(), AllocError>
    ensures headings { OnOk result (fields_of headings.new ≡ fields_of headings.old ++ heading_of field.now ∷ []) }
    ensures faults { OnOk result (map fault_in faults.new.items ≡ map fault_in faults.old.items ++ heading_fault text.now number (fields_of headings.old) field.now) }
{
    let heading = heading_of(alloc, field)?;
    if !field.is_empty() {
        if let Some(flaw) = heading_flaw(headings, heading) {
            faults.push(fault_at(alloc, text, number, flaw, field, ("", ""))?)?;
        }
    }
    headings.push_field(heading)
}

/// The headings that the fields of a line say, and what is wrong with them.
pub(crate) fn headings_of(
    alloc: Global,
    text: &str,
    fields: &StringRecord,
) -> Result<(StringRecord, Vec<Fault>), AllocError>
    ensures headings { IfOk result (λ said. fields_of said.0 ≡ map heading_of (fields_of fields.now)) }
    ensures faults { IfOk result (λ said. map fault_in said.1.items ≡ heading_faults text.now 0 [] (fields_of fields.now)) }
{
    let mut headings = StringRecord::new(alloc);
    let mut faults = Vec::new(alloc);
    for i in 0..fields.len() {
        take_heading(
            alloc,
            text,
            i,
            word_at(fields, i),
            &mut headings,
            &mut faults,
        )?;
    }
    Ok((headings, faults))
}
