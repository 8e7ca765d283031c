//! What a row makes is called: by the field of a column `label` in a row that has none.

ghost use Rattle.std.specs.Prelude.{◌≡◌, ◌++◌, IfOk, OnOk, map, option_map};
ghost use Rattle.csv.specs.Records.{fields_of};
ghost use Rattle.row_written.specs.Fault.{fault_in};
ghost use Rattle.row_written.specs.Labels.{is_label, label_at, row_of_label, made_by, wanted_columns};
ghost use Rattle.row_written.specs.Rows.{excess_faults, label_faults};

use crate::cases::text_of;
use crate::excess::push_excesses;
use crate::fault::{Fault, Flaw, fault_at};
use crate::headings::{index_of, word_at};
use crate::rows::column_place;
use crate::subjects::has_mark;
use csv::StringRecord;
use row_forms::{Column, is_text};
use std::alloc::{AllocError, Global};

/// Whether a row with this command word makes a deadline or a motion, in a word: nothing where it makes neither.
#[tactic(auto, unfolding(crate::specs::Labels::made_by))]
pub(crate) fn made_by(word: &str) -> &'static str
    ensures { result.now ≡ made_by word.now }
{
    match word {
        "start" | "set" => "deadline",
        "motion" => "motion",
        _ => "",
    }
}

/// What the field of a column `label` says, in a row of a file with these headings that makes this.
pub(crate) fn label_at<'a>(
    header: &Option<StringRecord>,
    made: &str,
    fields: &'a StringRecord,
) -> &'a str
    ensures { result.now ≡ label_at (option_map fields_of header.now) made.now (fields_of fields.now) }
{
    match header {
        None => "",
        Some(headings) => {
            if made.is_empty() {
                ""
            } else {
                word_at(fields, index_of(headings, "label"))
            }
        }
    }
}

/// The plain row that says that what the plain row before makes is called so, if it is called something.
pub(crate) fn row_of_label(
    alloc: Global,
    made: &str,
    plain: &StringRecord,
    label: &str,
) -> Result<Option<Vec<u8>>, AllocError>
    ensures { IfOk result (λ row. option_map (λ t. t.items) row ≡ row_of_label made.now (fields_of plain.now) label.now) }
{
    if label.is_empty() {
        return Ok(None);
    }
    let mut row = StringRecord::new(alloc);
    row.push_field(word_at(plain, 0))?;
    row.push_field("label")?;
    row.push_field(word_at(plain, 2))?;
    row.push_field(made)?;
    row.push_field("new")?;
    row.push_field(label)?;
    Ok(Some(text_of(alloc, &row)?))
}

// The columns whose fields a row may have, in a file with these headings: one that makes this may have a label.
fn wanted_columns(
    alloc: Global,
    header: &Option<StringRecord>,
    made: &str,
    columns: &[Column],
) -> Result<Vec<Column>, AllocError>
    ensures { IfOk result (λ all. all.items ≡ wanted_columns (option_map fields_of header.now) made.now columns.now) }
{
    let mut all = Vec::from_slice(alloc, columns)?;
    if header.is_none() || made.is_empty() {
        return Ok(all);
    }
    all.push(Column::Label)?;
    Ok(all)
}

/// Whether something may be called so, as a row written by hand says it.
pub fn is_label(text: &str) -> bool
    ensures { result ≡ is_label text.now }
{
    is_text(text.as_bytes()) && !has_mark(text.as_bytes())
}

// Adds the fault of a label by which nothing may be called.
fn push_label_fault(
    alloc: Global,
    header: &Option<StringRecord>,
    text: &str,
    label: &str,
    faults: &mut Vec<Fault>,
) -> Result<(), AllocError>
    ensures { OnOk result (map fault_in faults.new.items ≡ map fault_in faults.old.items ++ label_faults (option_map fields_of header.now) text.now label.now) }
{
    if !label.is_empty() && !is_label(label) {
        let place = column_place(header, 0, Column::Label);
        let flaw = Flaw::Unknown(Column::Label);
        faults.push(fault_at(alloc, text, place, flaw, label, ("", ""))?)?;
    }
    Ok(())
}

/// Adds the faults of the fields for which a row that makes this has no column, and that of its label.
pub(crate) fn push_others(
    alloc: Global,
    header: &Option<StringRecord>,
    made: &str,
    columns: &[Column],
    text: &str,
    fields: &StringRecord,
    label: &str,
    faults: &mut Vec<Fault>,
) -> Result<(), AllocError>
    ensures { OnOk result (map fault_in faults.new.items ≡ map fault_in faults.old.items ++ (excess_faults (option_map fields_of header.now) (wanted_columns (option_map fields_of header.now) made.now columns.now) text.now 0 (fields_of fields.now) ++ label_faults (option_map fields_of header.now) text.now label.now)) }
{
    let wanted = wanted_columns(alloc, header, made, columns)?;
    push_excesses(alloc, header, &wanted, text, fields, faults)?;
    push_label_fault(alloc, header, text, label, faults)
}
