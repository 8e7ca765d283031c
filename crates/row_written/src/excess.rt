//! Fields of a row for which it has no column.

ghost use Rattle.std.specs.Prelude.{◌≡◌, ◌++◌, OnOk, map, option_map};
ghost use Rattle.std.specs.List.{list_any};
ghost use Rattle.std.specs.Str.{bytes_eq};
ghost use Rattle.csv.specs.Records.{fields_of};
ghost use Rattle.row_forms.specs.Headings.Words.{name_of};
ghost use Rattle.row_written.specs.Fault.{fault_in};
ghost use Rattle.row_written.specs.Rows.{excess_fault, excess_faults, is_wanted};

use crate::fault::{Fault, Flaw, fault_at};
use crate::headings::word_at;
use csv::StringRecord;
use row_forms::{Column, name_of};
use std::alloc::{AllocError, Global};

// Whether a row with these columns has one with this heading.
fn has_column(columns: &[Column], heading: &str) -> bool
    ensures { result ≡ list_any (λ column. bytes_eq (name_of column) heading.now) columns.now }
{
    columns.iter().any(|column| name_of(*column) == heading)
}

// Whether a row with these columns has one for the field of that number.
fn is_wanted(header: &Option<StringRecord>, columns: &[Column], number: usize) -> bool
    ensures { result ≡ is_wanted (option_map fields_of header.now) columns.now number }
{
    match header {
        None => number < columns.len(),
        Some(headings) => {
            let heading = word_at(headings, number);
            heading == "note" || has_column(columns, heading)
        }
    }
}

// Adds the fault of a field for which a row has no column.
fn push_excess(
    alloc: Global,
    header: &Option<StringRecord>,
    columns: &[Column],
    text: &str,
    number: usize,
    field: &str,
    faults: &mut Vec<Fault>,
) -> Result<(), AllocError>
    ensures { OnOk result (map fault_in faults.new.items ≡ map fault_in faults.old.items ++ excess_fault (option_map fields_of header.now) columns.now text.now number field.now) }
{
    if !field.is_empty() && !is_wanted(header, columns, number) {
        faults.push(fault_at(alloc, text, number, Flaw::Excess, field, ("", ""))?)?;
    }
    Ok(())
}

/// Adds the faults of all fields for which a row has no column.
pub(crate) fn push_excesses(
    alloc: Global,
    header: &Option<StringRecord>,
    columns: &[Column],
    text: &str,
    fields: &StringRecord,
    faults: &mut Vec<Fault>,
) -> Result<(), AllocError>
    ensures { OnOk result (map fault_in faults.new.items ≡ map fault_in faults.old.items ++ excess_faults (option_map fields_of header.now) columns.now text.now 0 (fields_of fields.now)) }
{
    for i in 0..fields.len() {
        push_excess(alloc, header, columns, text, i, word_at(fields, i), faults)?;
    }
    Ok(())
}
