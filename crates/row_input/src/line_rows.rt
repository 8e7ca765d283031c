//! What a line comes to: plain rows, headings or faults.

ghost use Rattle.std.specs.Prelude.{◌≡◌, ◌≢◌, [], false, true, OnOk, map};
ghost use Rattle.csv.specs.Records.{fields_of};
ghost use Rattle.row_written.specs.Words.{fault_in, written_map};
ghost use Rattle.row_input.specs.LineRows.{first_faults, no_rows, rows_said, with_row};

use csv::StringRecord;
use row_written::{Fault, Written, WrittenLine};
use std::alloc::{AllocError, Global};

/// What a line comes to.
#[derive(Drop)]
pub(crate) struct LineRows {
    /// The headings of the columns of the lines after it, if it names some.
    pub header: Option<StringRecord>,
    /// Its plain rows.
    pub rows: Vec<Vec<u8>>,
    /// What is wrong with its fields: the faults of the first row that has some.
    pub faults: Vec<Fault>,
}

/// Whether there are no faults.
pub(crate) fn are_none(faults: &Vec<Fault>) -> bool
    ensures none { result ≡ true → faults.now.items ≡ [] }
    ensures some { result ≡ false → faults.now.items ≢ [] }
{
    faults.is_empty()
}

impl LineRows {
    /// Nothing so far.
    pub(crate) fn new(alloc: Global) -> LineRows
        ensures { rows_said result ≡ no_rows }
    {
        LineRows {
            header: None,
            rows: Vec::new(alloc),
            faults: Vec::new(alloc),
        }
    }

    // Takes the faults of a row, unless a row before it has some.
    fn take_faults(&mut self, faults: Vec<Fault>)
        ensures header { self.new.header ≡ self.old.header }
        ensures rows { self.new.rows ≡ self.old.rows }
        ensures faults { map fault_in self.new.faults.items ≡ first_faults (map fault_in self.old.faults.items) (map fault_in faults.items) }
    {
        if are_none(&self.faults) {
            self.faults = faults;
        } else {
            drop(faults);
        }
    }

    /// Takes what is read of a row.
    pub(crate) fn take(&mut self, row: WrittenLine) -> Result<(), AllocError>
        ensures { OnOk result (rows_said self.new ≡ with_row (rows_said self.old) (written_map fields_of (λ t. t.items) (λ f. map fault_in f.items) row)) }
    {
        match row {
            Written::Nothing => {}
            Written::Header(headings) => self.header = Some(headings),
            Written::Plain(text) => self.rows.push(text)?,
            Written::Labelled(text, label) => {
                self.rows.push(text)?;
                self.rows.push(label)?;
            }
            Written::Faulty(faults) => self.take_faults(faults),
        }
        Ok(())
    }
}
