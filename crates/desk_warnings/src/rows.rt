//! The rows of a line, and what comes of them together.
ghost use Rattle.std.specs.Prelude.{◌≡◌, IfOk, string_bytes};
ghost use Rattle.csv.specs.Records.{fields_of};
ghost use Rattle.desk_warnings.specs.Inside.Rows.{row_texts};
ghost use Rattle.desk_warnings.specs.Rows.{either_came, fault_against, labels_as, labels_new, left_to_do, line_rows, says_new};

use crate::register::RowTypes;
use csv::StringRecord;
use desk_register::{MOST_CLERKS, Standing};
use desk_session::{BETWEEN_ROWS, Outcome};
use row_forms::{Line, RowCause, column, read_line};
use std::alloc::{AllocError, Global};

/// The rows of a line, which has a record separator between them: a line without one is its one row.
pub(crate) fn line_rows<'a>(alloc: Global, line: &'a [u8]) -> Result<Vec<&'a [u8]>, AllocError>
    ensures { IfOk result (λ rows. row_texts rows.items ≡ line_rows line.now) }
{
    line.split(|byte| *byte == BETWEEN_ROWS).collect(alloc)
}

// How much is left to do of a row of which this comes.
fn left_to_do(outcome: &Outcome) -> u8
    ensures { result ≡ left_to_do outcome.now }
{
    match outcome {
        Outcome::Blank => 0,
        Outcome::Taken => 1,
        Outcome::Refused => 2,
        Outcome::Held => 3,
        Outcome::Fault => 4,
    }
}

/// What comes of two rows together: that of the one of which more is left to do.
pub(crate) fn either_came(first: Outcome, later: Outcome) -> Outcome
    ensures { result ≡ either_came first later }
{
    if left_to_do(&first) < left_to_do(&later) {
        later
    } else {
        first
    }
}

// Whether a row with these fields says what that is called which the row before it makes.
fn says_new(fields: &StringRecord) -> bool
    ensures { result ≡ says_new (fields_of fields.now) }
{
    column(fields, 2) == "label" && column(fields, 5) == "new"
}

// The same of a row that is read as this.
fn labels_as(said: &Line, fields: &StringRecord) -> bool
    ensures { result ≡ labels_as (fields_of fields.now) said.now }
{
    match said {
        Line::Fault(RowCause::BadField(_)) => says_new(fields),
        _ => false,
    }
}

/// Whether a row says what that is called which the row before it makes.
pub(crate) fn labels_new(alloc: Global, standing: &Standing, row: &[u8]) -> Result<bool, AllocError>
    ensures { IfOk result (λ so. so ≡ labels_new standing.now row.now) }
{
    let _types: RowTypes = None;
    let mut fields = StringRecord::new(alloc);
    let said = read_line(alloc, row, MOST_CLERKS, &standing.court, &mut fields)?;
    Ok(labels_as(&said, &fields))
}

/// The line that tells of the fault of a row.
pub(crate) fn fault_against(alloc: Global, cause: RowCause) -> Result<String, AllocError>
    ensures { IfOk result (λ text. string_bytes text ≡ fault_against cause) }
{
    format!(in alloc; "  would be fault {cause}\n")
}
