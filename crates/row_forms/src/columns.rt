//! The columns of a row.

ghost use Rattle.std.specs.Prelude.{◌≡◌, ◌≤◌};
ghost use Rattle.csv.specs.Records.{fields_of};
ghost use Rattle.row_forms.specs.Columns.{column, day_in, number_in};

use crate::fault::RowCause;
use crate::fields::numbers::number_of;
use court_clock::Day;
use csv::StringRecord;

/// The field in a column, counted from 1; empty where the record has no such column.
pub fn column(fields: &StringRecord, number: u8) -> &str
    requires { 1 ≤ number }
    ensures { result.now ≡ column (fields_of fields.now) number }
{
    fields.get(usize::from(number) - 1).unwrap_or("")
}

/// The number in a column, or the fault of that column.
#[tactic(auto, unfolding(crate::specs::Columns::number_in))]
pub fn number_in(fields: &StringRecord, number: u8) -> Result<u32, RowCause>
    requires { 1 ≤ number }
    ensures { result ≡ number_in (fields_of fields.now) number }
{
    number_of(column(fields, number)).ok_or(RowCause::BadField(number))
}

/// The day in a column, or the fault of that column.
#[tactic(auto, unfolding(crate::specs::Columns::day_in))]
pub fn day_in(fields: &StringRecord, number: u8) -> Result<Day, RowCause>
    requires { 1 ≤ number }
    ensures { result ≡ day_in (fields_of fields.now) number }
{
    Day::from_text(column(fields, number)).ok_or(RowCause::BadField(number))
}
