//! What a part's value is: days, a calendar or a case.

ghost use Rattle.std.specs.Prelude.{◌≡◌, option_copied};
ghost use Rattle.docket_rows.specs.Words.{calendar_in, case_in, days_in};

use court_days::Days;
use docket_rows::{CaseRecord, PartValue};
use hearing_slots::SharedCalendar;

/// The days that the value is; none where it is something else.
pub fn days_of(value: &PartValue) -> Option<&Days>
    ensures { option_copied result ≡ days_in value.now }
{
    match value {
        PartValue::Days(days) => Some(days),
        PartValue::Calendar(_) => None,
        PartValue::Case(_) => None,
    }
}

/// The calendar that the value is; none where it is something else.
pub fn calendar_of(value: &PartValue) -> Option<&SharedCalendar>
    ensures { option_copied result ≡ calendar_in value.now }
{
    match value {
        PartValue::Calendar(calendar) => Some(calendar),
        PartValue::Days(_) => None,
        PartValue::Case(_) => None,
    }
}

/// The open case that the value is; none where the case isn't open, and where the value is something else.
pub fn case_of(value: &PartValue) -> Option<&CaseRecord>
    ensures { option_copied result ≡ case_in value.now }
{
    match value {
        PartValue::Case(Some(case)) => Some(case.contents()),
        PartValue::Case(None) => None,
        PartValue::Days(_) => None,
        PartValue::Calendar(_) => None,
    }
}
