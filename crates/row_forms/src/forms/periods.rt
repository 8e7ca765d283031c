//! A period and its event, as `start` and `compute` have them.

ghost use Rattle.std.specs.Prelude.{◌≡◌, ◌≤◌};
ghost use Rattle.csv.specs.Records.{fields_of};
ghost use Rattle.row_forms.specs.Forms.Periods.{measured_from};
ghost use Rattle.row_forms.specs.CourtNames.{names_if, names_of};

use crate::columns::{column, day_in};
use crate::fault::RowCause;
use crate::fields::choices::kind_if_given;
use crate::fields::period::period_in;
use crate::fields::times::{day_if_given, minute_or_midnight};
use court_clock::Day;
use court_days::Court;
use csv::StringRecord;
use rule_periods::{Event, Period};
use rule6::ServiceKind;

/// A period, and what it is measured from.
#[derive(Clone, Copy)]
pub struct Measured {
    /// The period.
    pub period: Period,
    /// The event.
    pub event: Event,
    /// The second day, if one is given.
    pub second: Option<Day>,
    /// The kind of service, if one is given.
    pub service: Option<ServiceKind>,
}

/// The columns `PERIOD,DATE,TIME,SECOND,KIND`, the first of which has this number, in a row of that court, which may have the code of a
/// section, or the court's name for a period, where these are taken.
#[tactic(auto, unfolding(crate::specs::Forms::Periods::measured_from))]
pub fn measured_from(
    court: &Court,
    coded: bool,
    fields: &StringRecord,
    first: u8,
) -> Result<Measured, RowCause>
    requires from_1 { 1 ≤ first }
    requires few { first ≤ 200 }
    ensures { result ≡ measured_from (names_if coded (names_of court.now)) (fields_of fields.now) first }
{
    let period = period_in(court, coded, column(fields, first)).ok_or(RowCause::BadField(first))?;
    let day = day_in(fields, first + 1)?;
    let minute = minute_or_midnight(column(fields, first + 2)).ok_or(RowCause::BadField(
        first + 2,
    ))?;
    let second = day_if_given(column(fields, first + 3)).ok_or(RowCause::BadField(first + 3))?;
    let service = kind_if_given(column(fields, first + 4)).ok_or(RowCause::BadField(first + 4))?;
    Ok(Measured {
        period,
        event: Event::new(day, minute),
        second,
        service,
    })
}
