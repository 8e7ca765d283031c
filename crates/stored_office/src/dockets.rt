//! The text of a whole docket.
use court_days::Court;
use docket_core::Docket;
use docket_rows::{Query, View};
use office_texts::{push_calendar, push_sheet};
use std::alloc::{AllocError, Global};

/// Adds the sheets of all open cases, then the calendars of all judges that have hearings.
pub fn push_docket(
    alloc: Global,
    text: &mut String,
    court: &Court,
    docket: &Docket,
) -> Result<(), AllocError> {
    for case in 1..4_097u32 {
        if let View::Sheet(sheet) = docket.show(alloc, &Query::Sheet(case))? {
            push_sheet(text, court, &sheet)?;
        }
    }
    push_calendars(text, court, docket)
}

/// Adds the calendars of all judges that have hearings.
fn push_calendars(text: &mut String, court: &Court, docket: &Docket) -> Result<(), AllocError> {
    for judge in 0..court.judges() {
        if let Some(calendar) = docket.calendar(judge) {
            push_calendar(text, court, judge, calendar.all())?;
        }
    }
    Ok(())
}
