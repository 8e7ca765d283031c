//! Which other readings give a deadline another end.

ghost use Rattle.std.specs.Prelude.{◌≡◌, map, IfOk};
ghost use Rattle.reason_notes.specs.Readings.Others.{differs, earliest_of, if_differs, other_by, other_end};

use crate::readings::by_reading::DaysByReading;
use crate::readings::earlier::earlier_of;
use crate::readings::reading::{ALL, Reading, shown_by};
use court_clock::Clock;
use rule_periods::{DeadlineRow, shown};
use rule6::Shown;
use std::alloc::{AllocError, Global};

/// The earliest of the ends that other readings give the deadline in place of the one that is shown:
/// by its day on the court's clock, and on one day by its instant, which comes before the end of that day. An end beyond the days
/// covered comes last. None where no reading gives another end, which is where the deadline has no line of another reading. `Err`
/// says that memory ran out.
#[tactic(auto, unfolding(crate::specs::Readings::Others::other_end))]
pub fn other_end(
    alloc: Global,
    days: &DaysByReading,
    clock: &Clock,
    row: &DeadlineRow,
) -> Result<Option<Shown>, AllocError>
    ensures { IfOk result (λ other. other ≡ other_end days.now clock.now row.now) }
{
    earliest_other(alloc, days, clock, row, &ALL[..])
}

/// The earliest of the ends that these readings give in place of the one that is shown.
fn earliest_other(
    alloc: Global,
    days: &DaysByReading,
    clock: &Clock,
    row: &DeadlineRow,
    readings: &[Reading],
) -> Result<Option<Shown>, AllocError>
    ensures { IfOk result (λ other. other ≡ earliest_of clock.now (map (other_by days.now clock.now row.now) readings.now)) }
{
    let mut earliest = None;
    for reading in readings {
        let other = other_by(alloc, days, clock, row, *reading)?;
        earliest = earlier_of(clock, earliest, other);
    }
    Ok(earliest)
}

/// What a reading gives in place of the end that is shown of the deadline. None where it gives the same, or doesn't bear on the
/// deadline. `Err` says that memory ran out.
pub(crate) fn other_by(
    alloc: Global,
    days: &DaysByReading,
    clock: &Clock,
    row: &DeadlineRow,
    reading: Reading,
) -> Result<Option<Shown>, AllocError>
    ensures { IfOk result (λ other. other ≡ other_by days.now clock.now row.now reading) }
{
    let other = shown_by(alloc, days, clock, row, reading)?;
    Ok(if_differs(&shown(days.here(), clock, row), other))
}

/// The end, if there is one and it isn't the one that is shown.
fn if_differs(shown: &Shown, other: Option<Shown>) -> Option<Shown>
    ensures { result ≡ if_differs shown.now other }
{
    match other {
        Some(other) if differs(shown, &other) => Some(other),
        _ => None,
    }
}

/// Whether two ends aren't the same.
fn differs(shown: &Shown, other: &Shown) -> bool
    ensures { result ≡ differs shown.now other.now }
{
    match (shown, other) {
        (Shown::Last { day, .. }, Shown::Last { day: other, .. }) => day != other,
        (Shown::Until(end), Shown::Until(other)) => end.seconds() != other.seconds(),
        (Shown::Beyond, Shown::Beyond) => false,
        _ => true,
    }
}
