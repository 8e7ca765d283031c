//! What a query is answered.

use crate::refusal::Refusal;
use crate::sheet::Sheet;
use hearing_slots::Bookings;
use rule6::Shown;

/// The answer to a query.
#[derive(Debug, Drop)]
pub enum View {
    /// The sheet of a case.
    Sheet(Sheet),
    /// The bookings of a judge on a day, by first slot.
    Bookings(Bookings),
    /// The end of a period.
    Computed(Shown),
    /// The query is refused.
    Refused(Refusal),
}
