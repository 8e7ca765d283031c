//! How much a sheet says.

use crate::sources::Sources;
use court_clock::Day;

/// How much a sheet says of a case.
#[derive(Debug, Drop)]
pub enum Detail {
    /// The reasons of its deadlines.
    Reasons,
    /// Also the rows that made them what they are, the acts that are recorded, how far the end of a pending deadline lies
    /// from a day, where one is given, and what a reader is warned of.
    Whole {
        /// The day that counts as today.
        today: Option<Day>,
        /// What rows did to the deadlines of the case.
        sources: Sources,
    },
}
