//! Motions.

use crate::hearing::Hearing;
use court_clock::Day;
use hearing_slots::Need;

/// A motion of a case, with its hearing if one is set.
#[derive(Clone, Copy, Debug, PartialEq, Eq)]
pub struct MotionRecord {
    /// The day on which the motion was served.
    pub served: Day,
    /// What notice it needs.
    pub need: Need,
    /// Its hearing.
    pub hearing: Option<Hearing>,
}
