//! What one who reads or publishes knows.

use crate::trail::Trail;
use shared_docket::DocketParts;

/// Whose docket it is, and how far its history was seen. It is what a proof knows of a reader; no program makes one.
pub struct Known {
    pub parts: DocketParts,
    pub trail: Trail,
}
