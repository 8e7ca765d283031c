//! What is changed of the published docket, one step at a time.

use crate::trail::Trail;
use docket_rows::PartValue;

/// One step of a change, which readers see whole.
#[derive(Drop)]
pub enum BoardChange {
    /// The cell of that number has this version and this value.
    Put(usize, u64, PartValue),
    /// The history went on as far as this.
    Grow(Trail),
}
