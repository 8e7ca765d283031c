//! The cell of one part of the docket.

use docket_rows::PartValue;

/// The version and the value of a part.
#[derive(Drop)]
pub struct Cell {
    pub version: u64,
    pub value: PartValue,
}
