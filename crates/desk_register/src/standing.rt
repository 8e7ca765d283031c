//! What rows are decided under.
use court_days::Court;
use desk_numbers::Corrections;

/// The court by which rows are decided, and what is struck and kept.
#[derive(Drop)]
pub struct Standing {
    /// The court.
    pub court: Court,
    /// The rows that are struck, and the numbers that rows keep.
    pub corrections: Corrections,
}
