//! How far a clerk is.

/// How far a clerk is with its rows.
#[derive(Clone, Copy, Debug, PartialEq, Eq)]
pub enum Progress {
    /// It hasn't begun.
    Waiting,
    /// All its rows are answered.
    Done,
    /// Memory ran out; the rows before that are answered.
    Stopped,
}
