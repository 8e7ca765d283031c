//! Why a row can't be struck or restored.
use thiserror::Error;

/// Why a row can't be struck or restored.
#[derive(Clone, Copy, Debug, PartialEq, Eq, Error)]
pub enum StrikeFault {
    /// No row of that number was entered.
    #[error("no row has that number")]
    NoSuchRow,
    /// It is struck already.
    #[error("the row is struck already")]
    AlreadyStruck,
    /// It isn't struck, and so there is nothing to restore.
    #[error("the row isn't struck")]
    NotStruck,
    /// It is a question, or its entry says no row of this court: the docket has nothing of it.
    #[error("the row is no command, so the docket has nothing of it")]
    NotACommand,
}
