//! Where a test may hold clerks, so that they come in an order of its choice.

/// It is called for each clerk's rows as they are done, in the clerk's own thread, which goes on once the call returns.
/// Clerks and rows count from 1; the rows are those of all clerks. A row past the 4,294,967,295th is called that.
pub trait Gate: Sync {
    /// The clerk has prepared the row's command, and commits it next. It comes again for each try.
    fn before_commit(&self, clerk: u8, row: u32);

    /// The row was answered.
    fn after_answer(&self, clerk: u8, row: u32);
}
