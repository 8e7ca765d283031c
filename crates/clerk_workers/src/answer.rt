//! What a row is answered.

use clerk_seats::Done;
use docket_rows::View;

/// What a row of a clerk is answered.
#[derive(Debug, Drop)]
pub enum SharedReply {
    /// The command was finished; its answer may be a refusal by the docket.
    Made(Done),
    /// The journal has as many entries as it takes, so the command wasn't finished.
    JournalFull,
    /// What the query shows.
    Viewed(View),
}
