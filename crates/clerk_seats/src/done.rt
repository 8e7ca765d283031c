//! What a finished command comes to.

use docket_rows::Answer;

/// A finished command: the place of its entry in the one history of the office, and its answer.
#[derive(Clone, Copy, Debug, PartialEq, Eq)]
pub struct Done {
    /// The place of the entry. The first one is at 1.
    pub place: u64,
    /// The answer; it may be a refusal by the docket, which is an entry as well.
    pub answer: Answer,
}
