//! What keeps a draft from being committed.

/// A part that an entry touched after it was read, and its version now.
#[derive(Clone, Copy, Debug, PartialEq, Eq)]
pub struct Stale<T> {
    pub part: T,
    pub version: u64,
}
