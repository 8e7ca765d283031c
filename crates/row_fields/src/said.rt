//! What a field says.

/// What a field says, among what is known of its kind.
#[derive(Debug, Drop, PartialEq, Eq)]
pub enum Said<T> {
    /// Nothing that is known.
    Unknown,
    /// This alone.
    Clear(T),
    /// This or that.
    Unclear(T, T),
}
