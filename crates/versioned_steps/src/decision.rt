//! What a command answers, and what it writes.

/// The decision of a command: its answer, and the parts that it writes with their new values.
#[derive(Drop)]
pub struct PartsDecision<T, V, A> {
    pub answer: A,
    pub writes: Vec<(T, V)>,
}
