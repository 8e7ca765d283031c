//! One entry of the history.

/// A finished command, of one clerk, with its answer. An entry's place in the history counts from 1.
#[derive(Drop)]
pub struct Entry<C, A> {
    pub clerk: u32,
    pub command: C,
    pub answer: A,
}
