//! The small steps of clerks, and their outcomes. Clerks are numbered from 0.

/// One small step.
#[derive(Drop)]
pub enum Step<C> {
    /// The clerk takes up a command.
    Begin(u32, C),
    /// The clerk copies the next part that the command in hand reads.
    Read(u32),
    /// The versions read are compared, and the decision and its entry are put in place.
    Commit(u32),
    /// The clerk drops the command in hand.
    Discard(u32),
}

/// What became of a step, over parts `T` and answers `A`.
#[derive(Debug, PartialEq, Eq, Drop)]
pub enum Outcome<T, A> {
    /// The command is in hand, with nothing read.
    Began,
    /// A command is in hand already.
    Busy,
    /// No command is in hand.
    Idle,
    /// There is no clerk of that number.
    NoClerk,
    /// The part read, and its version.
    ReadPart(T, u64),
    /// Nothing is left to read.
    Ready,
    /// There is a part left to read.
    NotRead,
    /// The place of the new entry, from 1, and its answer.
    Finished(u64, A),
    /// The first part in read order that was touched since it was read, and its version now.
    WasStale(T, u64),
    /// The command was dropped.
    Discarded,
    /// A growth was refused, and nothing changed.
    NoMemory,
}
