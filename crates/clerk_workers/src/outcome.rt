//! What a run of several clerks comes to.

use crate::answer::SharedReply;
use crate::notes::Notes;
use clerk_seats::{NamesOffice, Seat, Tally};

/// A run in which all rows were answered.
#[derive(Drop)]
pub struct Ran<L: NamesOffice> {
    /// The answers, in the order of the rows.
    pub answers: Vec<SharedReply>,
    /// The tallies of the seats, in their order.
    pub tallies: Vec<Tally<L>>,
}

/// A run in which all rows were answered, and what each clerk noted of the answers.
#[derive(Drop)]
pub struct Noted<L: NamesOffice, K: Notes<L>> {
    /// The notes of the clerks, in the order of their seats.
    pub notes: Vec<K>,
    /// The tallies of the seats, in their order.
    pub tallies: Vec<Tally<L>>,
}

/// Why not all rows were answered.
#[derive(Drop)]
pub enum RunFault<L: NamesOffice> {
    /// 1: memory ran out, or a thread couldn't be made, before any row was done. The seats are as they were.
    NotStarted {
        /// The seats, in their order.
        seats: Vec<Seat<L>>,
    },
    /// 2: a clerk found no memory. Each clerk's rows are done from its first one up to some row, those of the others to the
    /// last one where they found memory.
    Stopped {
        /// The tallies of the seats, in their order.
        tallies: Vec<Tally<L>>,
    },
}
