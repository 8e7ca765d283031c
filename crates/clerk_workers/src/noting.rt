//! Runs of several clerks, who note the answers to their rows.

ghost use Rattle.std.specs.Prelude.{◌≡◌, ◌≤◌, [], All, length, vec_capacity};
ghost use Rattle.clerk_workers.specs.Workers.{AreWorked, seats_at};
ghost use Rattle.clerk_workers.specs.Noted.{RunsNoting};

use crate::gates::Gate;
use crate::notes::Notes;
use crate::outcome::{Noted, RunFault};
use crate::progress::Progress;
use crate::threads::at_work;
use crate::worker::Worker;
use crate::workers::{all_are, leave_all, seat_all, unseat_all};
use clerk_seats::{NamesOffice, Seat, Tally};
use row_forms::Row;
use std::alloc::Global;
use std::snapshot::Snapshot;
use std::sync::Wait;
use std::thread::Threads;

// The result of a run, by how far the workers came who began as the first list says. The lists are empty, and have room.
fn outcome<L: NamesOffice, K: Notes<L>>(
    start: &Snapshot<Vec<Worker<L, K>>>,
    mut workers: Vec<Worker<L, K>>,
    mut seats: Vec<Seat<L>>,
    mut notes: Vec<K>,
    mut tallies: Vec<Tally<L>>,
    rows: &[Row],
) -> Result<Noted<L, K>, RunFault<L>>
    requires worked { AreWorked K.hold L.setup rows.now start.now.value.items workers.items }
    requires seats { (seats.items ≡ []) × (length start.now.value.items ≤ vec_capacity seats) }
    requires notes { (notes.items ≡ []) × (length start.now.value.items ≤ vec_capacity notes) }
    requires tallies { (tallies.items ≡ []) × (length start.now.value.items ≤ vec_capacity tallies) }
    ensures { RunsNoting K.hold L.setup rows.now (seats_at start.now.value.items) result }
{
    if all_are(workers.as_slice(), Progress::Waiting) {
        unseat_all(&mut workers, &mut seats);
        return Err(RunFault::NotStarted { seats });
    }
    let done = all_are(workers.as_slice(), Progress::Done);
    leave_all(&mut workers, &mut tallies, &mut notes);
    if done {
        Ok(Noted { notes, tallies })
    } else {
        Err(RunFault::Stopped { tallies })
    }
}

/// Lets each clerk do its rows in order. All clerks work at the same time, each in a thread of its own, in which it
/// notes the answers; the first notes are the first seat's. A command is prepared and committed up to eight times,
/// until no part was touched in between. After that it is made while no other clerk can finish one. A journal that is
/// full is an answer, and the clerk goes on with its next row. A clerk that finds no memory stops; the others go on.
/// All clerks begin together; where a thread can't be made for each of them, none does. Conditions: there are notes for
/// each seat, and they hold nothing.
pub fn run_noting<L: NamesOffice + Send + Sync, K: Notes<L>, R: Threads + Wait + Sync, G: Gate>(
    rt: &R,
    alloc: Global,
    mut seats: Vec<Seat<L>>,
    mut notes: Vec<K>,
    rows: &[Row],
    gate: &G,
) -> Result<Noted<L, K>, RunFault<L>>
    requires as_many { length notes.items ≡ length seats.items }
    requires empty { All (λ n. K.hold n []) notes.items }
    ensures { RunsNoting K.hold L.setup rows.now seats.items result }
{
    let Ok(tallies) = Vec::with_capacity(alloc, seats.len()) else {
        return Err(RunFault::NotStarted { seats });
    };
    let Ok(mut workers) = Vec::with_capacity(alloc, seats.len()) else {
        return Err(RunFault::NotStarted { seats });
    };
    seat_all(&mut seats, &mut notes, &mut workers);
    let start = Snapshot::of(&workers);
    let workers = at_work(rt, alloc, workers, rows, gate);
    outcome(&start, workers, seats, notes, tallies, rows)
}
