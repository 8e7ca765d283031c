//! A worker for each seat, and what is left of them.

ghost use Rattle.std.specs.Prelude.{◌≡◌, ◌+◌, ◌++◌, ◌≤◌, [], All, false, length, true, vec_capacity};
ghost use Rattle.clerk_workers.specs.Workers.{WorkerView, IsReady, notes_at, seats_at, tallies_at};

use crate::notes::Notes;
use crate::progress::Progress;
use crate::worker::Worker;
use clerk_seats::{NamesOffice, Seat, Tally};

/// Makes a worker of each seat, with notes of its own, the last seat first.
pub(crate) fn seat_all<L: NamesOffice, K: Notes<L>>(
    seats: &mut Vec<Seat<L>>,
    notes: &mut Vec<K>,
    workers: &mut Vec<Worker<L, K>>,
)
    requires none { workers.old.items ≡ [] }
    requires room { length seats.old.items ≤ vec_capacity workers.old }
    requires as_many { length notes.old.items ≡ length seats.old.items }
    requires empty { All (λ n. K.hold n []) notes.old.items }
    ensures all { seats.old.items ≡ seats_at workers.new.items }
    ensures ready { All (IsReady K.hold) workers.new.items }
    ensures no_seats { seats.new.items ≡ [] }
    ensures no_notes { notes.new.items ≡ [] }
    ensures room_for_seats { length workers.new.items ≤ vec_capacity seats.new }
    ensures room_for_notes { length workers.new.items ≤ vec_capacity notes.new }
{
    while let Some(seat) = seats.pop() {
        let Some(notes) = notes.pop() else {
            unreachable!();
        };
        workers.push_reserved(Worker {
            seat,
            notes,
            progress: Progress::Waiting,
        });
    }
}

/// Takes their seats from all workers, and puts them after the others, the last worker's first.
pub(crate) fn unseat_all<L: NamesOffice, K: Notes<L>>(
    workers: &mut Vec<Worker<L, K>>,
    seats: &mut Vec<Seat<L>>,
)
    requires room { length seats.old.items + length workers.old.items ≤ vec_capacity seats.old }
    ensures { seats.new.items ≡ seats.old.items ++ seats_at workers.old.items }
{
    while let Some(worker) = workers.pop() {
        let Worker {
            seat,
            notes: _,
            progress: _,
        } = worker;
        seats.push_reserved(seat);
    }
}

/// Lets all workers leave their seats, and collects their tallies and notes, the last worker's first.
pub(crate) fn leave_all<L: NamesOffice, K: Notes<L>>(
    workers: &mut Vec<Worker<L, K>>,
    tallies: &mut Vec<Tally<L>>,
    notes: &mut Vec<K>,
)
    requires no_tallies { tallies.old.items ≡ [] }
    requires no_notes { notes.old.items ≡ [] }
    requires room_for_tallies { length workers.old.items ≤ vec_capacity tallies.old }
    requires room_for_notes { length workers.old.items ≤ vec_capacity notes.old }
    ensures tallies { tallies.new.items ≡ tallies_at workers.old.items }
    ensures notes { notes.new.items ≡ notes_at workers.old.items }
{
    while let Some(worker) = workers.pop() {
        let Worker {
            seat,
            notes: kept,
            progress: _,
        } = worker;
        tallies.push_reserved(seat.leave());
        notes.push_reserved(kept);
    }
}

/// Whether all workers are in that progress.
pub(crate) fn all_are<L: NamesOffice, K: Notes<L>>(
    workers: &[Worker<L, K>],
    progress: Progress,
) -> bool
    ensures yes { result ≡ true → All (λ (w : WorkerView K). w.progress ≡ progress) workers.now }
    ensures no { result ≡ false → All (λ (w : WorkerView K). w.progress ≡ progress) workers.now → ⊥ }
{
    for worker in workers {
        if worker.progress != progress {
            return false;
        }
    }
    true
}
