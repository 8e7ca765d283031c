//! A clerk at work: its seat, and what it noted of the answers to its rows.

ghost use Rattle.std.specs.Prelude.{[]};
ghost use Rattle.clerk_workers.specs.Workers.{IsIn, IsReady, IsWorked};

use crate::gates::Gate;
use crate::notes::Notes;
use crate::progress::Progress;
use crate::serving::serve;
use clerk_seats::{NamesOffice, Seat};
use row_forms::Row;
use std::alloc::Global;
use std::marker::Model;
use std::sync::{OnceLock, Wait};

/// A clerk's seat, and what it noted of the answers to its rows so far.
#[derive(Drop)]
pub(crate) struct Worker<L: NamesOffice, K: Notes<L>> {
    pub(crate) seat: Seat<L>,
    pub(crate) notes: K,
    pub(crate) progress: Progress,
}

impl<L: NamesOffice, K: Notes<L>> Model for Worker<L, K> {
    ghost use Rattle.clerk_workers.specs.Workers.{WorkerView};

    ghost Value = { WorkerView K };

    ghost view = { λ d. record { seat = d.seat; notes = d.notes; progress = d.progress } };
}

impl<L: NamesOffice, K: Notes<L>> Worker<L, K> {
    /// Waits for the word to start. Where that is no, the worker stays as it is; else it does all its clerk's rows, as far as
    /// there is memory.
    pub(crate) fn work<R: Wait, G: Gate>(
        self,
        rt: &R,
        alloc: Global,
        rows: &[Row],
        gate: &G,
        start: &OnceLock<bool>,
    ) -> Worker<L, K>
        requires { IsReady K.hold self }
        ensures { IsWorked K.hold L.setup rows.now self result }
    {
        if !*start.wait(rt) {
            return self;
        }
        let Worker {
            seat,
            notes,
            progress: _,
        } = self;
        worked(rt, alloc, seat, notes, rows, gate)
    }
}

// The worker after all its rows, or those before memory ran out.
fn worked<L: NamesOffice, K: Notes<L>, R: Wait, G: Gate>(
    rt: &R,
    alloc: Global,
    mut seat: Seat<L>,
    mut notes: K,
    rows: &[Row],
    gate: &G,
) -> Worker<L, K>
    requires { K.hold notes [] }
    ensures { IsIn K.hold L.setup rows.now result.progress seat result.seat result.notes }
{
    match serve(rt, alloc, &mut seat, &mut notes, rows, gate) {
        Ok(()) => Worker {
            seat,
            notes,
            progress: Progress::Done,
        },
        Err(_) => Worker {
            seat,
            notes,
            progress: Progress::Stopped,
        },
    }
}
