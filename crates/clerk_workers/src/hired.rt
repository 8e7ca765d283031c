//! A clerk in a thread of its own.

ghost use Rattle.std.specs.Prelude.{◌≡◌, IfErr, IfOk};
ghost use Rattle.clerk_workers.specs.Workers.{IsReady, IsWorked};

use crate::duty::Duty;
use crate::gates::Gate;
use crate::notes::Notes;
use crate::worker::Worker;
use clerk_seats::NamesOffice;
use row_forms::Row;
use std::alloc::Global;
use std::marker::Model;
use std::snapshot::Snapshot;
use std::sync::{OnceLock, Wait};
use std::thread::{PromisedHandle, Scope, Threads};

/// The thread of a clerk.
#[derive(Drop)]
pub(crate) struct Hired<'e, L: NamesOffice, K: Notes<L>> {
    handle: PromisedHandle<Worker<L, K>, Duty<'e, L, K>>,
}

impl<'e, L: NamesOffice, K: Notes<L>> Model for Hired<'e, L, K> {
    ghost use Rattle.clerk_workers.specs.Workers.{HiredView};

    ghost Value = { HiredView K };

    ghost view = { λ h. record { worker = h.handle.promise.worker.value; rows = h.handle.promise.rows.now } };
}

impl<'e, L: NamesOffice, K: Notes<L>> Hired<'e, L, K> {
    /// Waits until the worker is done, and gives it back.
    pub(crate) fn join<R: Threads>(self, rt: &R) -> Worker<L, K>
        ensures { IsWorked K.hold L.setup self.entry.rows self.entry.worker result }
    {
        let Hired { handle } = self;
        handle.join(rt)
    }
}

/// Starts a thread in which the worker does its rows once it gets the word. Where no thread can be made the word is no,
/// and the worker comes back.
pub(crate) fn hire<
    's,
    'e: 's,
    L: NamesOffice + Send + Sync + 'e,
    K: Notes<L> + 'e,
    R: Threads + Wait + Sync + 'e,
    G: Gate + 'e,
>(
    scope: &'s Scope<'s, &'e ()>,
    rt: &'e R,
    alloc: Global,
    worker: Worker<L, K>,
    rows: &'e [Row],
    gate: &'e G,
    start: &'e OnceLock<bool>,
) -> Result<Hired<'e, L, K>, Worker<L, K>>
    requires { IsReady K.hold worker }
    ensures hired { IfOk result (λ h. h ≡ record { worker = worker; rows = rows.now }) }
    ensures refused { IfErr result (λ d. IsWorked K.hold L.setup rows.now worker d) }
{
    let duty = Duty {
        worker: Snapshot::of(&worker),
        rows,
    };
    let job = move || -> Worker<L, K>
        requires { IsReady K.hold worker }
        ensures { IsWorked K.hold L.setup rows.entry.now worker result }
    { worker.work(rt, alloc, rows, gate, start) };
    match scope.spawn_with(duty, job) {
        Ok(handle) => Ok(Hired { handle }),
        Err(refused) => {
            let _word = start.set(rt, false);
            Err((refused.value)())
        }
    }
}
