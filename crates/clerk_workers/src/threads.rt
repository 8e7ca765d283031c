//! All clerks at work, each in a thread of its own.

ghost use Rattle.std.specs.Prelude.{◌≡◌, ◌+◌, ◌≤◌, [], All, List, length, vec_capacity};
ghost use Rattle.row_forms.specs.declared.row.Row.{Row};
ghost use Rattle.clerk_workers.specs.Workers.{AreUnderWay, AreWorked, WorkerView, IsReady};

use crate::gates::Gate;
use crate::hired::{Hired, hire};
use crate::notes::Notes;
use crate::worker::Worker;
use clerk_seats::NamesOffice;
use row_forms::Row;
use std::alloc::Global;
use std::sync::{OnceLock, Wait};
use std::thread;
use std::thread::{Scope, Threads};

// Starts a thread for each worker, the last worker first, and then gives the word to start. Where no thread can be made for
// one, the word is no, and this worker and those before it stay.
fn hire_all<
    's,
    'e: 's,
    L: NamesOffice + Send + Sync + 'e,
    K: Notes<L> + 'e,
    R: Threads + Wait + Sync + 'e,
    G: Gate + 'e,
>(
    scope: &'s Scope<'s, &'e ()>,
    rt: &'e R,
    alloc: Global,
    workers: &mut Vec<Worker<L, K>>,
    hired: &mut Vec<Hired<'e, L, K>>,
    rows: &'e [Row],
    gate: &'e G,
    start: &'e OnceLock<bool>,
)
    requires ready { All (IsReady K.hold) workers.old.items }
    requires none { hired.old.items ≡ [] }
    requires room { length workers.old.items ≤ vec_capacity hired.old }
    ensures way { AreUnderWay K.hold L.setup rows.now workers.old.items workers.new.items hired.new.items }
    ensures room { length workers.new.items + length hired.new.items ≤ vec_capacity workers.new }
{
    while let Some(worker) = workers.pop() {
        match hire(scope, rt, alloc, worker, rows, gate, start) {
            Ok(clerk) => hired.push_reserved(clerk),
            Err(worker) => {
                workers.push_reserved(worker);
                return;
            }
        }
    }
    let _word = start.set(rt, true);
}

// Waits until all who were hired are done, and puts them after the other workers, in the order that they had.
fn join_all<'e, L: NamesOffice, K: Notes<L>, R: Threads>(
    rt: &R,
    workers: &mut Vec<Worker<L, K>>,
    hired: &mut Vec<Hired<'e, L, K>>,
)
    requires room { length workers.old.items + length hired.old.items ≤ vec_capacity workers.old }
    ensures { (rows : List Row) (start : List (WorkerView K)) → AreUnderWay K.hold L.setup rows start workers.old.items hired.old.items → AreWorked K.hold L.setup rows start workers.new.items }
{
    while let Some(clerk) = hired.pop() {
        workers.push_reserved(clerk.join(rt));
    }
}

// Starts all clerks in this scope, and waits for them. Where there is no memory to note who was hired, none begins.
fn in_scope<
    's,
    'e: 's,
    L: NamesOffice + Send + Sync + 'e,
    K: Notes<L> + 'e,
    R: Threads + Wait + Sync + 'e,
    G: Gate + 'e,
>(
    scope: &'s Scope<'s, &'e ()>,
    rt: &'e R,
    alloc: Global,
    workers: Vec<Worker<L, K>>,
    rows: &'e [Row],
    gate: &'e G,
    start: &'e OnceLock<bool>,
) -> Vec<Worker<L, K>>
    requires { All (IsReady K.hold) workers.items }
    ensures { AreWorked K.hold L.setup rows.now workers.items result.items }
{
    let Ok(mut hired) = Vec::with_capacity(alloc, workers.len()) else {
        return workers;
    };
    let mut workers = workers;
    hire_all(
        scope,
        rt,
        alloc,
        &mut workers,
        &mut hired,
        rows,
        gate,
        start,
    );
    join_all(rt, &mut workers, &mut hired);
    workers
}

/// Lets all workers do their rows, each in a thread of its own, and gives them back in the same order.
/// Where a thread can't be made for each of them, none of the clerks begins.
pub(crate) fn at_work<L: NamesOffice + Send + Sync, K: Notes<L>, R: Threads + Wait + Sync, G: Gate>(
    rt: &R,
    alloc: Global,
    workers: Vec<Worker<L, K>>,
    rows: &[Row],
    gate: &G,
) -> Vec<Worker<L, K>>
    requires { All (IsReady K.hold) workers.items }
    ensures { AreWorked K.hold L.setup rows.now workers.items result.items }
{
    let word = OnceLock::new();
    let start = &word;
    thread::scope(
        thread::scope_env(),
        rt,
        move |scope| -> Vec<Worker<L, K>>
            requires { All (IsReady K.hold) workers.items }
            ensures { AreWorked K.hold L.setup rows.entry.now workers.items result.items }
        { in_scope(scope, rt, alloc, workers, rows, gate, start) },
    )
}
