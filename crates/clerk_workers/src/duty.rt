//! What a clerk's thread promises to come to.

use crate::notes::Notes;
use crate::worker::Worker;
use clerk_seats::NamesOffice;
use row_forms::Row;
use std::snapshot::Snapshot;
use std::thread::Promise;

/// That a worker who began so has done its rows among these as far as it then says.
#[derive(Drop)]
pub(crate) struct Duty<'e, L: NamesOffice, K: Notes<L>> {
    pub(crate) worker: Snapshot<Worker<L, K>>,
    pub(crate) rows: &'e [Row],
}

impl<'e, L: NamesOffice, K: Notes<L>> Promise<Worker<L, K>> for Duty<'e, L, K> {
    ghost use Rattle.clerk_workers.specs.Workers.{IsWorked};

    ghost kept_by = { λ p d. IsWorked K.hold L.setup p.rows.now p.worker.value d };
}
