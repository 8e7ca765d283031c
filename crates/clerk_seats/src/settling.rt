//! How a seat's draft is committed, and a command is made whole, under the lock.

ghost use Rattle.std.specs.Prelude.{◌≡◌, ◌+◌, ◌<◌};
ghost use Rattle.versioned_steps.specs.Words.{IsPrepared};
ghost use Rattle.shared_docket.specs.Words.{docket_rules};
ghost use Rattle.clerk_seats.specs.Books.{entries_of};
ghost use Rattle.clerk_seats.specs.Finished.{Makes, Settles};

use crate::book::Book;
use crate::done::Done;
use crate::fault::{CommitError, PerformError};
use crate::names_office::NamesOffice;
use crossbeam_utils::Backoff;
use docket_rows::Command;
use published_docket::Trail;
use shared_docket::DocketParts;
use std::alloc::Global;
use std::sync::ledger::Share;
use std::sync::{Mutex, MutexGuard, Wait};
use versioned_steps::Draft;

/// Takes the lock of the book. It is held for some microseconds at a time. So a thread that waits for it looks again
/// soon, and yields the processor in between; to sleep and be woken would take longer.
fn taken<'b, L: NamesOffice, R: Wait>(rt: &R, book: &'b Mutex<Book<L>>) -> MutexGuard<'b, Book<L>> {
    let backoff = Backoff::new();
    for _ in rt.forever() {
        if let Some(guard) = book.try_lock() {
            return guard;
        }
        backoff.snooze();
    }
    unreachable!()
}

/// Commits a seat's draft at the end of the journal, all of which the seat has then seen.
pub(crate) fn settled<L: NamesOffice, R: Wait>(
    rt: &R,
    alloc: Global,
    book: &Mutex<Book<L>>,
    seen: &mut Trail,
    share: &mut Share<L>,
    draft: &Draft<DocketParts>,
    limit: u32,
) -> Result<Done, CommitError>
    requires book { seen.old.book ≡ L.history }
    requires prepared { IsPrepared (docket_rules L.setup) seen.old.log draft.now }
    requires share { 0 < share.old.parts }
    ensures book { seen.new.book ≡ seen.old.book }
    ensures settles { Settles L.setup seen.old.log limit draft.now result seen.new.log }
    ensures parts { share.new.parts ≡ share.old.parts }
    ensures amount { share.new.amount ≡ share.old.amount + entries_of result }
{
    for _ in rt.forever() {
        let mut book = taken(rt, book);
        if let Some(result) = book.settle(rt, alloc, seen, share, draft, limit) {
            return result;
        }
    }
    unreachable!()
}

/// Makes a seat's command whole at the end of the journal, all of which the seat has then seen.
pub(crate) fn made<L: NamesOffice, R: Wait>(
    rt: &R,
    alloc: Global,
    book: &Mutex<Book<L>>,
    seen: &mut Trail,
    share: &mut Share<L>,
    clerk: u32,
    command: &Command,
    limit: u32,
) -> Result<Done, PerformError>
    requires book { seen.old.book ≡ L.history }
    requires share { 0 < share.old.parts }
    ensures book { seen.new.book ≡ seen.old.book }
    ensures makes { Makes L.setup seen.old.log limit clerk command.now result seen.new.log }
    ensures parts { share.new.parts ≡ share.old.parts }
    ensures amount { share.new.amount ≡ share.old.amount + entries_of result }
{
    for _ in rt.forever() {
        let mut book = taken(rt, book);
        if let Some(result) = book.settle_now(rt, alloc, seen, share, clerk, *command, limit) {
            return result;
        }
    }
    unreachable!()
}
