//! The one book of an office, which its clerks share under a lock.

ghost use Rattle.std.specs.Prelude.{◌≡◌, ℕ, ◌+◌, ◌<◌, ◌≤◌, [], IfNone, IfOk, IfSome, IsSome, OnErr, OnOk, Some, length, option_map, true};
ghost use Rattle.left_right.specs.Sides.{view};
ghost use Rattle.docket_rows.specs.Words.{setup_of};
ghost use Rattle.versioned_steps.specs.Words.{IsPrepared};
ghost use Rattle.shared_docket.specs.Words.{docket_rules};
ghost use Rattle.published_docket.specs.Words.{IsShown, trail_view};
ghost use Rattle.clerk_seats.specs.Books.{entries_of};
ghost use Rattle.clerk_seats.specs.Closed.{HasTallies, IsClosed};
ghost use Rattle.clerk_seats.specs.Finished.{Commits, Makes, MakesNow, Settles};
ghost use Rattle.clerk_seats.specs.Seen.{KnowsOf};

use crate::closing::{merge_all, wait_for_all};
use crate::done::Done;
use crate::fault::{CommitError, PerformError};
use crate::journal::Journal;
use crate::names_office::NamesOffice;
use crate::tally::Tally;
use court_days::Court;
use docket_rows::{Answer, Command, PartId, PartValue};
use published_docket::{Board, DocketReader, Publisher, Trail};
use shared_docket::DocketParts;
use std::alloc::{AllocError, Global};
use std::marker::Model;
use std::sync::ledger::Share;
use std::sync::{Wait, ledger};
use versioned_steps::{Draft, Entry, Store};

/// The journal, with the parts as they are after it and what is published of them, and how many entries were counted.
#[derive(Drop)]
pub struct Book<L: NamesOffice> {
    publisher: Publisher,
    journal: Vec<Entry<Command, Answer>>,
    store: Store<DocketParts>,
    counted: ledger::Book<L>,
}

impl<L: NamesOffice> Model for Book<L> {
    ghost use Rattle.std.specs.Prelude.{List};
    ghost use Rattle.docket_rows.specs.declared.answer.Answer.{Answer};
    ghost use Rattle.docket_rows.specs.declared.command.Command.{Command};
    ghost use Rattle.versioned_steps.specs.declared.entry.Entry.{Entry};
    ghost use Rattle.clerk_seats.specs.Books.{IsBook};

    ghost Value = { List (Entry Command Answer) };

    ghost view = { λ b. b.journal.items };

    ghost invariant = { λ b. IsBook L.history L.setup b.publisher b.journal.items b.store b.counted.total };
}

/// The entry that a settled draft becomes.
fn entry_of(draft: &Draft<DocketParts>) -> Entry<Command, Answer>
    requires { IsSome draft.now.decision }
    ensures clerk { result.clerk ≡ draft.now.clerk }
    ensures command { result.command ≡ draft.now.command }
    ensures answer { option_map (λ d. d.answer) draft.now.decision ≡ Some result.answer }
{
    match draft.decision() {
        Some(decision) => Entry {
            clerk: draft.clerk(),
            command: *draft.command(),
            answer: decision.answer,
        },
        None => unreachable!(),
    }
}

/// A copy of what is written, which shares what it can. `Err` says that memory ran out.
fn copy_writes(
    alloc: Global,
    writes: &[(PartId, PartValue)],
) -> Result<Vec<(PartId, PartValue)>, AllocError>
    ensures { IfOk result (λ copies. copies.items ≡ writes.now) }
{
    let mut copies = Vec::new(alloc);
    for write in writes {
        let value = write.1.copy()?;
        copies.push((write.0, value))?;
    }
    Ok(copies)
}

impl<L: NamesOffice> Book<L> {
    /// The book of an office without entries. `Err` says that memory ran out.
    pub(crate) fn open<R: Wait>(
        rt: &R,
        alloc: Global,
        publisher: Publisher,
        counted: ledger::Book<L>,
        court: &Court,
    ) -> Result<Book<L>, AllocError>
        requires publisher { publisher ≡ record { parts = L.setup; trail = trail_view L.history [] } }
        requires court { L.setup ≡ setup_of court.now }
        requires counted { counted.total ≡ 0 }
        ensures { IfOk result (λ book. book ≡ []) }
    {
        let mut publisher = publisher;
        // An entry makes at most 34 changes: one for each part that it writes, and one more. Those of two entries may wait.
        publisher.warm(rt, 68)?;
        let parts = DocketParts::new(court)?;
        let store = Store::new(alloc, parts);
        Ok(Book {
            publisher,
            journal: Vec::new(alloc),
            store,
            counted,
        })
    }

    /// A reader of the docket. `Err` says that there are as many readers as can be, or that memory ran out.
    pub(crate) fn reader<R: Wait>(&mut self, rt: &R) -> Result<DocketReader, AllocError>
        ensures same { self.new ≡ self.old }
        ensures knows { IfOk result (λ r. KnowsOf L.history L.setup (view r.place)) }
    {
        self.publisher.reader(rt)
    }

    /// Finishes a prepared command as the next entry, where the journal takes one more and no part was touched after
    /// the draft read it. The memory is taken before the entry is published, so an error leaves the journal as it was.
    /// Where there is none to show readers the entry, they are shown it later. The share counts the entry.
    pub(crate) fn commit<R: Wait>(
        &mut self,
        rt: &R,
        alloc: Global,
        share: &mut Share<L>,
        draft: &Draft<DocketParts>,
        limit: u32,
    ) -> Result<Done, CommitError>
        requires prepared { IsPrepared (docket_rules L.setup) self.old draft.now }
        requires share { 0 < share.old.parts }
        ensures commits { Commits L.setup self.old limit draft.now result self.new }
        ensures parts { share.new.parts ≡ share.old.parts }
        ensures amount { share.new.amount ≡ share.old.amount + entries_of result }
    {
        if limit as usize <= self.journal.len() {
            return Err(CommitError::JournalFull);
        }
        if let Some(stale) = self.store.check(draft) {
            return Err(CommitError::Stale(stale.part, stale.version));
        }
        let entry = entry_of(draft);
        let answer = entry.answer;
        let Book {
            publisher,
            journal,
            store,
            counted,
        } = self;
        journal.reserve(1)?;
        let change = store.stage(alloc, draft)?;
        let writes = copy_writes(alloc, change.writes())?;
        publisher.publish(rt, &entry, writes)?;
        journal.push_reserved(entry);
        counted.add(share, 1);
        let place = store.finish(change);
        Ok(Done { place, answer })
    }

    /// Commits a seat's draft, where the journal goes on from what the seat has seen. The seat has then seen all of it.
    /// None where it doesn't go on from that, which never happens: the seat has seen a beginning of this journal.
    pub(crate) fn settle<R: Wait>(
        &mut self,
        rt: &R,
        alloc: Global,
        seen: &mut Trail,
        share: &mut Share<L>,
        draft: &Draft<DocketParts>,
        limit: u32,
    ) -> Option<Result<Done, CommitError>>
        requires book { seen.old.book ≡ L.history }
        requires prepared { IsPrepared (docket_rules L.setup) seen.old.log draft.now }
        requires share { 0 < share.old.parts }
        ensures book { seen.new.book ≡ seen.old.book }
        ensures settles { IfSome result (λ r. Settles L.setup seen.old.log limit draft.now r seen.new.log) }
        ensures unseen { IfNone result (seen.new ≡ seen.old) }
        ensures parts { share.new.parts ≡ share.old.parts }
        ensures amount { IfSome result (λ r. share.new.amount ≡ share.old.amount + entries_of r) }
        ensures uncounted { IfNone result (share.new.amount ≡ share.old.amount) }
    {
        if !seen.begins(self.publisher.trail()) {
            return None;
        }
        let result = self.commit(rt, alloc, share, draft, limit);
        *seen = self.publisher.trail().again();
        Some(result)
    }

    // Makes a command whole: all its parts are read now, so none of them can have been touched later.
    fn make<R: Wait>(
        &mut self,
        rt: &R,
        alloc: Global,
        share: &mut Share<L>,
        clerk: u32,
        command: Command,
        limit: u32,
    ) -> Result<Done, PerformError>
        requires share { 0 < share.old.parts }
        ensures makes { MakesNow L.setup self.old limit clerk command result self.new }
        ensures parts { share.new.parts ≡ share.old.parts }
        ensures amount { share.new.amount ≡ share.old.amount + entries_of result }
    {
        let draft = self.store.prepare(alloc, clerk, command)?;
        match self.commit(rt, alloc, share, &draft, limit) {
            Ok(done) => Ok(done),
            Err(CommitError::JournalFull) => Err(PerformError::JournalFull),
            Err(CommitError::OutOfMemory) => Err(PerformError::OutOfMemory),
            Err(CommitError::Stale(_, _)) => unreachable!(),
            Err(CommitError::NothingPrepared) => unreachable!(),
        }
    }

    /// Makes a seat's command whole, where the journal goes on from what the seat has seen. The seat has then seen all
    /// of it. None where it doesn't go on from that, which never happens.
    pub(crate) fn settle_now<R: Wait>(
        &mut self,
        rt: &R,
        alloc: Global,
        seen: &mut Trail,
        share: &mut Share<L>,
        clerk: u32,
        command: Command,
        limit: u32,
    ) -> Option<Result<Done, PerformError>>
        requires book { seen.old.book ≡ L.history }
        requires share { 0 < share.old.parts }
        ensures book { seen.new.book ≡ seen.old.book }
        ensures makes { IfSome result (λ r. Makes L.setup seen.old.log limit clerk command r seen.new.log) }
        ensures unseen { IfNone result (seen.new ≡ seen.old) }
        ensures parts { share.new.parts ≡ share.old.parts }
        ensures amount { IfSome result (λ r. share.new.amount ≡ share.old.amount + entries_of r) }
        ensures uncounted { IfNone result (share.new.amount ≡ share.old.amount) }
    {
        if !seen.begins(self.publisher.trail()) {
            return None;
        }
        let result = self.make(rt, alloc, share, clerk, command, limit);
        *seen = self.publisher.trail().again();
        Some(result)
    }

    /// Ends the book, and gives its journal and the docket as it was published last. It spends the tallies of all seats,
    /// whose calls make up the journal, as the ledger shows. It waits for readers. There is no docket where memory ran out
    /// for what was owed to them.
    pub(crate) fn close<R: Wait>(
        self,
        rt: &R,
        rest: &mut Share<L>,
        tallies: &mut Vec<Tally<L>>,
    ) -> (Journal, Option<Box<Board>>)
        requires all { L.parts ≡ 64 }
        requires whole { (seats : ℕ) → rest.old.parts + seats ≡ 64 → HasTallies seats tallies.old.items }
        requires parts { rest.old.parts ≤ 64 }
        requires amount { rest.old.amount ≡ 0 }
        ensures closed { IsClosed L.setup tallies.old.items result.0 }
        ensures board { IfSome result.1 (λ board. IsShown board.value × (board.value.parts ≡ L.setup) × (board.value.trail.log ≡ result.0)) }
        ensures few { rest.old.parts + length tallies.old.items ≤ 64 }
    {
        let Book {
            publisher,
            journal,
            store: _,
            mut counted,
        } = self;
        wait_for_all(rt, tallies, publisher.trail());
        merge_all(rest, tallies);
        counted.audit(rest);
        let board = publisher.end(rt);
        (Journal::new(journal), board)
    }
}
