//! The seat of a clerk.

ghost use Rattle.std.specs.Prelude.{◌≡◌, [], true, None, IfNone, IfOk, IfSome, IsSome, OnOk, OnErr, is_some, length};
ghost use Rattle.left_right.specs.Sides.{view};
ghost use Rattle.docket_rows.specs.Words.{view_of};
ghost use Rattle.versioned_steps.specs.Words.{is_legal};
ghost use Rattle.shared_docket.specs.Words.{docket_rules, rows_of};
ghost use Rattle.published_docket.specs.Words.{trail_view};
ghost use Rattle.clerk_seats.specs.Opened.{open_seat};
ghost use Rattle.clerk_seats.specs.Places.{Within, places_of};
ghost use Rattle.clerk_seats.specs.Seats.{Goes, IsReady, SeatCommits, SeatPerforms};
ghost use Rattle.clerk_seats.specs.Seen.{KnowsOf};

use crate::book::Book;
use crate::done::Done;
use crate::fault::{CommitError, PerformError};
use crate::looking::{decide, looked, showed};
use crate::names_office::NamesOffice;
use crate::settling::{made, settled};
use crate::tally::Tally;
use docket_rows::{Command, Query, View};
use published_docket::{DocketReader, Trail};
use shared_docket::DocketParts;
use std::alloc::{AllocError, Global};
use std::marker::Model;
use std::sync::ledger::Share;
use std::sync::{Arc, Mutex, Wait};
use versioned_steps::Draft;

/// The seat of one clerk, who works in a thread of their own. It reads the docket without waiting, and waits for other
/// clerks only where it finishes a command.
#[derive(Drop)]
pub struct Seat<L: NamesOffice> {
    book: Arc<Mutex<Book<L>>>,
    limit: u32,
    number: u8,
    parts: DocketParts,
    // It is there between two calls.
    reader: Option<DocketReader>,
    trail: Trail,
    share: Share<L>,
    mine: Vec<u64>,
    draft: Option<Draft<DocketParts>>,
}

impl<L: NamesOffice> Model for Seat<L> {
    ghost use Rattle.std.specs.Prelude.{option_map, vec_capacity};
    ghost use Rattle.left_right.specs.Sides.{view as known_by};
    ghost use Rattle.clerk_seats.specs.Seats.{SeatView};
    ghost use Rattle.clerk_seats.specs.Seen.{IsSeat};

    ghost Value = { SeatView };

    ghost view = { λ s. record { number = s.number; limit = s.limit; seen = s.trail.log; mine = s.mine.items; draft = s.draft } };

    ghost invariant = { λ s. IsSeat L.history L.setup s.parts s.trail (option_map (λ r. known_by r.place) s.reader) s.share.parts s.share.amount s.number s.mine.items (vec_capacity s.mine) s.draft };
}

impl<L: NamesOffice> Seat<L> {
    /// A seat that has seen nothing and done nothing.
    #[tactic(auto, using(crate::proofs::SeatLemmas::seat_opened))]
    pub(crate) fn open(
        alloc: Global,
        book: Arc<Mutex<Book<L>>>,
        limit: u32,
        number: u8,
        parts: DocketParts,
        reader: DocketReader,
        trail: Trail,
        share: Share<L>,
    ) -> Seat<L>
        requires setup { parts ≡ L.setup }
        requires knows { KnowsOf L.history L.setup (view reader.place) }
        requires trail { trail ≡ trail_view L.history [] }
        requires parts { share.parts ≡ 1 }
        requires amount { share.amount ≡ 0 }
        ensures { result ≡ open_seat limit number }
    {
        Seat {
            book,
            limit,
            number,
            parts,
            reader: Some(reader),
            trail,
            share,
            mine: Vec::new(alloc),
            draft: None,
        }
    }

    /// The number of the seat, from 1.
    pub fn number(&self) -> u8
        ensures { result ≡ self.now.number }
    {
        self.number
    }

    /// How many entries of the history the seat has seen. They are legal, and the seat's own calls are among them.
    pub fn seen(&self) -> u64
        ensures length { result ≡ length self.now.seen }
        ensures legal { is_legal (docket_rules L.setup) self.now.seen ≡ true }
        ensures mine { Within self.now.mine (places_of self.now.number self.now.seen) }
    {
        self.trail.len()
    }

    /// Whether the seat has a draft.
    pub fn has_draft(&self) -> bool
        ensures { result ≡ is_some self.now.draft }
    {
        self.draft.is_some()
    }

    /// Drops the draft.
    pub fn discard(&mut self)
        ensures { self.new ≡ record self.old { draft = None } }
    {
        self.draft = None;
    }

    // Reads all parts of a command at one moment, and decides it on them. The new draft takes the place of an older one. `Err`
    // says that memory ran out, and None that readers aren't shown yet what the seat has seen; an older draft then stays.
    fn draw(&mut self, alloc: Global, command: Command) -> Option<Result<(), AllocError>>
        ensures goes { Goes self.old self.new }
        ensures mine { self.new.mine ≡ self.old.mine }
        ensures drafted { IfSome result (λ r. OnOk r (IsSome self.new.draft)) }
        ensures ready { IfSome result (λ r. OnOk r (IfSome self.new.draft (IsReady L.setup self.new command))) }
        ensures err { IfSome result (λ r. OnErr r (self.new.draft ≡ self.old.draft)) }
        ensures older { IfNone result (self.new.draft ≡ self.old.draft) }
    {
        let Ok(()) = self.mine.reserve(1) else {
            return Some(Err(AllocError));
        };
        let Some(reader) = self.reader.take() else {
            unreachable!()
        };
        let clerk = u32::from(self.number);
        let (reader, draft) = looked::<L>(alloc, reader, &mut self.trail, clerk, &command);
        self.reader = Some(reader);
        match draft {
            // The reader has left by now: one who publishes waits for readers.
            Some(Ok(draft)) => match decide(alloc, &self.parts, draft) {
                Ok(draft) => {
                    self.draft = Some(draft);
                    Some(Ok(()))
                }
                Err(error) => Some(Err(error)),
            },
            Some(Err(AllocError)) => Some(Err(AllocError)),
            None => None,
        }
    }

    /// Reads all parts of a command at one moment, and decides it on them. The new draft takes the place of an older one.
    /// `Err` says that memory ran out, now or before readers could be shown what the seat has seen; an older draft then
    /// stays.
    pub fn prepare(&mut self, alloc: Global, command: Command) -> Result<(), AllocError>
        ensures goes { Goes self.old self.new }
        ensures mine { self.new.mine ≡ self.old.mine }
        ensures drafted { OnOk result (IsSome self.new.draft) }
        ensures ready { OnOk result (IfSome self.new.draft (IsReady L.setup self.new command)) }
        ensures err { OnErr result (self.new.draft ≡ self.old.draft) }
    {
        match self.draw(alloc, command) {
            Some(result) => result,
            None => Err(AllocError),
        }
    }

    /// What the query shows of the docket at one moment, or why it is refused. `Err` says that memory ran out, now or
    /// before readers could be shown what the seat has seen.
    pub fn show(&mut self, alloc: Global, query: &Query) -> Result<View, AllocError>
        ensures goes { Goes self.old self.new }
        ensures mine { self.new.mine ≡ self.old.mine }
        ensures draft { self.new.draft ≡ self.old.draft }
        ensures view { IfOk result (λ view. view ≡ view_of L.setup (rows_of L.setup self.new.seen) query.now) }
    {
        let Some(reader) = self.reader.take() else {
            unreachable!()
        };
        let (reader, view) = showed::<L>(alloc, reader, &mut self.trail, query);
        self.reader = Some(reader);
        match view {
            Some(view) => view,
            None => Err(AllocError),
        }
    }

    /// Finishes the command of the draft, where the journal takes one more entry and no part was touched after the draft
    /// read it. An `Ok` and `Stale` spend the draft; the other errors keep it. A refusal by the docket is an answer of a
    /// finished command.
    pub fn commit<R: Wait>(&mut self, rt: &R, alloc: Global) -> Result<Done, CommitError>
        ensures { SeatCommits L.setup self.old result self.new }
    {
        let Some(draft) = &self.draft else {
            return Err(CommitError::NothingPrepared);
        };
        let result = settled::<L, R>(
            rt,
            alloc,
            &self.book,
            &mut self.trail,
            &mut self.share,
            draft,
            self.limit,
        );
        match result {
            Ok(done) => {
                self.mine.push_reserved(done.place);
                self.draft = None;
                Ok(done)
            }
            Err(CommitError::Stale(part, version)) => {
                self.draft = None;
                Err(CommitError::Stale(part, version))
            }
            Err(CommitError::JournalFull) => Err(CommitError::JournalFull),
            Err(CommitError::OutOfMemory) => Err(CommitError::OutOfMemory),
            Err(CommitError::NothingPrepared) => unreachable!(),
        }
    }

    // Prepares and commits the command once. None where readers aren't shown yet what the seat has seen, or a part was
    // touched in between; nothing is finished then, and no draft is left.
    fn try_once<R: Wait>(
        &mut self,
        rt: &R,
        alloc: Global,
        command: &Command,
    ) -> Option<Result<Done, PerformError>>
        requires { self.old.draft ≡ None }
        ensures performs { IfSome result (λ r. SeatPerforms L.setup self.old command.now r self.new) }
        ensures goes { IfNone result (Goes self.old self.new) }
        ensures mine { IfNone result (self.new.mine ≡ self.old.mine) }
        ensures draft { self.new.draft ≡ None }
    {
        match self.draw(alloc, *command) {
            Some(Ok(())) => {}
            Some(Err(AllocError)) => {
                // Its contract says that what was seen is legal.
                let _seen = self.seen();
                return Some(Err(PerformError::OutOfMemory));
            }
            None => return None,
        }
        let result = self.commit(rt, alloc);
        self.discard();
        match result {
            Ok(done) => Some(Ok(done)),
            Err(CommitError::JournalFull) => Some(Err(PerformError::JournalFull)),
            Err(CommitError::OutOfMemory) => Some(Err(PerformError::OutOfMemory)),
            Err(CommitError::Stale(_, _)) => None,
            Err(CommitError::NothingPrepared) => unreachable!(),
        }
    }

    // Makes the command while it holds the lock, so that no part can be touched in between. An older
    // draft is dropped.
    fn make<R: Wait>(
        &mut self,
        rt: &R,
        alloc: Global,
        command: &Command,
    ) -> Result<Done, PerformError>
        ensures { SeatPerforms L.setup self.old command.now result self.new }
    {
        self.draft = None;
        self.mine.reserve(1)?;
        let clerk = u32::from(self.number);
        let result = made::<L, R>(
            rt,
            alloc,
            &self.book,
            &mut self.trail,
            &mut self.share,
            clerk,
            command,
            self.limit,
        );
        match result {
            Ok(finished) => {
                self.mine.push_reserved(finished.place);
                Ok(finished)
            }
            Err(error) => Err(error),
        }
    }

    /// Finishes a command. It is prepared and committed as often as is asked, until no part was touched in between.
    /// After that it is made while no other clerk can finish one. So it is never stale, and it never waits for readers
    /// to be shown what the seat has seen. An older draft is dropped, and none is left. A refusal by the docket is an
    /// answer of a finished command.
    pub fn perform<R: Wait>(
        &mut self,
        rt: &R,
        alloc: Global,
        command: Command,
        tries: u32,
    ) -> Result<Done, PerformError>
        ensures { SeatPerforms L.setup self.old command result self.new }
    {
        let command = &command;
        self.discard();
        for _try in 0..tries {
            if let Some(result) = self.try_once(rt, alloc, command) {
                return result;
            }
        }
        self.make(rt, alloc, command)
    }

    /// Gives up the seat, and drops its draft.
    #[tactic(auto, using(crate::proofs::SeatLemmas::seat_leaves))]
    pub fn leave(self) -> Tally<L>
        ensures number { result.number ≡ self.number }
        ensures seen { result.seen ≡ self.seen }
        ensures mine { result.mine ≡ self.mine }
    {
        let Seat {
            book: _,
            limit: _,
            number,
            parts: _,
            reader: _,
            trail,
            share,
            mine,
            draft: _,
        } = self;
        Tally {
            number,
            trail,
            share,
            mine,
        }
    }
}
