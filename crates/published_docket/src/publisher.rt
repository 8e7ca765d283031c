//! The one who publishes.

ghost use Rattle.std.specs.Prelude.{◌≡◌, ◌+◌, ◌<◌, ◌^◌, ◌++◌, ◌∷◌, [], length, true, Some, IfOk, IfSome, MatchResult};
ghost use Rattle.left_right.specs.Sides.{view};
ghost use Rattle.docket_rows.specs.Words.{setup_of};
ghost use Rattle.versioned_steps.specs.Words.{MayFollow, is_legal, value_of, writes_on};
ghost use Rattle.shared_docket.specs.Words.{docket_rules};
ghost use Rattle.published_docket.specs.Boards.{IsShown};

use crate::board::Board;
use crate::held::Held;
use crate::law::Head;
use crate::protocol::DocketReader;
use crate::trail::Trail;
use court_days::Court;
use docket_rows::{Answer, Command, PartId, PartValue};
use shared_docket::DocketParts;
use std::alloc::{AllocError, Global};
use std::marker::Model;
use std::sync::Wait;
use versioned_steps::Entry;

/// Publishes the docket of one court for its readers, entry after entry.
#[derive(Drop)]
pub struct Publisher {
    // It is there between two calls.
    held: Option<Held>,
    // The writes of the last entry that readers weren't shown, for want of memory.
    owed: Vec<(PartId, PartValue)>,
    // Whether readers are shown the whole history.
    all: bool,
    head: Head,
    parts: DocketParts,
    trail: Trail,
}

impl Model for Publisher {
    ghost use Rattle.published_docket.specs.declared.known.Known.{Known};
    ghost use Rattle.published_docket.specs.Inside.Held.{Keeps};

    ghost Value = { Known };

    ghost view = { λ p. record { parts = p.parts; trail = p.trail } };

    ghost invariant = { λ p. Keeps p.held p.owed.items p.all p.head p.parts p.trail };
}

impl Publisher {
    /// Publishes the docket of the court before any entry, with places for this number of readers, and for one at
    /// least. Each place costs time with every entry. `Err` says that memory ran out.
    pub fn new(alloc: Global, court: &Court, readers: u8) -> Result<Publisher, AllocError>
        ensures parts { IfOk result (λ p. p.parts ≡ setup_of court.now) }
        ensures log { IfOk result (λ p. p.trail.log ≡ []) }
    {
        let parts = DocketParts::new(court)?;
        let (head, trail) = Trail::open();
        let first = Board::open(alloc, &parts, &trail)?;
        let second = Board::open(alloc, &parts, &trail)?;
        let held = Held::new(alloc, first, second, readers.max(1))?;
        Ok(Publisher {
            held: Some(held),
            owed: Vec::new(alloc),
            all: false,
            head,
            parts,
            trail,
        })
    }

    /// The history that is published.
    pub fn trail(&self) -> &Trail
        ensures value { result.now ≡ self.now.trail }
        ensures legal { is_legal (docket_rules self.now.parts) self.now.trail.log ≡ true }
    {
        &self.trail
    }

    /// Whose docket it is.
    pub fn parts(&self) -> &DocketParts
        ensures { result.now ≡ self.now.parts }
    {
        &self.parts
    }

    /// Takes the memory for this number of changes at once. It takes it twice, since readers may still be reading what
    /// an entry changes. An entry makes a change for each part that it writes, and one more. So no call that publishes
    /// takes any. `Err` says that memory ran out.
    pub fn warm<R: Wait>(&mut self, rt: &R, count: u32) -> Result<(), AllocError>
        ensures { self.new ≡ self.old }
    {
        let Some(held) = self.held.take() else {
            unreachable!()
        };
        let (held, all) = held.catch_up(rt, self.all, &mut self.owed, &self.trail);
        self.all = all;
        if !all {
            self.held = Some(held);
            return Err(AllocError);
        }
        let (held, all) = held.warm(rt, &mut self.owed, &self.trail, count);
        self.held = Some(held);
        self.all = all;
        if !all {
            return Err(AllocError);
        }
        Ok(())
    }

    /// A reader that has seen all that is published. `Err` says that there are as many readers as can be, or that memory
    /// ran out.
    pub fn reader<R: Wait>(&mut self, rt: &R) -> Result<DocketReader, AllocError>
        ensures kept { self.new ≡ self.old }
        ensures known { IfOk result (λ r. view r.place ≡ Some self.old) }
    {
        let Some(held) = self.held.take() else {
            unreachable!()
        };
        let (mut held, all) = held.catch_up(rt, self.all, &mut self.owed, &self.trail);
        self.all = all;
        if !all {
            self.held = Some(held);
            return Err(AllocError);
        }
        let reader = held.greet();
        self.held = Some(held);
        reader
    }

    /// Publishes one more entry, with what its command writes. It changes the cells of the parts written alone, and
    /// waits for the readers that read what was published before the last entry. Where memory runs out while readers are
    /// shown the entry, it is published all the same; they are shown it by the next call, before anything else. `Err` says
    /// that memory ran out for what was owed to them before; nothing is published then.
    pub fn publish<R: Wait>(
        &mut self,
        rt: &R,
        entry: &Entry<Command, Answer>,
        writes: Vec<(PartId, PartValue)>,
    ) -> Result<(), AllocError>
        requires room { length self.old.trail.log + 1 < 2 ^ 64 }
        requires follows { MayFollow (docket_rules self.old.parts) self.old.trail.log entry.now }
        requires writes { writes.items ≡ writes_on (docket_rules self.old.parts) (value_of (docket_rules self.old.parts) self.old.trail.log) entry.now.command }
        ensures { MatchResult result (λ _. self.new ≡ record self.old { trail = record self.old.trail { log = self.old.trail.log ++ entry.now ∷ [] } }) (λ _. self.new ≡ self.old) }
    {
        let Some(held) = self.held.take() else {
            unreachable!()
        };
        let (held, all) = held.catch_up(rt, self.all, &mut self.owed, &self.trail);
        self.all = all;
        if !all {
            self.held = Some(held);
            return Err(AllocError);
        }
        let mut trail = self.trail.again();
        if !trail.add(&self.head, entry) {
            // It never happens: nobody else adds entries to this history.
            self.held = Some(held);
            return Err(AllocError);
        }
        self.owed = writes;
        let (held, all) = held.show(rt, &mut self.owed, &trail);
        self.held = Some(held);
        self.all = all;
        self.trail = trail;
        Ok(())
    }

    /// Waits for the readers, and gives the docket after all that was published. None where memory ran out for what was
    /// owed to readers.
    pub fn end<R: Wait>(self, rt: &R) -> Option<Box<Board>>
        ensures { IfSome result (λ board. IsShown board.value × (board.value.parts ≡ self.parts) × (board.value.trail ≡ self.trail)) }
    {
        let Publisher {
            held,
            mut owed,
            all,
            head: _,
            parts: _,
            trail,
        } = self;
        let Some(held) = held else { unreachable!() };
        let (held, all) = held.catch_up(rt, all, &mut owed, &trail);
        let board = held.end(rt);
        if all { Some(board) } else { None }
    }
}
