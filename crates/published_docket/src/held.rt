//! The writer of what is published, with the changes that readers don't see yet.

ghost use Rattle.std.specs.Prelude.{◌≡◌, ◌<◌, ◌++◌, ◌∷◌, [], None, Some, fold, IfOk, MatchBool, MatchResult, OnOk};
ghost use Rattle.left_right.specs.Sides.{view};
ghost use Rattle.published_docket.specs.declared.change.BoardChange.TheVariants.{Grow};
ghost use Rattle.published_docket.specs.Boards.{IsShown, known_of};
ghost use Rattle.published_docket.specs.Changes.{applied_to, puts_of};
ghost use Rattle.published_docket.specs.Inside.Held.{AllShown, ShownOrOwed, board_then};
ghost use Rattle.published_docket.specs.Published.{MayShow};

use crate::board::Board;
use crate::cells::cell_of;
use crate::change::BoardChange;
use crate::protocol::{DocketReader, DocketWriter, See, Told};
use crate::trail::Trail;
use docket_rows::{PartId, PartValue};
use left_right::writer::Writer;
use std::alloc::{AllocError, Global};
use std::marker::Model;
use std::mem::ManuallyDrop;
use std::sync::Wait;

/// The writer. Dropping it waits for no reader, and so gives up what is published; `end` gives it back.
pub struct Held {
    writer: DocketWriter,
}

impl Model for Held {
    ghost use Rattle.std.specs.Prelude.{drop};
    ghost use Rattle.left_right.specs.Sides.{view as known_by};
    ghost use Rattle.published_docket.specs.Boards.{IsShown};
    ghost use Rattle.published_docket.specs.Inside.Held.{HeldView};

    ghost Value = { HeldView };

    ghost view = { λ h. record { shown = h.writer.desk.shown.value; pending = drop h.writer.behind h.writer.log.items; known = known_by h.writer.desk.place } };

    ghost invariant = { λ h. IsShown h.writer.desk.shown.value };
}

impl Drop for Held {
    fn drop(self) {
        let Held { writer } = self;
        let _left = unsafe { ManuallyDrop::new_unchecked(writer) };
    }
}

impl Held {
    /// A writer for this number of readers. `Err` says that memory ran out.
    pub(crate) fn new(
        alloc: Global,
        first: Board,
        second: Board,
        readers: u8,
    ) -> Result<Held, AllocError>
        requires readers { 0 < readers }
        requires alike { second ≡ first }
        requires shown { IsShown first }
        ensures { IfOk result (λ h. h ≡ record { shown = first; pending = []; known = None }) }
    {
        let writer = Writer::new(alloc, first, second, usize::from(readers))?;
        Ok(Held { writer })
    }

    // Adds a change that readers don't see yet. It comes back where memory ran out.
    fn append(&mut self, change: BoardChange) -> Result<(), BoardChange>
        ensures { MatchResult result (λ _. self.new ≡ record self.old { pending = self.old.pending ++ change ∷ [] }) (λ c. (c ≡ change) × (self.new ≡ self.old)) }
    {
        self.writer.append(change)
    }

    // Adds that the history went on as far as this. `Err` says that memory ran out.
    fn grow(&mut self, trail: &Trail) -> Result<(), AllocError>
        ensures { MatchResult result (λ _. self.new ≡ record self.old { pending = self.old.pending ++ Grow trail.now ∷ [] }) (λ _. self.new ≡ self.old) }
    {
        match self.append(BoardChange::Grow(trail.again())) {
            Ok(()) => Ok(()),
            Err(_) => Err(AllocError),
        }
    }

    // Adds the changes by which the parts written have this version, the last of them first. `Err` says that memory ran
    // out; the writes that are left weren't added.
    fn write(
        &mut self,
        writes: &mut Vec<(PartId, PartValue)>,
        version: u64,
    ) -> Result<(), AllocError>
        ensures shown { self.new.shown ≡ self.old.shown }
        ensures pending { self.new.pending ++ puts_of version writes.new.items ≡ self.old.pending ++ puts_of version writes.old.items }
        ensures all { OnOk result (writes.new.items ≡ []) }
    {
        while let Some(write) = writes.pop() {
            let (part, value) = write;
            match self.append(BoardChange::Put(cell_of(part), version, value)) {
                Ok(()) => {}
                Err(BoardChange::Put(_, _, value)) => {
                    writes.push_reserved((part, value));
                    return Err(AllocError);
                }
                Err(BoardChange::Grow(_)) => unreachable!(),
            }
        }
        Ok(())
    }

    // Adds all changes of an entry: the parts written, and that the history went on. `Err` says that memory ran out.
    // What is left of the writes wasn't added then, nor perhaps that the history went on.
    fn queue(
        &mut self,
        owed: &mut Vec<(PartId, PartValue)>,
        trail: &Trail,
    ) -> Result<(), AllocError>
        ensures shown { self.new.shown ≡ self.old.shown }
        ensures same { board_then self.new owed.new.items trail.now ≡ board_then self.old owed.old.items trail.now }
        ensures all { OnOk result (fold applied_to self.new.shown self.new.pending ≡ board_then self.old owed.old.items trail.now) }
        ensures none { OnOk result (owed.new.items ≡ []) }
    {
        self.write(owed, trail.len())?;
        self.grow(trail)
    }

    // Shows readers all changes at once, or none where one of them couldn't be made.
    fn publish<R: Wait>(self, rt: &R) -> (Held, bool)
        requires { MayShow self.shown (fold applied_to self.shown self.pending) }
        ensures { MatchBool result.1
            (result.0 ≡ record { shown = fold applied_to self.shown self.pending; pending = []; known = Some (known_of (fold applied_to self.shown self.pending)) })
            (result.0 ≡ self) }
    {
        let Held { writer } = self;
        let (writer, done) = writer.publish_as::<See, R>(rt);
        (Held { writer }, done.is_ok())
    }

    /// Shows readers the history as far as this, with these writes of its last entry, and says whether they see all of it.
    /// Where memory runs out they see what they saw, and what is left stays owed.
    pub(crate) fn show<R: Wait>(
        self,
        rt: &R,
        owed: &mut Vec<(PartId, PartValue)>,
        trail: &Trail,
    ) -> (Held, bool)
        requires { MayShow self.shown (board_then self owed.old.items trail.now) }
        ensures parts { result.0.shown.parts ≡ self.shown.parts }
        ensures shows { ShownOrOwed result.1 result.0 owed.new.items trail.now }
    {
        let mut held = self;
        let Ok(()) = held.queue(owed, trail) else {
            return (held, false);
        };
        held.publish(rt)
    }

    /// Shows readers what they don't see yet, if there is anything, and says whether they then see all.
    pub(crate) fn catch_up<R: Wait>(
        self,
        rt: &R,
        all: bool,
        owed: &mut Vec<(PartId, PartValue)>,
        trail: &Trail,
    ) -> (Held, bool)
        requires { ShownOrOwed all self owed.old.items trail.now }
        ensures parts { result.0.shown.parts ≡ self.shown.parts }
        ensures shows { ShownOrOwed result.1 result.0 owed.new.items trail.now }
    {
        if all {
            return (self, true);
        }
        self.show(rt, owed, trail)
    }

    // Adds this number of changes that change nothing. `Err` says that memory ran out.
    #[tactic(auto, using(crate::proofs::ChangeLemmas::fill_more))]
    fn fill(&mut self, trail: &Trail, count: u32) -> Result<(), AllocError>
        requires { trail.now ≡ self.old.shown.trail }
        ensures shown { self.new.shown ≡ self.old.shown }
        ensures same { fold applied_to self.old.shown self.old.pending ≡ self.old.shown → fold applied_to self.old.shown self.new.pending ≡ self.old.shown }
    {
        for _count in 0..count {
            self.grow(trail)?;
        }
        Ok(())
    }

    /// Takes the memory for this number of changes at once, and says whether there was enough. Readers see nothing new.
    /// The changes are shown twice, so that both copies have taken them.
    pub(crate) fn warm<R: Wait>(
        self,
        rt: &R,
        owed: &mut Vec<(PartId, PartValue)>,
        trail: &Trail,
        count: u32,
    ) -> (Held, bool)
        requires { AllShown self owed.old.items trail.now }
        ensures parts { result.0.shown.parts ≡ self.shown.parts }
        ensures shows { ShownOrOwed result.1 result.0 owed.new.items trail.now }
    {
        let mut held = self;
        if held.fill(trail, count).is_err() {
            return (held, false);
        }
        let (held, _once) = held.show(rt, owed, trail);
        held.show(rt, owed, trail)
    }

    /// A reader that knows what the writer knows. `Err` says that there are as many readers as can be, or that memory
    /// ran out.
    pub(crate) fn greet(&mut self) -> Result<DocketReader, AllocError>
        ensures kept { self.new ≡ self.old }
        ensures known { IfOk result (λ r. view r.place ≡ self.old.known) }
    {
        let mut reader = self.writer.factory().reader()?;
        reader.learn::<Told>(self.writer.tell::<Told>());
        Ok(reader)
    }

    /// Waits for the readers, and gives what they were shown last.
    pub(crate) fn end<R: Wait>(self, rt: &R) -> Box<Board>
        ensures value { result.value ≡ self.shown }
        ensures shown { IsShown result.value }
    {
        let Held { writer } = self;
        writer.take(rt)
    }
}
