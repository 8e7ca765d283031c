//! The store, the history and the clerks' hands, as step after step is made.
ghost use Rattle.std.specs.Prelude.{◌≡◌, IfOk};
ghost use Rattle.versioned_steps.specs.declared.step.Step.TheVariants.{Begin, Read, Commit, Discard};
ghost use Rattle.versioned_steps.specs.World.{IsStep, opening_world, world_of};
ghost use Rattle.versioned_steps.specs.Moves.{IsSound};

use crate::draft::Draft;
use crate::entry::Entry;
use crate::moves;
use crate::parted::Parted;
use crate::run::World;
use crate::step::{Outcome, Step};
use crate::store::Store;
use std::alloc::{AllocError, Allocator, Global};
use std::marker::Model;

/// Store, history and hands of a run so far. The store stands for the history, and each draft was read from it by the
/// clerk who has it in hand.
#[derive(Drop)]
pub(crate) struct RunState<P: Parted, A: Allocator> {
    store: Store<P, A>,
    history: Vec<Entry<P::Command, P::Answer>, A>,
    drafts: Vec<Option<Draft<P, A>>, A>,
}

impl<P: Parted, A: Allocator> Model for RunState<P, A> {
    ghost use Rattle.versioned_steps.specs.World.{world_of};
    ghost use Rattle.versioned_steps.specs.Moves.{StateView, IsSound};

    ghost Value = { StateView P P.Part P.Value P.Command P.Answer };

    ghost view = { λ s. record { owner = s.store.owner; world = world_of s.history.items s.drafts.items } };

    ghost invariant = { λ s. IsSound (P.rules s.store.owner) s.history.items s.store s.drafts.items };
}

impl<P: Parted, A: Allocator + Copy> RunState<P, A> {
    /// No entry, and nobody has a command in hand.
    pub fn open(heap: A, parts: P, clerks: u32) -> Result<RunState<P, A>, AllocError>
        ensures { IfOk result (λ s. s ≡ record { owner = parts; world = opening_world clerks }) }
    {
        let mut drafts = Vec::with_capacity(heap, clerks as usize)?;
        for _clerk in 0..clerks {
            drafts.push_reserved(None);
        }
        Ok(RunState {
            store: Store::new(heap, parts),
            history: Vec::new(heap),
            drafts,
        })
    }

    // The clerk takes the command up.
    fn begin(
        &mut self,
        alloc: Global,
        clerk: u32,
        command: &P::Command,
    ) -> Outcome<P::Part, P::Answer>
        ensures owner { self.new.owner ≡ self.old.owner }
        ensures step { IsStep (P.rules self.old.owner) self.old.world (Begin clerk command.now) result self.new.world }
    {
        let heap = *self.history.allocator();
        let Some(place) = self.drafts.get_mut(clerk as usize) else {
            return Outcome::NoClerk;
        };
        moves::begin(alloc, heap, self.store.parts(), place, clerk, command)
    }

    // The clerk reads the next part.
    fn read(&mut self, alloc: Global, clerk: u32) -> Outcome<P::Part, P::Answer>
        ensures owner { self.new.owner ≡ self.old.owner }
        ensures step { IsStep (P.rules self.old.owner) self.old.world (Read clerk) result self.new.world }
    {
        let Some(place) = self.drafts.get_mut(clerk as usize) else {
            return Outcome::NoClerk;
        };
        moves::read(alloc, &self.store, place)
    }

    // The clerk's command is validated, decided and becomes an entry.
    fn commit(&mut self, alloc: Global, clerk: u32) -> Outcome<P::Part, P::Answer>
        ensures owner { self.new.owner ≡ self.old.owner }
        ensures step { IsStep (P.rules self.old.owner) self.old.world (Commit clerk) result self.new.world }
    {
        let Some(place) = self.drafts.get_mut(clerk as usize) else {
            return Outcome::NoClerk;
        };
        moves::commit(alloc, &mut self.store, &mut self.history, place, clerk)
    }

    // The clerk drops the command.
    fn discard(&mut self, clerk: u32) -> Outcome<P::Part, P::Answer>
        ensures owner { self.new.owner ≡ self.old.owner }
        ensures step { IsStep (P.rules self.old.owner) self.old.world (Discard clerk) result self.new.world }
    {
        let Some(place) = self.drafts.get_mut(clerk as usize) else {
            return Outcome::NoClerk;
        };
        moves::discard(place)
    }

    /// Makes one step.
    pub fn make(&mut self, alloc: Global, step: &Step<P::Command>) -> Outcome<P::Part, P::Answer>
        ensures owner { self.new.owner ≡ self.old.owner }
        ensures step { IsStep (P.rules self.old.owner) self.old.world step.now result self.new.world }
    {
        match step {
            Step::Begin(clerk, command) => self.begin(alloc, *clerk, command),
            Step::Read(clerk) => self.read(alloc, *clerk),
            Step::Commit(clerk) => self.commit(alloc, *clerk),
            Step::Discard(clerk) => self.discard(*clerk),
        }
    }

    /// The world, with the outcomes of the steps that led to it.
    pub fn close(self, outcomes: Vec<Outcome<P::Part, P::Answer>, A>) -> World<P, A>
        ensures owner { result.store.owner ≡ self.owner }
        ensures sound { IsSound (P.rules self.owner) result.history.items result.store result.drafts.items }
        ensures world { world_of result.history.items result.drafts.items ≡ self.world }
        ensures outcomes { result.outcomes ≡ outcomes }
    {
        let RunState {
            store,
            history,
            drafts,
        } = self;
        World {
            store,
            history,
            drafts,
            outcomes,
        }
    }
}
