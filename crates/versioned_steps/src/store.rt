//! The parts as they are after a history, each with its version. The history itself isn't kept here.
ghost use Rattle.std.specs.Prelude.{◌≡◌, ◌+◌, ◌<◌, ◌^◌, [], ◌∷◌, ◌++◌, IfOk, IfSome, IfNone, OnOk, OnErr, IsSome, All, List, length, option_map, Some};
ghost use Rattle.versioned_steps.specs.declared.entry.Entry.{Entry};
ghost use Rattle.versioned_steps.specs.History.{value_of, version_of, writes_on};
ghost use Rattle.versioned_steps.specs.Reads.{first_stale, IsStale, IsFresh};
ghost use Rattle.versioned_steps.specs.Drafts.{MayCommit, IsReadAll, with_notes};
ghost use Rattle.versioned_steps.specs.Stores.{stored_of, Replays, IsStaged};

use crate::draft::{Draft, ReadNote};
use crate::found::{put_away, value_written};
use crate::parted::Parted;
use crate::stale::Stale;
use crate::stored::{Stored, StoredParts};
use std::alloc::{AllocError, Allocator, Global};
use std::marker::Model;

/// The writes of a command that is about to be finished, with all the memory that they need.
#[derive(Drop)]
pub struct Change<P: Parted, A: Allocator = Global> {
    place: u64,
    writes: Vec<(P::Part, P::Value), A>,
}

impl<P: Parted, A: Allocator> Model for Change<P, A> {
    ghost use Rattle.versioned_steps.specs.Stores.{ChangeView};

    ghost Value = { ChangeView P.Part P.Value };

    ghost view = { λ c. record { place = c.place; writes = c.writes.items } };
}

impl<P: Parted, A: Allocator> Change<P, A> {
    /// The place that the entry will have, from 1. It is the version of each part written.
    pub fn place(&self) -> u64
        ensures { result ≡ self.now.place }
    {
        self.place
    }

    pub fn writes(&self) -> &[(P::Part, P::Value)]
        ensures { result.now ≡ self.now.writes }
    {
        &self.writes
    }
}

/// The store, in memory of `A`. What the last entry wrote is kept as it came, since finishing takes no memory; staging
/// the next entry puts it among the older parts.
#[derive(Drop)]
pub struct Store<P: Parted, A: Allocator = Global> {
    parts: P,
    length: u64,
    recent: Vec<(P::Part, P::Value), A>,
    older: StoredParts<P::Part, P::Value, A>,
}

impl<P: Parted, A: Allocator> Model for Store<P, A> {
    ghost use Rattle.versioned_steps.specs.Stores.{StoreView};

    ghost Value = { StoreView P P.Part P.Value };

    ghost view = { λ s. record { owner = s.parts; length = s.length; recent = s.recent.items; older = s.older.entries } };
}

impl<P: Parted, A: Allocator + Copy> Store<P, A> {
    /// The store of the empty history. It takes no memory.
    pub fn new(alloc: A, parts: P) -> Store<P, A>
        ensures owner { result.owner ≡ parts }
        ensures opening { Replays (P.rules parts) [] result }
    {
        Store {
            parts,
            length: 0,
            recent: Vec::new(alloc),
            older: StoredParts::new(alloc),
        }
    }

    /// The rules that the store follows.
    pub fn parts(&self) -> &P
        ensures { result.now ≡ self.now.owner }
    {
        &self.parts
    }

    /// How many entries were finished.
    pub fn length(&self) -> u64
        ensures { result ≡ self.now.length }
    {
        self.length
    }

    // The version of a part: 0 where it was never written.
    fn version(&self, part: P::Part) -> u64
        ensures { result ≡ (stored_of (P.rules self.now.owner) self.now part).version }
    {
        match value_written(&self.recent, part) {
            Some(_) => self.length,
            None => match self.older.get(&part) {
                Some(stored) => stored.version,
                None => 0,
            },
        }
    }

    // A copy of the value of a part: its opening value where it was never written.
    fn value(&self, alloc: Global, part: P::Part) -> Result<P::Value, AllocError>
        ensures { IfOk result (λ value. value ≡ (stored_of (P.rules self.now.owner) self.now part).value) }
    {
        match value_written(&self.recent, part) {
            Some(value) => self.parts.copy_value(alloc, value),
            None => match self.older.get(&part) {
                Some(stored) => self.parts.copy_value(alloc, &stored.value),
                None => self.parts.opening(alloc, &part),
            },
        }
    }

    /// The version of a part and a copy of its value, as they are after the history.
    pub fn read(&self, alloc: Global, part: P::Part) -> Result<(u64, P::Value), AllocError>
        ensures version { (h : List (Entry P.Command P.Answer)) → Replays (P.rules self.now.owner) h self.now →
            IfOk result (λ x. x.0 ≡ version_of (P.rules self.now.owner) h part) }
        ensures value { (h : List (Entry P.Command P.Answer)) → Replays (P.rules self.now.owner) h self.now →
            IfOk result (λ x. x.1 ≡ value_of (P.rules self.now.owner) h part) }
    {
        let value = self.value(alloc, part)?;
        Ok((self.version(part), value))
    }

    /// A draft of this command with all that it reads, every part as it now is, and its decision. The command is spent, also
    /// where an Err comes.
    pub fn prepare(
        &self,
        alloc: Global,
        clerk: u32,
        command: P::Command,
    ) -> Result<Draft<P, A>, AllocError>
        ensures clerk { IfOk result (λ d. d.clerk ≡ clerk) }
        ensures command { IfOk result (λ d. d.command ≡ command) }
        ensures read { (h : List (Entry P.Command P.Answer)) → Replays (P.rules self.now.owner) h self.now →
            IfOk result (IsReadAll (P.rules self.now.owner) h) }
    {
        let mut draft = Draft::begin(*self.recent.allocator(), clerk, command);
        while let Some(part) = draft.next(&self.parts) {
            let (version, value) = self.read(alloc, part)?;
            draft.add(&self.parts, part, version, self.length, value)?;
        }
        draft.settle(alloc, &self.parts)?;
        Ok(draft)
    }

    // The first of these reads whose part has a version greater than the length at the read.
    fn first_stale(
        &self,
        copies: &[(P::Part, P::Value)],
        notes: &[ReadNote],
    ) -> Option<Stale<P::Part>>
        requires { length copies.now ≡ length notes.now }
        ensures { result ≡ first_stale (λ part. (stored_of (P.rules self.now.owner) self.now part).version) (with_notes copies.now notes.now) }
    {
        for (i, copy) in copies.iter().enumerate() {
            let version = self.version(copy.0);
            if notes[i].at < version {
                return Some(Stale {
                    part: copy.0,
                    version,
                });
            }
        }
        None
    }

    /// The first part in read order that an entry has touched since the draft read it, with its version now. None where
    /// every read is fresh. It needs the reads alone, and takes no memory.
    pub fn check(&self, draft: &Draft<P, A>) -> Option<Stale<P::Part>>
        ensures first { (h : List (Entry P.Command P.Answer)) → Replays (P.rules self.now.owner) h self.now →
            result ≡ first_stale (version_of (P.rules self.now.owner) h) draft.now.reads }
        ensures stale { (h : List (Entry P.Command P.Answer)) → Replays (P.rules self.now.owner) h self.now →
            IfSome result (λ s. IsStale (P.rules self.now.owner) h draft.now.reads s.part s.version) }
        ensures fresh { (h : List (Entry P.Command P.Answer)) → Replays (P.rules self.now.owner) h self.now →
            IfNone result (All (IsFresh (P.rules self.now.owner) h) draft.now.reads) }
    {
        self.first_stale(draft.copies(), draft.notes())
    }

    // Puts what the last entry wrote to the older parts.
    fn put_away(&mut self) -> Result<(), AllocError>
        ensures owner { self.new.owner ≡ self.old.owner }
        ensures length { self.new.length ≡ self.old.length }
        ensures kept { (h : List (Entry P.Command P.Answer)) → Replays (P.rules self.old.owner) h self.old → Replays (P.rules self.old.owner) h self.new }
        ensures ok { OnOk result (self.new.recent ≡ []) }
    {
        put_away(&mut self.recent, &mut self.older, self.length)
    }

    /// Takes all the memory that finishing a settled draft needs. The parts, their versions and the length stay, also
    /// after an Err.
    // A body that stages twice and drops the first change would meet this contract: it answers the same, since staging
    // leaves all that a change rests on.
    pub fn stage(&mut self, alloc: Global, draft: &Draft<P, A>) -> Result<Change<P, A>, AllocError>
        requires settled { IsSome draft.now.decision }
        requires room { self.old.length + 1 < 2 ^ 64 }
        ensures owner { self.new.owner ≡ self.old.owner }
        ensures length { self.new.length ≡ self.old.length }
        ensures kept { (h : List (Entry P.Command P.Answer)) → Replays (P.rules self.old.owner) h self.old → Replays (P.rules self.old.owner) h self.new }
        ensures staged { IfOk result (λ change. IsStaged self.new change) }
        ensures writes { IfOk result (λ change. option_map (λ d. d.writes) draft.now.decision ≡ Some change.writes) }
    {
        self.put_away()?;
        let heap = *self.recent.allocator();
        match draft.decision() {
            Some(decision) => Ok(Change {
                place: self.length + 1,
                writes: copy_writes(&self.parts, alloc, heap, &decision.writes)?,
            }),
            None => unreachable!(),
        }
    }

    /// Puts a staged change in place, as the next entry, and gives that entry's place. It takes no memory.
    pub fn finish(&mut self, change: Change<P, A>) -> u64
        requires { IsStaged self.old change }
        ensures owner { self.new.owner ≡ self.old.owner }
        ensures place { result ≡ self.old.length + 1 }
        ensures put { (h : List (Entry P.Command P.Answer)) (e : Entry P.Command P.Answer) → Replays (P.rules self.old.owner) h self.old →
            change.writes ≡ writes_on (P.rules self.old.owner) (value_of (P.rules self.old.owner) h) e.command →
            Replays (P.rules self.old.owner) (h ++ e ∷ []) self.new }
    {
        let Change { place, writes } = change;
        self.length = place;
        self.recent = writes;
        place
    }

    /// Stages and finishes a settled draft that `check` finds fresh, and gives its entry's place, from 1. An Err leaves
    /// the store as it was.
    pub fn apply(&mut self, alloc: Global, draft: &Draft<P, A>) -> Result<u64, AllocError>
        requires settled { IsSome draft.now.decision }
        requires room { self.old.length + 1 < 2 ^ 64 }
        ensures owner { self.new.owner ≡ self.old.owner }
        ensures place { IfOk result (λ place. place ≡ self.old.length + 1) }
        ensures finished { (h : List (Entry P.Command P.Answer)) (e : Entry P.Command P.Answer) → Replays (P.rules self.old.owner) h self.old →
            MayCommit (P.rules self.old.owner) h draft.now → e.command ≡ draft.now.command →
            OnOk result (Replays (P.rules self.old.owner) (h ++ e ∷ []) self.new) }
        ensures err { (h : List (Entry P.Command P.Answer)) → Replays (P.rules self.old.owner) h self.old →
            OnErr result (Replays (P.rules self.old.owner) h self.new) }
    {
        let change = self.stage(alloc, draft)?;
        Ok(self.finish(change))
    }
}

// A copy of these writes.
fn copy_writes<P: Parted, A: Allocator>(
    parts: &P,
    alloc: Global,
    heap: A,
    writes: &[(P::Part, P::Value)],
) -> Result<Vec<(P::Part, P::Value), A>, AllocError>
    ensures { IfOk result (λ copies. copies.items ≡ writes.now) }
{
    let mut copies = Vec::new(heap);
    for write in writes {
        let value = parts.copy_value(alloc, &write.1)?;
        copies.reserve(1)?;
        copies.push_reserved((write.0, value));
    }
    Ok(copies)
}
