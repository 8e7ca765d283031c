//! A command in hand, with copies of the parts that it has read.
ghost use Rattle.std.specs.Prelude.{◌≡◌, [], ◌∷◌, ◌++◌, None, Some, OnOk, OnErr, length, option_map};
ghost use Rattle.versioned_steps.specs.Reads.{copies_of};
ghost use Rattle.versioned_steps.specs.Drafts.{decided, with_notes, decision_view};

use crate::decision::PartsDecision;
use crate::parted::Parted;
use std::alloc::{AllocError, Allocator, Global};
use std::marker::Model;

/// The numbers noted at a read: the part's version then, and the length of the history then.
#[derive(Clone, Copy, Debug, PartialEq, Eq)]
pub struct ReadNote {
    pub version: u64,
    pub at: u64,
}

/// A command of a clerk, the parts read for it so far, and its decision once it is settled. The parts are copied one by
/// one, and other commands may be finished in between. What was read is in memory of `A`.
#[derive(Drop)]
pub struct Draft<P: Parted, A: Allocator = Global> {
    clerk: u32,
    command: P::Command,
    copies: Vec<(P::Part, P::Value), A>,
    notes: Vec<ReadNote, A>,
    decision: Option<PartsDecision<P::Part, P::Value, P::Answer>>,
}

impl<P: Parted, A: Allocator> Model for Draft<P, A> {
    ghost use Rattle.std.specs.Prelude.{◌≡◌, vec_len, option_map};
    ghost use Rattle.versioned_steps.specs.Drafts.{DraftView, with_notes, decision_view};

    ghost Value = { DraftView P.Part P.Value P.Command P.Answer };

    ghost view = { λ d. record {
      clerk = d.clerk;
      command = d.command;
      reads = with_notes d.copies.items d.notes.items;
      decision = option_map decision_view d.decision;
    } };

    ghost invariant = { λ d. vec_len d.copies ≡ vec_len d.notes };
}

impl<P: Parted, A: Allocator + Copy> Draft<P, A> {
    /// A draft that has read nothing.
    pub fn begin(alloc: A, clerk: u32, command: P::Command) -> Draft<P, A>
        ensures { result ≡ record { clerk = clerk; command = command; reads = []; decision = None } }
    {
        Draft {
            clerk,
            command,
            copies: Vec::new(alloc),
            notes: Vec::new(alloc),
            decision: None,
        }
    }

    pub fn clerk(&self) -> u32
        ensures { result ≡ self.now.clerk }
    {
        self.clerk
    }

    pub fn command(&self) -> &P::Command
        ensures { result.now ≡ self.now.command }
    {
        &self.command
    }

    #[tactic(auto, using(crate::proofs::DraftLemmas::copies_of_noted))]
    /// What was read, in read order.
    pub fn copies(&self) -> &[(P::Part, P::Value)]
        ensures { result.now ≡ copies_of self.now.reads }
    {
        &self.copies
    }

    #[tactic(auto, using(crate::proofs::DraftLemmas::copies_of_noted, crate::proofs::DraftLemmas::length_with_notes))]
    /// The numbers noted at each read, in read order.
    pub fn notes(&self) -> &[ReadNote]
        ensures len { length result.now ≡ length self.now.reads }
        ensures reads { with_notes (copies_of self.now.reads) result.now ≡ self.now.reads }
    {
        &self.notes
    }

    /// The decision; none before the draft is settled.
    pub fn decision(&self) -> Option<&PartsDecision<P::Part, P::Value, P::Answer>>
        ensures { option_map (λ d. decision_view d.now) result ≡ self.now.decision }
    {
        self.decision.as_ref()
    }

    #[tactic(auto, using(crate::proofs::DraftLemmas::copies_of_noted))]
    /// The part to read next; none where all is read. It takes no memory.
    pub fn next(&self, parts: &P) -> Option<P::Part>
        ensures { result ≡ (P.rules parts.now).next_part self.now.command (copies_of self.now.reads) }
    {
        parts.next_part(&self.command, &self.copies)
    }

    #[tactic(auto, using(crate::proofs::DraftLemmas::with_notes_push))]
    /// Adds a read of the next part: its value and version, and the length of the history, all at one moment. A decision
    /// made before is dropped. An Err leaves the draft as it was.
    pub fn add(
        &mut self,
        parts: &P,
        part: P::Part,
        version: u64,
        at: u64,
        value: P::Value,
    ) -> Result<(), AllocError>
        requires { (P.rules parts.now).next_part self.old.command (copies_of self.old.reads) ≡ Some part }
        ensures ok { OnOk result (self.new ≡ record self.old {
          reads = self.old.reads ++ record { part = part; value = value; version = version; at = at } ∷ [];
          decision = None;
        }) }
        ensures err { OnErr result (self.new ≡ self.old) }
    {
        self.notes.reserve(1)?;
        self.copies.reserve(1)?;
        self.copies.push_reserved((part, value));
        self.notes.push_reserved(ReadNote { version, at });
        self.decision = None;
        Ok(())
    }

    #[tactic(auto, using(crate::proofs::DraftLemmas::copies_of_noted))]
    /// Decides on what was read. An Err leaves the draft as it was.
    pub fn settle(&mut self, alloc: Global, parts: &P) -> Result<(), AllocError>
        requires { (P.rules parts.now).next_part self.old.command (copies_of self.old.reads) ≡ None }
        ensures ok { OnOk result (self.new ≡ record self.old {
          decision = Some (decided (P.rules parts.now) self.old.command self.old.reads);
        }) }
        ensures err { OnErr result (self.new ≡ self.old) }
    {
        self.decision = Some(parts.decide(alloc, &self.command, &self.copies)?);
        Ok(())
    }
}
