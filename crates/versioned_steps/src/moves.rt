//! What each step does to the draft in its clerk's hand.
ghost use Rattle.std.specs.Prelude.{◌≡◌, ℕ, ◌++◌, ◌∷◌, [], None, Some, IfSome, IfOk, OnErr, IsSome, List, length, option_map};
ghost use Rattle.versioned_steps.specs.declared.entry.Entry.{Entry};
ghost use Rattle.versioned_steps.specs.Drafts.{IsDraftOf};
ghost use Rattle.versioned_steps.specs.Stores.{Replays};
ghost use Rattle.versioned_steps.specs.World.{begin_move, read_move, commit_move, discard_move, hand_of};
ghost use Rattle.versioned_steps.specs.Moves.{Moves, IsReady, IsFinished};

use crate::draft::Draft;
use crate::entry::Entry;
use crate::parted::Parted;
use crate::step::Outcome;
use crate::store::Store;
use std::alloc::{AllocError, Allocator, Global};

/// The clerk takes the command up.
pub(crate) fn begin<P: Parted, A: Allocator + Copy>(
    alloc: Global,
    heap: A,
    parts: &P,
    place: &mut Option<Draft<P, A>>,
    clerk: u32,
    command: &P::Command,
) -> Outcome<P::Part, P::Answer>
    ensures moves { Moves (begin_move command.now (hand_of place.old)) (hand_of place.old) [] result (hand_of place.new) [] }
    ensures reads { (h : List (Entry P.Command P.Answer)) → IfSome place.old (IsDraftOf (P.rules parts.now) h) → IfSome place.new (IsDraftOf (P.rules parts.now) h) }
    ensures own { IfSome place.old (λ d. d.clerk ≡ clerk) → IfSome place.new (λ d. d.clerk ≡ clerk) }
{
    if place.is_some() {
        return Outcome::Busy;
    }
    match parts.copy_command(alloc, command) {
        Ok(command) => {
            *place = Some(Draft::begin(heap, clerk, command));
            Outcome::Began
        }
        Err(_) => Outcome::NoMemory,
    }
}

/// The next part is read as it now is.
pub(crate) fn read<P: Parted, A: Allocator + Copy>(
    alloc: Global,
    store: &Store<P, A>,
    place: &mut Option<Draft<P, A>>,
) -> Outcome<P::Part, P::Answer>
    ensures moves { (h : List (Entry P.Command P.Answer)) → Replays (P.rules store.now.owner) h store.now →
        Moves (read_move (P.rules store.now.owner) h (hand_of place.old)) (hand_of place.old) [] result (hand_of place.new) [] }
    ensures reads { (h : List (Entry P.Command P.Answer)) → Replays (P.rules store.now.owner) h store.now →
        IfSome place.old (IsDraftOf (P.rules store.now.owner) h) → IfSome place.new (IsDraftOf (P.rules store.now.owner) h) }
    ensures own { (clerk : ℕ) → IfSome place.old (λ d. d.clerk ≡ clerk) → IfSome place.new (λ d. d.clerk ≡ clerk) }
{
    let Some(draft) = place else {
        return Outcome::Idle;
    };
    let Some(part) = draft.next(store.parts()) else {
        return Outcome::Ready;
    };
    match store.read(alloc, part) {
        Ok((version, value)) => {
            match draft.add(store.parts(), part, version, store.length(), value) {
                Ok(()) => Outcome::ReadPart(part, version),
                Err(_) => Outcome::NoMemory,
            }
        }
        Err(_) => Outcome::NoMemory,
    }
}

/// The clerk drops the command.
pub(crate) fn discard<P: Parted, A: Allocator + Copy>(
    place: &mut Option<Draft<P, A>>,
) -> Outcome<P::Part, P::Answer>
    ensures moves { Moves (discard_move (hand_of place.old)) (hand_of place.old) [] result (hand_of place.new) [] }
    ensures none { place.new ≡ None }
{
    if place.is_none() {
        return Outcome::Idle;
    }
    *place = None;
    Outcome::Discarded
}

/// The command is decided, and becomes the next entry. An Err leaves the history and what was read.
fn finish<P: Parted, A: Allocator + Copy>(
    alloc: Global,
    store: &mut Store<P, A>,
    history: &mut Vec<Entry<P::Command, P::Answer>, A>,
    draft: &mut Draft<P, A>,
    clerk: u32,
) -> Result<(u64, P::Answer), AllocError>
    requires replays { Replays (P.rules store.old.owner) history.old.items store.old }
    requires ready { IsReady (P.rules store.old.owner) history.old.items draft.old }
    ensures owner { store.new.owner ≡ store.old.owner }
    ensures ok { IfOk result (λ x. IsFinished (P.rules store.old.owner) history.old.items clerk draft.old.command x.0 x.1 history.new.items) }
    ensures replays { Replays (P.rules store.old.owner) history.new.items store.new }
    ensures err { OnErr result (history.new.items ≡ history.old.items) }
    ensures hand { hand_of (Some draft.new) ≡ hand_of (Some draft.old) }
    ensures own { draft.new.clerk ≡ draft.old.clerk }
{
    draft.settle(alloc, store.parts())?;
    let entry = entry_of(alloc, store.parts(), draft, clerk)?;
    let answer = store.parts().copy_answer(alloc, &entry.answer)?;
    history.reserve(1)?;
    let place = store.apply(alloc, draft)?;
    history.push_reserved(entry);
    Ok((place, answer))
}

/// The entry that a settled draft becomes, of this clerk.
fn entry_of<P: Parted, A: Allocator + Copy>(
    alloc: Global,
    parts: &P,
    draft: &Draft<P, A>,
    clerk: u32,
) -> Result<Entry<P::Command, P::Answer>, AllocError>
    requires { IsSome draft.now.decision }
    ensures clerk { IfOk result (λ e. e.clerk ≡ clerk) }
    ensures command { IfOk result (λ e. e.command ≡ draft.now.command) }
    ensures answer { IfOk result (λ e. option_map (λ d. d.answer) draft.now.decision ≡ Some e.answer) }
{
    match draft.decision() {
        Some(decision) => Ok(Entry {
            clerk,
            command: parts.copy_command(alloc, draft.command())?,
            answer: parts.copy_answer(alloc, &decision.answer)?,
        }),
        None => unreachable!(),
    }
}

/// The reads are validated, and the command is decided and becomes the next entry.
pub(crate) fn commit<P: Parted, A: Allocator + Copy>(
    alloc: Global,
    store: &mut Store<P, A>,
    history: &mut Vec<Entry<P::Command, P::Answer>, A>,
    place: &mut Option<Draft<P, A>>,
    clerk: u32,
) -> Outcome<P::Part, P::Answer>
    requires replays { Replays (P.rules store.old.owner) history.old.items store.old }
    requires reads { IfSome place.old (IsDraftOf (P.rules store.old.owner) history.old.items) }
    ensures owner { store.new.owner ≡ store.old.owner }
    ensures moves { Moves (commit_move (P.rules store.old.owner) history.old.items clerk (hand_of place.old)) (hand_of place.old)
        history.old.items result (hand_of place.new) history.new.items }
    ensures replays { Replays (P.rules store.old.owner) history.new.items store.new }
    ensures reads { IfSome place.new (IsDraftOf (P.rules store.old.owner) history.new.items) }
    ensures own { IfSome place.old (λ d. d.clerk ≡ clerk) → IfSome place.new (λ d. d.clerk ≡ clerk) }
{
    let Some(draft) = place else {
        return Outcome::Idle;
    };
    if draft.next(store.parts()).is_some() {
        return Outcome::NotRead;
    }
    if let Some(stale) = store.check(draft) {
        *place = None;
        return Outcome::WasStale(stale.part, stale.version);
    }
    match finish(alloc, store, history, draft, clerk) {
        Ok((entry, answer)) => {
            *place = None;
            Outcome::Finished(entry, answer)
        }
        Err(_) => Outcome::NoMemory,
    }
}
