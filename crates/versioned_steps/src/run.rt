//! All interleavings: a list of small steps of any clerks, one after another.
ghost use Rattle.std.specs.Prelude.{◌≡◌, true, IfOk, IfSome, All};
ghost use Rattle.versioned_steps.specs.History.{is_legal};
ghost use Rattle.versioned_steps.specs.Drafts.{IsDraftOf, AreOwn};
ghost use Rattle.versioned_steps.specs.Stores.{Replays};
ghost use Rattle.versioned_steps.specs.World.{IsRun, opening_world, world_of};

use crate::draft::Draft;
use crate::entry::Entry;
use crate::parted::Parted;
use crate::state::RunState;
use crate::step::{Outcome, Step};
use crate::store::Store;
use std::alloc::{AllocError, Allocator, Global};

/// What a list of steps led to: the store, the history, what each clerk has in hand, and one outcome per step.
#[derive(Drop)]
pub struct World<P: Parted, A: Allocator = Global> {
    pub store: Store<P, A>,
    pub history: Vec<Entry<P::Command, P::Answer>, A>,
    /// One for each clerk, from clerk 0 on; none where the clerk is idle.
    pub drafts: Vec<Option<Draft<P, A>>, A>,
    pub outcomes: Vec<Outcome<P::Part, P::Answer>, A>,
}

/// Makes these steps of the clerks, from the empty history on. An Err comes only where there was no memory for the list
/// of clerks or the list of outcomes. A step without memory has the outcome NoMemory, and the next one is made.
pub fn run_steps<P: Parted>(
    alloc: Global,
    parts: P,
    clerks: u32,
    steps: &[Step<P::Command>],
) -> Result<World<P>, AllocError>
    // Outcomes, history and hands are a run of the world on these steps.
    ensures run { IfOk result (λ w. IsRun (P.rules parts) (opening_world clerks) steps.now w.outcomes.items (world_of w.history.items w.drafts.items)) }
    // The store is of these parts, so that what it is asked is answered by their rules.
    ensures owner { IfOk result (λ w. w.store.owner ≡ parts) }
    // The store has each part with its version and value after the history.
    ensures store { IfOk result (λ w. Replays (P.rules parts) w.history.items w.store) }
    // What is in hand was read from the history, by the clerk who has it.
    ensures drafts { IfOk result (λ w. All (λ d. IfSome d (IsDraftOf (P.rules parts) w.history.items)) w.drafts.items) }
    ensures own { IfOk result (λ w. AreOwn w.drafts.items) }
    // Each entry's answer is the decision on the parts as the entries before it left them.
    ensures legal { IfOk result (λ w. is_legal (P.rules parts) w.history.items ≡ true) }
{
    run_steps_in(alloc, alloc, parts, clerks, steps)
}

/// `run_steps` with store, history, drafts and outcomes in memory of `heap`. The parts' own calls still take theirs of `alloc`.
pub fn run_steps_in<P: Parted, A: Allocator + Copy>(
    alloc: Global,
    heap: A,
    parts: P,
    clerks: u32,
    steps: &[Step<P::Command>],
) -> Result<World<P, A>, AllocError>
    ensures run { IfOk result (λ w. IsRun (P.rules parts) (opening_world clerks) steps.now w.outcomes.items (world_of w.history.items w.drafts.items)) }
    ensures owner { IfOk result (λ w. w.store.owner ≡ parts) }
    ensures store { IfOk result (λ w. Replays (P.rules parts) w.history.items w.store) }
    ensures drafts { IfOk result (λ w. All (λ d. IfSome d (IsDraftOf (P.rules parts) w.history.items)) w.drafts.items) }
    ensures own { IfOk result (λ w. AreOwn w.drafts.items) }
    ensures legal { IfOk result (λ w. is_legal (P.rules parts) w.history.items ≡ true) }
{
    let mut outcomes = Vec::with_capacity(heap, steps.len())?;
    let mut state = RunState::open(heap, parts, clerks)?;
    for step in steps {
        let outcome = state.make(alloc, step);
        outcomes.push_reserved(outcome);
    }
    Ok(state.close(outcomes))
}
