//! All interleavings of clerks who share a docket.

ghost use Rattle.std.specs.Prelude.{◌≡◌, ℕ, true, IfOk, IfSome, All};
ghost use Rattle.docket_rows.specs.declared.part.PartId.{PartId};
ghost use Rattle.docket_rows.specs.Words.{AreLawful, setup_of, part_value, parts_of};
ghost use Rattle.versioned_steps.specs.Words.{AreOwn, IsDraftOf, IsRun, Replays, is_legal, opening_world, value_of, world_of};
ghost use Rattle.shared_docket.specs.DocketRules.{docket_rules};
ghost use Rattle.shared_docket.specs.Sequential.{IsLawfulAfter, IsSequential, rows_of};

use crate::parts::DocketParts;
use court_days::Court;
use docket_rows::Command;
use std::alloc::{AllocError, Global};
use versioned_steps::{Step, World, run_steps};

/// Makes these steps of the clerks who share the docket of this court, from the empty history on. An Err comes only
/// where there was no memory for the parts, the list of clerks or the list of outcomes. A step without memory has the
/// outcome NoMemory, and the next one is made.
#[tactic(auto, using(crate::proofs::SequentialLemmas::legal_sequential, crate::proofs::SequentialLemmas::legal_values, crate::proofs::SequentialLemmas::lawful_after_each))]
pub fn docket_steps(
    alloc: Global,
    court: &Court,
    clerks: u32,
    steps: &[Step<Command>],
) -> Result<World<DocketParts>, AllocError>
    // Outcomes, history and hands are a run of the world on these steps.
    ensures run { IfOk result (λ w. IsRun (docket_rules (setup_of court.now)) (opening_world clerks) steps.now w.outcomes.items (world_of w.history.items w.drafts.items)) }
    // The store has each part with its version and value after the history.
    ensures owner { IfOk result (λ w. w.store.owner ≡ setup_of court.now) }
    ensures store { IfOk result (λ w. Replays (docket_rules (setup_of court.now)) w.history.items w.store) }
    // What is in hand was read from the history, by the clerk who has it.
    ensures drafts { IfOk result (λ w. All (λ d. IfSome d (IsDraftOf (docket_rules (setup_of court.now)) w.history.items)) w.drafts.items) }
    ensures own { IfOk result (λ w. AreOwn w.drafts.items) }
    ensures legal { IfOk result (λ w. is_legal (docket_rules (setup_of court.now)) w.history.items ≡ true) }
    // Each answer is that of the docket of one clerk, who finishes the same commands in the same order.
    ensures answers { IfOk result (λ w. IsSequential (setup_of court.now) w.history.items) }
    // The parts are those of the rows after these commands.
    ensures parts { IfOk result (λ w. (part : PartId) → value_of (docket_rules (setup_of court.now)) w.history.items part ≡ part_value (parts_of (rows_of (setup_of court.now) w.history.items)) part) }
    // The rows are lawful.
    ensures lawful { IfOk result (λ w. AreLawful (setup_of court.now) (rows_of (setup_of court.now) w.history.items)) }
    // All that holds after each of the steps.
    ensures after_each { IfOk result (λ w. (made : ℕ) → IsLawfulAfter (setup_of court.now) clerks steps.now w.outcomes.items made) }
{
    run_steps(alloc, DocketParts::new(court)?, clerks, steps)
}
