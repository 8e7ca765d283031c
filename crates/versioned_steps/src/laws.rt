//! Laws of the definitions, each the contract of a function that does nothing.
ghost use Rattle.std.specs.Prelude.{◌≡◌, ℕ, true, None, [], ◌<◌, ◌≤◌, List, length};
ghost use Rattle.versioned_steps.specs.declared.entry.Entry.{Entry};
ghost use Rattle.versioned_steps.specs.declared.step.Step.{Step};
ghost use Rattle.versioned_steps.specs.declared.step.Outcome.{Outcome};
ghost use Rattle.versioned_steps.specs.Finished.{entered, finishes};
ghost use Rattle.versioned_steps.specs.History.{is_legal, version_of, TouchesAt, IsLastTouch};
ghost use Rattle.versioned_steps.specs.Reads.{Read, IsFresh};
ghost use Rattle.versioned_steps.specs.World.{World, IsRun, opening_world};
ghost use Rattle.versioned_steps.specs.Inside.Serial.{IsSerial};

use crate::parted::Parted;

/// Every legal history is a serial one: its commands in order, each decided alone, give the same answers and the same
/// parts. Whatever clerks finish in a run from a legal history on is legal; the empty history is legal.
pub fn serial_history<P: Parted>()
    ensures legal { (parts : P) (history : List (Entry P.Command P.Answer)) → is_legal (P.rules parts) history ≡ true → IsSerial (P.rules parts) history }
    ensures run { (parts : P) (before after : World P.Part P.Value P.Command P.Answer) (steps : List (Step P.Command)) (outcomes : List (Outcome P.Part P.Answer)) →
        is_legal (P.rules parts) before.history ≡ true → IsRun (P.rules parts) before steps outcomes after → is_legal (P.rules parts) after.history ≡ true }
    ensures empty { (parts : P) → is_legal (P.rules parts) [] ≡ true }
{}

/// The version of a part is the place of the last entry that touches it, and 0 where none does.
pub fn versions_are_last_touches<P: Parted>()
    ensures { (parts : P) (history : List (Entry P.Command P.Answer)) (part : P.Part) →
        IsLastTouch (P.rules parts) history part (version_of (P.rules parts) history part) }
{}

/// A read is fresh exactly where no entry placed after it touches its part.
pub fn fresh_means_untouched<P: Parted>()
    ensures fresh { (parts : P) (history : List (Entry P.Command P.Answer)) (x : Read P.Part P.Value) →
        IsFresh (P.rules parts) history x →
        (later : ℕ) → x.at < later → later ≤ length history → TouchesAt (P.rules parts) history later x.part → ⊥ }
    ensures untouched { (parts : P) (history : List (Entry P.Command P.Answer)) (x : Read P.Part P.Value) →
        ((later : ℕ) → x.at < later → later ≤ length history → TouchesAt (P.rules parts) history later x.part → ⊥) →
        IsFresh (P.rules parts) history x }
{}

/// Each finished command is one entry of the history, and there are no other entries: the steps that were answered
/// Finished are, in their order, its entries at the places 1, 2, 3 and so on. Each entry has the step's clerk, the
/// command that this clerk began last, the place that was answered and the answer. So no two steps are answered one
/// place.
pub fn finished_commands_stand_once<P: Parted>()
    ensures { (parts : P) (clerks : ℕ) (steps : List (Step P.Command)) (outcomes : List (Outcome P.Part P.Answer)) (after : World P.Part P.Value P.Command P.Answer) →
        IsRun (P.rules parts) (opening_world clerks) steps outcomes after → finishes (λ _. None) steps outcomes ≡ entered 1 after.history }
{}
