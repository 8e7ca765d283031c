//! What takes lines and answers them.
ghost use Rattle.std.specs.Prelude.{◌≡◌, ℕ, List, IfOk, OnOk};
ghost use Rattle.desk_journal.specs.Words.{batch_of};
ghost use Rattle.desk_session.specs.Taken.{TakesLine};
ghost use Rattle.desk_session.specs.declared.outcome.Outcome.{Outcome as OutcomeOf};

use crate::outcome::Outcome;
use std::alloc::{AllocError, Global};

/// What takes lines and answers them, each by the entries that the lines before it have left in a journal.
pub trait Register {
    /// What it goes by, which no line changes.
    type Setup;

    // It is as these entries leave it.
    ghost stands: { Self.Setup → Self → (kept : List (List ℕ)) → Type 0 };

    // What a line leaves after these entries: entries, or none.
    ghost leaves: { Self.Setup → (kept : List (List ℕ)) → (line : List ℕ) → List (List ℕ) };

    // What a line is answered after these entries.
    ghost answers: { Self.Setup → (kept : List (List ℕ)) → (line : List ℕ) → List ℕ };

    // What comes of a line after these entries.
    ghost outcome: { Self.Setup → (kept : List (List ℕ)) → (line : List ℕ) → OutcomeOf };

    /// Takes a line, without its end: adds the entries that it leaves, if any, to the batch, and its answer to the text, and says
    /// what comes of it. `Err` says that memory ran out.
    fn take(
        &mut self,
        setup: &Self::Setup,
        alloc: Global,
        line: &[u8],
        batch: &mut Vec<Vec<u8>>,
        text: &mut Vec<u8>,
    ) -> Result<Outcome, AllocError>
        ensures taken { (kept : List (List ℕ)) → stands setup.now self.old kept → OnOk result
            (TakesLine (leaves setup.now) (answers setup.now) (stands setup.now self.new) kept line.now (batch_of batch.old.items) (batch_of batch.new.items) text.old.items text.new.items) }
        ensures came { (kept : List (List ℕ)) → stands setup.now self.old kept → IfOk result (λ came. came ≡ outcome setup.now kept line.now) };
}
