//! What is kept of the answers to a clerk's rows.

ghost use Rattle.std.specs.Prelude.{◌≡◌, ◌++◌, ◌∷◌, [], List, OnOk};
ghost use Rattle.clerk_workers.specs.declared.answer.SharedReply.{SharedReply};

use crate::answer::SharedReply;
use clerk_seats::NamesOffice;
use std::alloc::AllocError;

/// What a clerk of the office that `L` names keeps of the answers to its rows, in its own thread.
pub trait Notes<L: NamesOffice>: Send + Drop {
    ghost hold: { Self → List SharedReply → Type 0 };

    /// Keeps the answer to the clerk's next row. `Err` says that memory ran out; the notes then serve for nothing.
    fn add(&mut self, answer: SharedReply) -> Result<(), AllocError>
        ensures { (answers : List SharedReply) → hold self.old answers → OnOk result (hold self.new (answers ++ answer ∷ [])) };
}

// The answers themselves.
impl<L: NamesOffice> Notes<L> for Vec<SharedReply> {
    ghost hold = { λ notes answers. notes.items ≡ answers };

    fn add(&mut self, answer: SharedReply) -> Result<(), AllocError> {
        self.push(answer)?;
        Ok(())
    }
}
