//! What a command reads, and what is decided on it.

ghost use Rattle.std.specs.Prelude.{◌≡◌, List};

use crate::answer::Answer;
use crate::part::{PartId, PartValue};
use std::marker::Model;

/// Parts with new values.
#[derive(Debug, Drop)]
pub struct Writes {
    list: Vec<(PartId, PartValue)>,
}

impl Model for Writes {
    ghost use Rattle.std.specs.Prelude.{List};
    ghost use Rattle.docket_rows.specs.declared.part.PartId.{PartId};
    ghost use Rattle.docket_rows.specs.declared.part.PartValue.{PartValue};

    ghost Value = { List (PartId × PartValue) };

    ghost view = { λ w. w.list.items };
}

impl Writes {
    /// The writes of the list, in its order.
    pub fn from_vec(list: Vec<(PartId, PartValue)>) -> Writes
        ensures { result ≡ list.items }
    {
        Writes { list }
    }

    /// The writes as a slice.
    pub fn as_slice(&self) -> &[(PartId, PartValue)]
        ensures { result.now ≡ self.now }
    {
        &self.list
    }

    /// The list itself.
    pub fn into_vec(self) -> Vec<(PartId, PartValue)>
        ensures { result.items ≡ self }
    {
        let Writes { list: writes } = self;
        writes
    }
}

/// What a command is answered, and what it writes. A refused command writes nothing.
#[derive(Debug, Drop)]
pub struct Decision {
    /// The answer.
    pub answer: Answer,
    /// The parts that it writes, each once.
    pub writes: Writes,
}
