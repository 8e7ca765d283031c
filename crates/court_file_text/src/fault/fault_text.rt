//! A text that a fault names.

ghost use Rattle.std.specs.Prelude.{◌≡◌, ℕ, List, Some, IfOk, string_bytes};

use std::alloc::{AllocError, Global};
use std::fmt;
use std::marker::Model;

/// A text of the court's file that a fault names, byte for byte.
#[derive(Debug, Drop)]
pub struct FaultText {
    text: String,
}

impl Model for FaultText {
    ghost Value = { List ℕ };

    ghost view = { λ t. string_bytes t.text };
}

impl FaultText {
    pub(crate) fn of(alloc: Global, text: &str) -> Result<FaultText, AllocError>
        ensures { IfOk result (λ t. t ≡ text.now) }
    {
        Ok(FaultText {
            text: String::from_str(alloc, text)?,
        })
    }

    /// The text.
    pub fn as_str(&self) -> &str
        ensures { result.now ≡ self.now }
    {
        self.text.as_str()
    }
}

/// Writes the text unchanged.
impl fmt::Display for FaultText {
    ghost output = { λ t. Some t };

    fn fmt<W: fmt::Write>(&self, f: &mut fmt::Formatter<W>) -> fmt::Result {
        f.write_str(self.text.as_str())
    }
}
