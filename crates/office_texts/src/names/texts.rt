//! What a case was called.

ghost use Rattle.std.specs.Prelude.{OnOk};
ghost use Rattle.office_texts.specs.Words.{AddsText};
ghost use Rattle.office_texts.specs.Names.Called.{called_text};

use crate::names::called::CaseCalled;
use crate::push_number;
use std::alloc::AllocError;

/// Adds what a case was called. `Err` says that memory ran out.
pub fn push_called(text: &mut String, called: &CaseCalled) -> Result<(), AllocError>
    ensures { OnOk result (AddsText text.old text.new (called_text called.now)) }
{
    match called {
        CaseCalled::Number(number) => push_number(text, u64::from(*number)),
        CaseCalled::Name(name) => text.push_str(name.shown()),
    }
}
