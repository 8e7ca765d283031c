//! Spaces up to the next column.

ghost use Rattle.std.specs.Prelude.{◌≡◌, ◌++◌, [], ◌∷◌, OnOk, replicate, string_bytes};

use std::alloc::AllocError;

/// How wide what happened is, with the spaces after it.
pub(crate) const WIDTH: usize = 50;

/// Adds this number of spaces. `Err` says that memory ran out.
pub fn push_spaces(text: &mut String, count: usize) -> Result<(), AllocError>
    ensures { OnOk result (string_bytes text.new ≡ string_bytes text.old ++ replicate count 32) }
{
    let mut left = count;
    while left > 0 {
        push_space(text)?;
        left -= 1;
    }
    Ok(())
}

/// Adds a space.
fn push_space(text: &mut String) -> Result<(), AllocError>
    ensures { OnOk result (string_bytes text.new ≡ string_bytes text.old ++ 32 ∷ []) }
{
    text.push_str(" ")
}
