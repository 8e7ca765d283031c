//! What is written for a case.
ghost use Rattle.std.specs.Prelude.{◌≡◌, ◌++◌, OnOk, string_bytes};
ghost use Rattle.case_numbers.specs.Cases.{case_text};

use crate::cases::Cases;
use std::alloc::AllocError;
use std::fmt::Write;

/// Adds what a case is called: its name, or its number where it has none. `Err` says that memory ran out.
pub fn push_case_text(text: &mut String, cases: &Cases, number: u32) -> Result<(), AllocError>
    ensures { OnOk result (string_bytes text.new ≡ string_bytes text.old ++ case_text cases.now.named number) }
{
    match cases.name_of(number) {
        Some(name) => text.push_str(name),
        None => write!(text, "{number}"),
    }
}
