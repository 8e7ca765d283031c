//! The cases that have names, written with their numbers.
ghost use Rattle.std.specs.Prelude.{◌≡◌, ◌++◌, false, OnOk, string_bytes};
ghost use Rattle.std.specs.Io.KnownBytes.{Appends};
ghost use Rattle.program_streams.specs.Words.{has_failed, watched};
ghost use Rattle.desk_program.specs.Cases.{case_line, cases_text};

use crate::faults::OutputFault;
use case_numbers::{Cases, NamedCase};
use program_streams::{Watched, write_all};
use std::alloc::{AllocError, Global};
use std::fmt::Write as AddsText;
use std::io::Write;

// Adds the line of a case.
fn push_case(text: &mut String, case: &NamedCase) -> Result<(), AllocError>
    ensures { OnOk result (string_bytes text.new ≡ string_bytes text.old ++ case_line case.now) }
{
    let number = case.number;
    write!(text, "{number} ")?;
    text.push_str(case.name.shown())?;
    text.push_str("\n")
}

// Adds a line for each case.
fn push_cases(text: &mut String, named: &[NamedCase]) -> Result<(), AllocError>
    ensures { OnOk result (string_bytes text.new ≡ string_bytes text.old ++ cases_text named.now) }
{
    for case in named {
        push_case(text, case)?;
    }
    Ok(())
}

/// Writes the number and the name of each case that has a name, in the order in which they were opened.
pub fn write_cases<W: Write>(
    alloc: Global,
    cases: &Cases,
    writer: &mut Watched<W>,
) -> Result<(), OutputFault>
    requires works { has_failed writer.old ≡ false }
    ensures written { OnOk result (Appends (W.contents (watched writer.old)) (W.contents (watched writer.new)) (cases_text cases.now.named)) }
{
    let mut text = String::new(alloc);
    push_cases(&mut text, cases.named())?;
    if write_all(writer, text.as_bytes()).is_err() {
        return Err(OutputFault::Write);
    }
    Ok(())
}
