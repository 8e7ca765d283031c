//! The text of an input.

ghost use Rattle.program_runs.specs.Division.{court_part};
ghost use Rattle.program_runs.specs.Office.{AnswersInput, input_of};
ghost use Rattle.program_runs.specs.Report.{IsFinding};

use crate::checking::check_input;
use crate::division::divide;
use crate::fault::OfficeFault;
use crate::report::{Finding, Report};
use std::alloc::Global;
use std::sync::Wait;
use std::thread::Threads;

// What the report finds of an input.
pub(crate) fn text_of<H: Threads + Wait + Sync, P: Report>(
    rt: &H,
    alloc: Global,
    input: &[u8],
    report: &P,
) -> Result<Finding<P::Text>, OfficeFault>
    ensures { AnswersInput (λ said. IsFinding P.Text.bytes (P.is_text report.now (court_part input.now) said) (P.is_missing report.now (court_part input.now) said)) result (input_of (P.clerk_count report.now) input.now) }
{
    let checked = check_input(rt, alloc, input, report.clerks(), report.readers())?;
    match report.text(rt, alloc, divide(input).0, checked) {
        Ok(found) => Ok(found),
        Err(_) => Err(OfficeFault::OutOfMemory),
    }
}
