//! The words of the command line.

ghost use Rattle.std.specs.Prelude.{map, string_bytes};
ghost use Rattle.program_main.specs.Options.Words.{arguments_in};
ghost use Rattle.program_main.specs.Program.{AnswersWords};

use crate::options::{OptionsFault, argument_texts};
use crate::program::Program;
use std::alloc::Global;

// The report that the words choose, of which the first is the program's name.
pub(crate) fn report_behind<P: Program>(
    program: &P,
    alloc: Global,
    words: &[String],
) -> Result<P::Report, OptionsFault>
    ensures { AnswersWords P.faults P.takes P.is_chosen (arguments_in (map string_bytes words.now)) result }
{
    let texts = argument_texts(alloc, words)?;
    program.report(alloc, texts.as_slice())
}
