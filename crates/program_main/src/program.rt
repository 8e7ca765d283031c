//! A program, as what its words choose.

ghost use Rattle.std.specs.Prelude.{◌≡◌, Bool, List, true, IfErr, IfOk};
ghost use Rattle.clap.specs.Walk.{texts};
ghost use Rattle.clap.specs.Words.{Kinds, Text};
ghost use Rattle.program_main.specs.Options.Words.{IsAnswerFor};

use crate::options::OptionsFault;
use program_runs::Report;
use std::alloc::Global;

/// A program: it reads the words of its command line, which choose what is written of a run.
pub trait Program {
    /// What is written of a run.
    type Report: Report + Drop;

    // The kinds of fault that words have: those that its command line doesn't take, and those that it takes and that say
    // nothing, as a day that is none.
    ghost faults: { List Text → Kinds };

    // Whether the program takes the words.
    ghost takes: { List Text → Bool };

    // Which reports the words choose.
    ghost is_chosen: { List Text → Self.Report → Type 0 };

    /// The report that the words choose, which are those after the program's name. BadWords where they have a mistake, Help
    /// where they ask for the help or the version first, and OutOfMemory where memory runs out.
    fn report(&self, alloc: Global, words: &[&str]) -> Result<Self::Report, OptionsFault>
        ensures chosen { IfOk result (λ report. is_chosen (texts words.now) report) }
        ensures faults { IsAnswerFor (faults (texts words.now)) result }
        ensures taken { takes (texts words.now) ≡ true → IfErr result (λ fault. fault ≡ OptionsFault.OutOfMemory) };
}
