//! The clerk's program.

ghost use Rattle.std.specs.Prelude.{◌≤◌};
ghost use Rattle.program_main.specs.Process.{ended_status};

use crate::answers::Answers;
use program_main::{Ended, OptionsFault, Program, options_of, run_on_process};
use std::alloc::Global;
use std::sync::Wait;
use std::thread::Threads;

/// The program `clerk_office`: its words say how many clerks there are, and how many entries their journal takes.
#[derive(Clone, Copy, Debug)]
pub struct ClerkOffice;

impl Program for ClerkOffice {
    ghost use Rattle.clap.specs.Words.{fault_of, takes};
    ghost use Rattle.program_main.specs.Options.Words.{command_line};
    ghost use Rattle.clerk_program.specs.Choice.{Give};

    type Report = Answers;

    ghost faults = { fault_of command_line };

    ghost takes = { takes command_line };

    ghost is_chosen = { λ words answers. Give words answers.options.clerks answers.options.journal };

    fn report(&self, alloc: Global, words: &[&str]) -> Result<Answers, OptionsFault> {
        let options = options_of(alloc, words)?;
        Ok(Answers { options })
    }
}

/// Runs the program on the process's own words and streams. It has a text of each input, so it never ends with the status of what
/// isn't there.
pub fn run_clerk_office<H: Threads + Wait + Sync>(rt: &HostRuntime, threads: &H) -> Ended
    ensures { ended_status result ≤ 5 }
{
    run_on_process(rt, threads, &ClerkOffice)
}
