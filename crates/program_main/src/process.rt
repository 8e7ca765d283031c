//! A program over the words and the streams of its process.

ghost use Rattle.std.specs.Prelude.{◌≤◌};
ghost use Rattle.program_main.specs.Process.{ended_status};
ghost use Rattle.program_main.specs.Program.{NeverMiss};

use crate::options::arguments_of;
use crate::program::Program;
use crate::run::run_program;
use program_streams::Watched;
use std::io;
use std::io::Eprint;
use std::process::{ExitCode, Termination};
use std::sync::Wait;
use std::thread::Threads;

/// How a program ended. Only a run of it makes one, so that a `main` that returns it can't give another status.
#[derive(Debug, Drop)]
pub struct Ended {
    status: u8,
}

impl Termination for Ended {
    fn report<R: Eprint>(self, _rt: &R) -> ExitCode {
        ExitCode::from(self.status)
    }
}

// No contract says what a process is called with, or what its streams hold. The merge gate runs each program by this call,
// on words without which its rows are at fault and on an input that can't lose a byte unseen.

/// Runs the program on the process's own words and streams. `main` hands over its runtime twice, since only there can it
/// start threads.
pub fn run_on_process<H: Threads + Wait + Sync, P: Program>(
    rt: &HostRuntime,
    threads: &H,
    program: &P,
) -> Ended
    ensures known { ended_status result ≤ 6 }
    ensures never_missing { NeverMiss P.Report.is_missing → ended_status result ≤ 5 }
{
    let words = arguments_of(rt);
    let mut reader = Watched::new(rt.stdin());
    let mut writer = Watched::new(io::writer(rt));
    let mut errors = Watched::new(rt.stderr());
    let status = run_program(
        threads,
        rt.alloc(),
        program,
        words,
        &mut reader,
        &mut writer,
        &mut errors,
    );
    Ended { status }
}
