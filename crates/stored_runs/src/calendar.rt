//! One stored run of a report.

ghost use Rattle.std.specs.Prelude.{◌≡◌, false};
ghost use Rattle.program_streams.specs.Words.{has_failed};

use crate::lines::input_of;
use crate::stored::push_name;
use crate::sums::push_sum;
use court_clock::Instant;
use program_main::OptionsFault;
use program_runs::{OfficeFault, Report, ended_by, missing, refused, run_report};
use program_streams::Watched;
use program_words::{Task, asked_of};
use std::alloc::{AllocError, Global};
use std::sync::Wait;
use std::thread::Threads;

// No clause says what is written; what is stored to be written shows it.

/// Adds the line `%%%% NAME WORD WORD ..`, and then what `docket` writes with these words and `--input -` for that
/// input, and what it writes of a fault. Where the input is made from that text, the sum of what it writes is added in its
/// place. The line is NAME with the words, each after a space. `Err` says that memory ran out.
pub fn push_calendar<H: Threads + Wait + Sync>(
    rt: &H,
    alloc: Global,
    output: &mut Vec<u8>,
    line: &str,
    text: &str,
    is_made: bool,
) -> Result<(), AllocError> {
    push_name(output, line)?;
    let mut writer = Watched::new(Vec::new(alloc));
    let mut errors = Watched::new(Vec::new(alloc));
    let status = if is_made {
        let input = input_of(alloc, text)?;
        report_run(rt, alloc, line, input.as_slice(), &mut writer, &mut errors)?
    } else {
        report_run(rt, alloc, line, text.as_bytes(), &mut writer, &mut errors)?
    };
    if is_made {
        push_sum(alloc, output, writer.inner().as_slice())?;
    } else {
        output.extend_from_slice(writer.inner().as_slice())?;
    }
    push_ending(alloc, output, status, errors.inner().as_slice())
}

// The status of a run with the words of that line.
fn report_run<H: Threads + Wait + Sync>(
    rt: &H,
    alloc: Global,
    line: &str,
    input: &[u8],
    writer: &mut Watched<Vec<u8>>,
    errors: &mut Watched<Vec<u8>>,
) -> Result<u8, AllocError>
    requires writer_works { has_failed writer.old ≡ false }
{
    let words = words_of(alloc, line)?;
    match asked_of(alloc, first_instant(), &words) {
        Ok(task) => Ok(task_run(rt, alloc, &task, input, writer, errors)),
        Err(OptionsFault::BadWords(text)) => Ok(refused(errors, text.as_str())),
        Err(_) => Ok(ended_by(alloc, errors, &OfficeFault::OutOfMemory)),
    }
}

// The status of a report or a memo. Other tasks are none of an input.
fn task_run<H: Threads + Wait + Sync>(
    rt: &H,
    alloc: Global,
    task: &Task,
    input: &[u8],
    writer: &mut Watched<Vec<u8>>,
    errors: &mut Watched<Vec<u8>>,
) -> u8
    requires writer_works { has_failed writer.old ≡ false }
{
    match task {
        Task::Report(_, asked) => run_of(rt, alloc, asked, input, writer, errors),
        Task::Memo(_, asked) => run_of(rt, alloc, asked, input, writer, errors),
        _ => refused(errors, "this is no report\n"),
    }
}

// The status of what is asked for of an input.
fn run_of<H: Threads + Wait + Sync, P: Report>(
    rt: &H,
    alloc: Global,
    asked: &P,
    input: &[u8],
    writer: &mut Watched<Vec<u8>>,
    errors: &mut Watched<Vec<u8>>,
) -> u8
    requires writer_works { has_failed writer.old ≡ false }
{
    let mut reader = Watched::new(input);
    match run_report(rt, alloc, &mut reader, writer, asked) {
        Ok(None) => 0,
        Ok(Some(line)) => missing(errors, line.as_str()),
        Err(fault) => ended_by(alloc, errors, &fault),
    }
}

// The first instant of 1970, which the clock shows in these runs.
pub(crate) fn first_instant() -> Instant {
    match Instant::new(0) {
        Some(instant) => instant,
        None => unreachable!(),
    }
}

// The words of the line after its name, and that the input is read as standard input is.
fn words_of<'a>(alloc: Global, line: &'a str) -> Result<Vec<&'a str>, AllocError> {
    let mut words = Vec::new(alloc);
    for word in line.split(' ').skip(1) {
        words.push(word)?;
    }
    words.push("--input")?;
    words.push("-")?;
    Ok(words)
}

// Adds how a run ended, where it isn't with status 0.
pub(crate) fn push_ending(
    alloc: Global,
    output: &mut Vec<u8>,
    status: u8,
    errors: &[u8],
) -> Result<(), AllocError> {
    if status == 0 {
        return Ok(());
    }
    let ending = format!(in alloc; "status {status}\n")?;
    output.extend_from_slice(ending.as_bytes())?;
    output.extend_from_slice(errors)
}
