//! The subcommands of what a folder keeps: `struck`, `cases`, `rows` and `log`.

ghost use Rattle.std.specs.Prelude.{IfOk};
ghost use Rattle.clap.specs.Words.{Text, found_of, rows_of};
ghost use Rattle.program_main.specs.Options.Words.{IsAnswerFor};
ghost use Rattle.program_words.specs.declared.subcommand.Subcommand.{Subcommand};
ghost use Rattle.program_words.specs.Task.{IsLog, IsTask, faults_given, log_faults};

use crate::as_of::as_of_in;
use crate::given::{both, has_flag};
use crate::task::{LogAsked, Task};
use crate::tasks::folder_in;
use crate::values::{case_if_given, name_if_given, row_if_given, said_if_given};
use clap::ArgMatches;
use court_clock::Instant;
use program_main::OptionsFault;
use std::alloc::Global;

/// The rows that are struck.
pub(crate) fn struck(
    alloc: Global,
    clock_time: Instant,
    given: &ArgMatches<'_>,
) -> Result<Task, OptionsFault>
    ensures task { (name : Text) → IfOk result (IsTask clock_time Subcommand.Struck name (rows_of (found_of given.now))) }
    ensures faults { IsAnswerFor (faults_given Subcommand.Struck (rows_of (found_of given.now))) result }
{
    let (folder, as_of) = both(folder_in(alloc, given), as_of_in(alloc, clock_time, given))?;
    Ok(Task::Struck(folder, as_of))
}

/// The cases that have names.
pub(crate) fn cases(
    alloc: Global,
    clock_time: Instant,
    given: &ArgMatches<'_>,
) -> Result<Task, OptionsFault>
    ensures task { (name : Text) → IfOk result (IsTask clock_time Subcommand.Cases name (rows_of (found_of given.now))) }
    ensures faults { IsAnswerFor (faults_given Subcommand.Cases (rows_of (found_of given.now))) result }
{
    let (folder, as_of) = both(folder_in(alloc, given), as_of_in(alloc, clock_time, given))?;
    Ok(Task::Cases(folder, as_of))
}

/// The rows.
pub(crate) fn rows(
    alloc: Global,
    clock_time: Instant,
    given: &ArgMatches<'_>,
) -> Result<Task, OptionsFault>
    ensures task { (name : Text) → IfOk result (IsTask clock_time Subcommand.Rows name (rows_of (found_of given.now))) }
    ensures faults { IsAnswerFor (faults_given Subcommand.Rows (rows_of (found_of given.now))) result }
{
    let (folder, as_of) = both(folder_in(alloc, given), as_of_in(alloc, clock_time, given))?;
    Ok(Task::Rows(folder, as_of))
}

/// Which entries are listed, at the clock's time.
fn log_asked(
    alloc: Global,
    clock_time: Instant,
    given: &ArgMatches<'_>,
) -> Result<LogAsked, OptionsFault>
    ensures asked { IfOk result (IsLog clock_time (rows_of (found_of given.now))) }
    ensures faults { IsAnswerFor (log_faults (rows_of (found_of given.now))) result }
{
    let rows = both(row_if_given(alloc, given), case_if_given(alloc, given));
    let which = both(rows, name_if_given(alloc, given));
    let days = both(
        said_if_given(alloc, given, "from"),
        said_if_given(alloc, given, "to"),
    );
    let (((row, case), by), (from, to)) = both(which, days)?;
    let json = has_flag(given, "json");
    Ok(LogAsked {
        row,
        case,
        by,
        from,
        to,
        clock_time,
        json,
    })
}

/// What was entered, at the clock's time.
pub(crate) fn log(
    alloc: Global,
    clock_time: Instant,
    given: &ArgMatches<'_>,
) -> Result<Task, OptionsFault>
    ensures task { (name : Text) → IfOk result (IsTask clock_time Subcommand.Log name (rows_of (found_of given.now))) }
    ensures faults { IsAnswerFor (faults_given Subcommand.Log (rows_of (found_of given.now))) result }
{
    let (folder, asked) = both(folder_in(alloc, given), log_asked(alloc, clock_time, given))?;
    Ok(Task::Log(folder, asked))
}
