//! The subcommands of a court's file.

ghost use Rattle.std.specs.Prelude.{◌≡◌, IfOk, ℤ};
ghost use Rattle.clap.specs.Words.{Text, found_of, rows_of};
ghost use Rattle.program_main.specs.Options.Words.{IsAnswerFor};
ghost use Rattle.program_words.specs.declared.subcommand.Subcommand.{Subcommand};
ghost use Rattle.program_words.specs.Task.{IsTask, IsWriting, faults_given, writing_faults};

use crate::given::{both, has_flag, needed};
use crate::task::{Changing, Task, Updating, Writing};
use crate::tasks::folder_in;
use crate::values::{court_in, day_if_given, minute_if_given, text_if_given, wait_in, year_in};
use clap::ArgMatches;
use court_clock::Instant;
use court_file_check::Asked as CheckAsked;
use program_main::OptionsFault;
use std::alloc::Global;

/// A court's file that is checked, at the clock's time.
pub(crate) fn check(
    alloc: Global,
    clock_time: Instant,
    given: &ArgMatches<'_>,
) -> Result<Task, OptionsFault>
    ensures task { (name : Text) → IfOk result (IsTask clock_time Subcommand.CourtCheck name (rows_of (found_of given.now))) }
    ensures faults { IsAnswerFor (faults_given Subcommand.CourtCheck (rows_of (found_of given.now))) result }
{
    let (file, today) = both(
        needed(alloc, given, "file", "<FILE>"),
        day_if_given(alloc, given),
    )?;
    let capital = has_flag(given, "capital");
    let asked = CheckAsked {
        today,
        capital,
        state: None,
    };
    Ok(Task::CourtCheck(file, asked, clock_time))
}

/// What a court's file has that is written.
fn writing_in(alloc: Global, given: &ArgMatches<'_>) -> Result<Writing, OptionsFault>
    ensures writing { IfOk result (IsWriting (rows_of (found_of given.now))) }
    ensures faults { IsAnswerFor (writing_faults (rows_of (found_of given.now))) result }
{
    let years = both(
        year_in(alloc, given, "from", "--from <YEAR>"),
        year_in(alloc, given, "to", "--to <YEAR>"),
    );
    let hours = both(
        minute_if_given(alloc, given, "opens", "--opens <HH:MM>"),
        minute_if_given(alloc, given, "closes", "--closes <HH:MM>"),
    );
    let efiling_until = minute_if_given(alloc, given, "efiling-until", "--efiling-until <HH:MM>");
    let ((from, to), ((opens, closes), efiling_until)) = both(years, both(hours, efiling_until))?;
    Ok(Writing {
        from,
        to,
        opens,
        closes,
        efiling_until,
        judges: text_if_given(alloc, given, "judges")?,
        rooms: text_if_given(alloc, given, "rooms")?,
    })
}

/// A court's file that is written.
pub(crate) fn write(alloc: Global, given: &ArgMatches<'_>) -> Result<Task, OptionsFault>
    ensures task { (clock_time : ℤ) (name : Text) → IfOk result (IsTask clock_time Subcommand.CourtWrite name (rows_of (found_of given.now))) }
    ensures faults { IsAnswerFor (faults_given Subcommand.CourtWrite (rows_of (found_of given.now))) result }
{
    let (court, writing) = both(court_in(alloc, given), writing_in(alloc, given))?;
    Ok(Task::CourtWrite(court, writing))
}

/// Years that are added to a folder's court's file.
pub(crate) fn update(alloc: Global, given: &ArgMatches<'_>) -> Result<Task, OptionsFault>
    ensures task { (clock_time : ℤ) (name : Text) → IfOk result (IsTask clock_time Subcommand.CourtUpdate name (rows_of (found_of given.now))) }
    ensures faults { IsAnswerFor (faults_given Subcommand.CourtUpdate (rows_of (found_of given.now))) result }
{
    let which = both(
        folder_in(alloc, given),
        year_in(alloc, given, "to", "--to <YEAR>"),
    );
    let ((folder, to), wait) = both(which, wait_in(alloc, given))?;
    let accept = has_flag(given, "accept");
    Ok(Task::CourtUpdate(folder, Updating { to, accept, wait }))
}

/// Another court's file for a folder.
pub(crate) fn change(alloc: Global, given: &ArgMatches<'_>) -> Result<Task, OptionsFault>
    ensures task { (clock_time : ℤ) (name : Text) → IfOk result (IsTask clock_time Subcommand.CourtChange name (rows_of (found_of given.now))) }
    ensures faults { IsAnswerFor (faults_given Subcommand.CourtChange (rows_of (found_of given.now))) result }
{
    let which = both(
        folder_in(alloc, given),
        needed(alloc, given, "file", "<FILE>"),
    );
    let ((folder, file), wait) = both(which, wait_in(alloc, given))?;
    let accept = has_flag(given, "accept");
    let changing = Changing { file, accept, wait };
    Ok(Task::CourtChange(folder, changing))
}
