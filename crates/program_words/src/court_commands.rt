//! The subcommands of a court's file, each with its help.

ghost use Rattle.std.specs.Prelude.{◌≡◌, codes, IfOk};
ghost use Rattle.clap.specs.Words.{app_of, new_app};
ghost use Rattle.program_words.specs.CommandLine.{change_line, check_line, court_line, update_line, with_hours, with_names, with_opening, with_own, with_taking, write_line};

use crate::command::bare;
use crate::folder_commands::{of_folder, with_wait};
use crate::options::{with_flag, with_place};
use clap::Command;
use program_main::{with_needed, with_subcommand, with_text};
use std::alloc::{AllocError, Global};

const COURT: &str = "Check a court's file, write one, or give a folder another or more years";

const COURT_MORE: &str = "Examples:
  docket court write --court new_york_southern --from 2025 --to 2027
  docket court check district.toml --today 2025-09-01
  docket court update cases --to 2029
  docket court change cases district.toml

'docket court check --help' says more of the first, and so of each.";

const CHECK: &str = "Say every fault of a court's file, and what may be wrong with it";

const CHECK_MORE: &str =
    "Each fault comes with its line and column, and with what to write in its place.
If there is none it says what may be wrong: federal holidays that the list lacks,
dates that are none, a day on which the President closed the government and of
which the file says nothing, a span that ends too early, and more.

The status is 0 if it finds nothing, 2 if the file has faults, and 9 if it has
none but something may be wrong.

Example:
  docket court check district.toml --today 2025-09-01";

const FILE: &str = "The court's file";

const TODAY: &str = "From which day the file is used, as 2025-09-01 (today)";

const CAPITAL: &str = "The court is in the capital's region, which has Inauguration Day";

const WRITE: &str = "Write a court's file, with its holidays";

const COURT_NAME: &str = "The court, by its name below";

const JUDGES: &str = "A file with the judges' names, one a line";

const ROOMS: &str = "A file with the rooms' names, one a line";

const OPENS: &str = "When the clerk's office opens (08:30)";

const CLOSES: &str = "When it closes (17:00)";

const EFILING_UNTIL: &str = "To when e-filing runs, by a local rule (midnight)";

const UPDATE: &str = "Add years to a folder's court's file, if no answer changes by it";

const UPDATE_MORE: &str =
    "It writes the days that are added: those that 'docket court write' lists for the
court after the file's last day. They come at the end of each list, and all else
in the file stays as the court has it. Then it writes the answers that would
change, and the file is taken if none does, or with --accept.

Example:
  docket court update cases --to 2029";

const LAST_YEAR: &str = "The last year";

const CHANGE: &str = "Give a folder another court's file, if no answer changes by it";

const CHANGE_MORE: &str =
    "It writes the answers that would change by the other file, and the deadlines and
hearings that would move. The file is taken if no answer changes, or with
--accept.

Example:
  docket court change cases district.toml";

const OTHER_FILE: &str = "The other court's file";

const ACCEPT: &str = "Take it though answers change";

/// The subcommand `court` of the whole command line, which says what may come after it.
pub(crate) fn court<'a>(alloc: Global) -> Command<'a>
    ensures { app_of result ≡ new_app (codes "court") }
{
    Command::new(alloc, "court")
        .about(COURT)
        .after_help(COURT_MORE)
}

/// The subcommand by which a court's file is checked.
fn check<'a>(alloc: Global) -> Result<Command<'a>, AllocError>
    ensures { IfOk result (λ command. app_of command ≡ check_line) }
{
    let command = Command::new(alloc, "check")
        .about(CHECK)
        .after_help(CHECK_MORE);
    let command = with_place(alloc, command, "file", "FILE", FILE)?;
    let command = with_text(alloc, command, "today", "DAY", TODAY)?;
    with_flag(alloc, command, "capital", CAPITAL)
}

/// The subcommand by which a court's file is written. Its help ends with the names of the courts.
fn write<'a>(alloc: Global, names: &'a str) -> Result<Command<'a>, AllocError>
    ensures { IfOk result (λ command. app_of command ≡ write_line) }
{
    let command = Command::new(alloc, "write").about(WRITE).after_help(names);
    let command = with_needed(alloc, command, "court", "NAME", COURT_NAME)?;
    let command = with_needed(alloc, command, "from", "YEAR", "The first year")?;
    let command = with_needed(alloc, command, "to", "YEAR", LAST_YEAR)?;
    with_own(alloc, command)
}

/// The command, which also takes the names and the hours that a court has of its own.
fn with_own<'a>(alloc: Global, command: Command<'a>) -> Result<Command<'a>, AllocError>
    ensures { IfOk result (λ whole. app_of whole ≡ with_own (app_of command.entry)) }
{
    let command = with_names(alloc, command)?;
    with_hours(alloc, command)
}

/// The command, which also takes a file with the names of judges, and one with those of rooms.
fn with_names<'a>(alloc: Global, command: Command<'a>) -> Result<Command<'a>, AllocError>
    ensures { IfOk result (λ whole. app_of whole ≡ with_names (app_of command.entry)) }
{
    let command = with_text(alloc, command, "judges", "FILE", JUDGES)?;
    with_text(alloc, command, "rooms", "FILE", ROOMS)
}

/// The command, which also takes from when to when the clerk's office is open.
fn with_opening<'a>(alloc: Global, command: Command<'a>) -> Result<Command<'a>, AllocError>
    ensures { IfOk result (λ whole. app_of whole ≡ with_opening (app_of command.entry)) }
{
    let command = with_text(alloc, command, "opens", "HH:MM", OPENS)?;
    with_text(alloc, command, "closes", "HH:MM", CLOSES)
}

/// The command, which also takes the hours of the clerk's office, and to when electronic filing runs.
fn with_hours<'a>(alloc: Global, command: Command<'a>) -> Result<Command<'a>, AllocError>
    ensures { IfOk result (λ whole. app_of whole ≡ with_hours (app_of command.entry)) }
{
    let command = with_opening(alloc, command)?;
    with_text(alloc, command, "efiling-until", "HH:MM", EFILING_UNTIL)
}

/// The command, which also takes whether a file is taken though answers differ, and how long to wait for others.
fn with_taking<'a>(alloc: Global, command: Command<'a>) -> Result<Command<'a>, AllocError>
    ensures { IfOk result (λ whole. app_of whole ≡ with_taking (app_of command.entry)) }
{
    let command = with_flag(alloc, command, "accept", ACCEPT)?;
    with_wait(alloc, command)
}

/// The subcommand by which years are added to a folder's court's file.
fn update<'a>(alloc: Global) -> Result<Command<'a>, AllocError>
    ensures { IfOk result (λ command. app_of command ≡ update_line) }
{
    let command = of_folder(alloc, "update", UPDATE, UPDATE_MORE)?;
    let command = with_needed(alloc, command, "to", "YEAR", LAST_YEAR)?;
    with_taking(alloc, command)
}

/// The subcommand by which a folder gets another court's file.
fn change<'a>(alloc: Global) -> Result<Command<'a>, AllocError>
    ensures { IfOk result (λ command. app_of command ≡ change_line) }
{
    let command = of_folder(alloc, "change", CHANGE, CHANGE_MORE)?;
    let command = with_place(alloc, command, "file", "FILE", OTHER_FILE)?;
    with_taking(alloc, command)
}

/// The command line after the word `court`. These are the names of the courts, a line each.
pub(crate) fn court_command<'a>(alloc: Global, names: &'a str) -> Result<Command<'a>, AllocError>
    ensures { IfOk result (λ command. app_of command ≡ court_line) }
{
    let bare = bare(alloc, "docket court", COURT, COURT_MORE)?;
    let check = with_subcommand(bare, check(alloc))?;
    let write = with_subcommand(check, write(alloc, names))?;
    let update = with_subcommand(write, update(alloc))?;
    with_subcommand(update, change(alloc))
}
