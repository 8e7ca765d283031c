//! The command line, as `clap` takes it.

ghost use Rattle.std.specs.Prelude.{◌≡◌, IfOk, false};
ghost use Rattle.clap.specs.Words.{app_of, rule_of};
ghost use Rattle.program_main.specs.Options.CommandLine.{clerks_rule, command_line, journal_rule};

use clap::{Arg, ArgAction, Command};
use std::alloc::{AllocError, Global};

// The most clerks that there may be: `most_clerks` of specs/.
const MOST_CLERKS: i64 = 64;

// The most entries that the journal may take.
const MOST_ENTRIES: i64 = 1_000_000;

// What the program is. `clap` breaks no lines, so they are broken here.
const ABOUT: &str = "The office of a court's clerk. It computes deadlines by Rule 6 of the Federal
Rules of Civil Procedure, and keeps a docket and the calendars of judges and
rooms.";

// What it reads and writes, and where that is described.
const FORMATS: &str =
    "It reads standard input: a court's file (the zone, the office's hours, the span
of days, holidays, judges and rooms), a line of %% alone, and rows, each of them
a command or a question of one clerk. It writes to standard output: an answer to
each row, then the docket sheets of the cases that are open, and each judge's
calendar.

    clerk_office < day.txt

Several clerks share one docket, each in a thread of its own. A clerk's rows are
done in the order in which they stand; between clerks that order doesn't count,
so that answers may differ from run to run. The journal has an entry for each
command that was finished; once it is full, the others aren't done. One clerk
alone needs no journal.

docs/FORMATS.md describes the court's file, the rows, the answers and what a run
ends with.";

fn clerks_argument<'a>(alloc: Global) -> Arg<'a>
    ensures rule { rule_of result ≡ clerks_rule }
    ensures local { result.global ≡ false }
{
    Arg::new(alloc, "clerks")
        .long("clerks")
        .action(ArgAction::Set)
        .value_name("N")
        .default_value("1")
        .value_parser(clap::value_parser!(u8).range(1..=MOST_CLERKS))
        .help("How many clerks there are, at most 64")
}

fn journal_argument<'a>(alloc: Global) -> Arg<'a>
    ensures rule { rule_of result ≡ journal_rule }
    ensures local { result.global ≡ false }
{
    Arg::new(alloc, "journal")
        .long("journal")
        .action(ArgAction::Set)
        .value_name("N")
        .default_value("100000")
        .value_parser(clap::value_parser!(u32).range(0..=MOST_ENTRIES))
        .help("How many entries the journal takes, at most 1000000")
}

/// The command line's definition, for one reading of words.
pub fn command<'a>(alloc: Global) -> Result<Command<'a>, AllocError>
    ensures { IfOk result (λ command. app_of command ≡ command_line) }
{
    Command::new(alloc, "clerk_office")
        .no_binary_name(true)
        .version("0.1.0")
        .about(ABOUT)
        .after_help(FORMATS)
        .arg(clerks_argument(alloc))?
        .arg(journal_argument(alloc))
}
