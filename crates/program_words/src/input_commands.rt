//! The subcommands that read lines of standard input, each with its help.

ghost use Rattle.std.specs.Prelude.{◌≡◌, codes, IfOk};
ghost use Rattle.clap.specs.Words.{app_of};
ghost use Rattle.program_words.specs.CommandLine.{ask_line, enter_line, lines_line, plain_line, rows_line, with_style};

use crate::folder_commands::{of_folder, with_as_of, with_wait};
use crate::options::with_flag;
use clap::Command;
use program_main::with_text;
use std::alloc::{AllocError, Global};

const AS_WRITTEN: &str = "Take lines as people and spreadsheets write them";

const DATES: &str = "With --as-written: month-first or day-first, for 9/2/2025";

const JSON: &str = "With --as-written: write faults of lines as JSON";

const CLERK: &str = "Rows begin with their command, and are all of this clerk";

const WARN: &str = "Keep no row that draws a warning";

const WARN_DAY: &str = "With --warn: the day that counts as today, as 2025-09-15";

const TOGETHER: &str = "Keep all rows, or none if one is wrong or refused";

const KEEP_REFUSED: &str = "With --all-or-nothing: keep them also if commands are refused";

const ENTER: &str = "Keep rows, and answer each";

const ENTER_MORE: &str =
    "Rows are lines of standard input. A row is kept in the folder's journal, through
any crash, before it is answered. A line with a fault is answered with what is
wrong, and isn't kept.

Several programs may enter rows into one folder at the same time. Each row is
decided on all that was kept before it, so row numbers have gaps where others
entered rows.

With --clerk 7, or DOCKET_CLERK=7 in the environment, rows name no clerk and begin
with their command: all are clerk 7's.

With --as-written all lines are read first, and if one has a fault none is kept.
With --warn a row that draws a warning, such as an event before its case was
filed, is answered with it and isn't kept, unless '!' stands before it.
With --all-or-nothing the rows are kept only if no line has a fault, no row is
held back and no command would be refused; with --keep-refused also if commands
would be.

Example:
  docket enter cases --as-written --all-or-nothing < list.csv";

const TRY: &str = "Answer rows as 'enter' would, and keep none";

const TRY_MORE: &str = "Rows are lines of standard input. Another program may enter rows meanwhile.

Example:
  docket try cases --warn < rows.csv";

const ASK: &str = "Answer questions";

const ASK_MORE: &str =
    "Questions are lines of standard input. Another program may enter rows meanwhile.
With --as-of the answers are those that the docket gave then: after that row, or
at the end of that day, minute or second by the court's clock. DAY is a date, as
2025-09-15, or today, yesterday, or so many days from today, as (with =) -3d.
TIME is a date and a time, as 2025-09-15T14:05 or 2025-09-15T14:05:09. Of a time
that the clock shows twice, as it is set back, it is the first; and one that it
jumps over, as it is set ahead, is as much later.

Examples:
  echo '1,sheet,7' | docket ask cases
  echo '1,sheet,7' | docket ask cases --as-of 2025-09-15
  echo '1,sheet,7' | docket ask cases --as-of 2025-09-15T14:05";

const PLAIN: &str = "Write the plain rows that lines are as people write them";

const PLAIN_MORE: &str =
    "Lines come from standard input. Nothing is kept. If a line has a fault, no row is
written, and all faults go to standard error.

Example:
  docket plain cases --dates day-first < list.csv > rows.csv";

const PLAIN_DATES: &str = "month-first or day-first, for 9/2/2025";

const PLAIN_JSON: &str = "Write faults of lines as JSON";

/// The command, which also takes how lines are written that people write.
fn with_style<'a>(
    alloc: Global,
    command: Command<'a>,
    dates: &'a str,
    json: &'a str,
) -> Result<Command<'a>, AllocError>
    ensures { IfOk result (λ whole. app_of whole ≡ with_style (app_of command.entry)) }
{
    let command = with_text(alloc, command, "dates", "ORDER", dates)?;
    with_flag(alloc, command, "json", json)
}

/// A subcommand of that name, which takes a folder, and how its lines are read.
fn of_lines<'a>(
    alloc: Global,
    name: &'a str,
    about: &'a str,
    more: &'a str,
) -> Result<Command<'a>, AllocError>
    ensures { IfOk result (λ command. app_of command ≡ lines_line name.now) }
{
    let command = of_folder(alloc, name, about, more)?;
    let command = with_flag(alloc, command, "as-written", AS_WRITTEN)?;
    let command = with_style(alloc, command, DATES, JSON)?;
    with_text(alloc, command, "clerk", "N", CLERK)
}

/// A subcommand of that name, which takes a folder, how its lines are read, and whether rows are held back.
fn of_rows<'a>(
    alloc: Global,
    name: &'a str,
    about: &'a str,
    more: &'a str,
) -> Result<Command<'a>, AllocError>
    ensures { IfOk result (λ command. app_of command ≡ rows_line name.now) }
{
    let command = of_lines(alloc, name, about, more)?;
    let command = with_flag(alloc, command, "warn", WARN)?;
    with_text(alloc, command, "today", "DAY", WARN_DAY)
}

/// The subcommand by which rows are kept, which also takes which of them are, and how long to wait for others.
pub(crate) fn enter<'a>(alloc: Global) -> Result<Command<'a>, AllocError>
    ensures { IfOk result (λ command. app_of command ≡ enter_line) }
{
    let command = of_rows(alloc, "enter", ENTER, ENTER_MORE)?;
    let command = with_flag(alloc, command, "all-or-nothing", TOGETHER)?;
    let command = with_flag(alloc, command, "keep-refused", KEEP_REFUSED)?;
    with_wait(alloc, command)
}

/// The subcommand by which rows are answered and not kept.
pub(crate) fn trial<'a>(alloc: Global) -> Result<Command<'a>, AllocError>
    ensures { IfOk result (λ command. app_of command ≡ rows_line (codes "try")) }
{
    of_rows(alloc, "try", TRY, TRY_MORE)
}

/// The subcommand by which questions are answered.
pub(crate) fn ask<'a>(alloc: Global) -> Result<Command<'a>, AllocError>
    ensures { IfOk result (λ command. app_of command ≡ ask_line) }
{
    with_as_of(alloc, of_lines(alloc, "ask", ASK, ASK_MORE)?)
}

/// The subcommand by which lines are written as plain rows.
pub(crate) fn plain<'a>(alloc: Global) -> Result<Command<'a>, AllocError>
    ensures { IfOk result (λ command. app_of command ≡ plain_line) }
{
    let command = of_folder(alloc, "plain", PLAIN, PLAIN_MORE)?;
    with_style(alloc, command, PLAIN_DATES, PLAIN_JSON)
}
