//! The command line, as `clap` takes it.

ghost use Rattle.std.specs.Prelude.{◌≡◌, IfOk};
ghost use Rattle.clap.specs.Words.{app_of};
ghost use Rattle.program_words.specs.CommandLine.{bare_line, command_line, with_kept, with_rows};

use crate::court_commands::court;
use crate::folder_commands::{
    case_page, cases, check, init, log, restore, rows, sheet, strike, struck,
};
use crate::input_commands::{ask, enter, plain, trial};
use clap::Command;
use program_main::with_subcommand;
use report_memo::with_memo;
use report_program::with_reports;
use std::alloc::{AllocError, Global};

const ABOUT: &str = "A court's docket: it is kept in a folder, and says what is due, and why.";

const MORE: &str = "The first steps:
  docket init cases --court district.toml   make the folder 'cases'
  docket enter cases                        enter rows, and read each answer
  docket due cases --from 2025-09-15        what is due from that day on

'docket enter --help' says more of 'enter', and so of each command.

It ends with a status, which is the same in every command:
  0  it is done
  1  the words of the command line are wrong
  2  the court's file has a fault
  3  a row has a fault, is held back or would be refused, and none is kept
  4  a file, the input or the output can't be read or written
  5  there is no memory
  6  what is asked for isn't there: a judge, a case, or a day
  7  answers would change, so nothing is
  8  some rows had faults or were held back, and the others were taken
  9  the court's file has no fault, but something may be wrong with it
  10 the folder's journal can't be used, or another program has it open
What is wrong goes to standard error. Nothing but what was asked for goes to
standard output.";

/// A command line of that name without its subcommands, of which the words have to name one. `Err` says that memory ran out.
pub(crate) fn bare<'a>(
    alloc: Global,
    name: &'a str,
    about: &'a str,
    more: &'a str,
) -> Result<Command<'a>, AllocError>
    ensures { IfOk result (λ command. app_of command ≡ bare_line name.now) }
{
    Command::new(alloc, name)
        .no_binary_name(true)
        .version("0.2.0")
        .about(about)
        .after_help(more)
        .subcommand_required(true)
        .bin_name(name)
}

/// The command with the subcommands by which a folder is made, and by which rows are read.
fn with_rows<'a>(alloc: Global, command: Command<'a>) -> Result<Command<'a>, AllocError>
    ensures { IfOk result (λ whole. app_of whole ≡ with_rows (app_of command.entry)) }
{
    let init = with_subcommand(command, init(alloc))?;
    let enter = with_subcommand(init, enter(alloc))?;
    let trial = with_subcommand(enter, trial(alloc))?;
    let ask = with_subcommand(trial, ask(alloc))?;
    with_subcommand(ask, plain(alloc))
}

/// The command with the subcommands of what a folder keeps.
fn with_kept<'a>(alloc: Global, command: Command<'a>) -> Result<Command<'a>, AllocError>
    ensures { IfOk result (λ whole. app_of whole ≡ with_kept (app_of command.entry)) }
{
    let strike = with_subcommand(command, strike(alloc))?;
    let restore = with_subcommand(strike, restore(alloc))?;
    let struck = with_subcommand(restore, struck(alloc))?;
    let cases = with_subcommand(struck, cases(alloc))?;
    let check = with_subcommand(cases, check(alloc))?;
    let rows = with_subcommand(check, rows(alloc))?;
    with_subcommand(rows, log(alloc))
}

/// The command line, for one reading of words.
pub(crate) fn command<'a>(alloc: Global) -> Result<Command<'a>, AllocError>
    ensures { IfOk result (λ command. app_of command ≡ command_line) }
{
    let bare = bare(alloc, "docket", ABOUT, MORE)?;
    let rows = with_rows(alloc, bare)?;
    let kept = with_kept(alloc, rows)?;
    let reports = with_reports(alloc, kept)?;
    let memo = with_memo(alloc, reports)?;
    let sheet = with_subcommand(memo, sheet(alloc))?;
    let case = with_subcommand(sheet, case_page(alloc))?;
    case.subcommand(court(alloc))
}
