//! The subcommand for a memo, as `clap` takes it.

ghost use Rattle.std.specs.Prelude.{◌≡◌, [], IfOk};
ghost use Rattle.clap.specs.Words.{app_of, with_rule};
ghost use Rattle.report_memo.specs.CommandLine.{html_rule, memo_shape, with_memo};

use clap::{Arg, ArgAction, Command};
use program_main::{with_source, with_text};
use std::alloc::{AllocError, Global};

const ABOUT: &str = "Why each deadline is the day that it is, or all of one case";

// What it writes. `clap` breaks no lines, so they are broken here.
const TEXTS: &str = "It writes the answer to each row and under it the reasons of the deadline that
it shows: a line each, with the day, what happened, and the section of the
Federal Rules of Civil Procedure; by how much an act was timely or late, and why
a command was refused. Then it writes the docket sheets of the cases that are
open, with the reasons under each deadline, and each judge's calendar. 'ours'
stands in place of a section where the Rules leave a choice; where another
reading gives another end, a line says which.

First comes a head: the court, where its file names it in a comment; with
--case the case, what rows call it, and the judge who has it; the day on which
the memo is made, which is that of --today or else of the clock, and left out
with --input alone; and the edition of the Rules. It ends with an empty line.

Of one case it writes the sheet alone, as it is after all rows: each deadline
with its reasons, its act and by how much that was timely or late, how far a
pending one lies from a day, and warnings, which are marked 'note'.

    docket memo OFFICE --case 1 --today 2025-08-21

With --html it is one page for a browser and for print, which loads nothing and
has no script. Each case, judge, deadline and motion is a heading there.

    docket memo OFFICE --case 1 --html > case1.html

A holiday of the federal list is named by law. Another name, and those of the
state's holidays, are read from a table [holiday_names] of the court's file, as
2025-11-04 = \"Election Day\". Where a name there ends in ' (doubtful)', the end
by the reading that the day is no holiday is given too.";

const CASE: &str = "The sheet of this case alone, after all rows, by its number or its name";

const TODAY: &str = "With --case: how far pending deadlines lie from this day, as 2025-08-21";

const HTML: &str = "As a page for print, with the same lines";

const AS_OF: &str = "The folder as it was after this row, or at the end of this day or time";

/// The subcommand.
fn memo<'a>(alloc: Global) -> Result<Command<'a>, AllocError>
    ensures { IfOk result (λ command. app_of command ≡ record { top = memo_shape; subs = [] }) }
{
    let command = Command::new(alloc, "memo").about(ABOUT).after_help(TEXTS);
    let command = with_source(alloc, command)?;
    let command = with_text(alloc, command, "as-of", "ROW|DAY|TIME", AS_OF)?;
    let command = with_text(alloc, command, "case", "N", CASE)?;
    let command = with_text(alloc, command, "today", "DAY", TODAY)?;
    with_html(alloc, command)
}

/// The command, which also takes that a page is written.
fn with_html<'a>(alloc: Global, command: Command<'a>) -> Result<Command<'a>, AllocError>
    ensures { IfOk result (λ whole. app_of whole ≡ with_rule (app_of command.entry) html_rule) }
{
    let html = Arg::new(alloc, "html")
        .long("html")
        .action(ArgAction::SetTrue)
        .help(HTML);
    command.arg(html)
}

/// A command with the subcommand memo. It takes `folder`, the first place, or `input`, the option, and `as-of`, `case`, `today` and the
/// flag `html`; none of them has to be given. `Err` says that memory ran out.
pub fn with_memo<'a>(alloc: Global, command: Command<'a>) -> Result<Command<'a>, AllocError>
    ensures { IfOk result (λ whole. app_of whole ≡ with_memo (app_of command.entry)) }
{
    let memo = memo(alloc)?;
    command.subcommand(memo)
}
