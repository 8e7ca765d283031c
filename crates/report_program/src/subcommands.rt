//! The subcommands for reports, as `clap` takes them.

ghost use Rattle.std.specs.Prelude.{◌≡◌, [], IfOk};
ghost use Rattle.clap.specs.Words.{app_of, with_rule};
ghost use Rattle.report_program.specs.CommandLine.{choosing_shape, due_shape, form_rule, ics_shape, json_shape, pending_shape, sourced_shape, sql_shape, week_shape, with_reports};

use clap::{Arg, ArgAction, Command};
use program_main::{with_needed, with_source, with_subcommand, with_text};
use std::alloc::{AllocError, Global};

const ABOUT_DUE: &str = "What is due: deadlines with no timely act, and hearings, by day";

const ABOUT_WEEK: &str = "A judge's week, with the half hours down the side";

const ABOUT_JSON: &str = "JSON: the answers of all rows, the cases, and the judges' calendars";

const ABOUT_SQL: &str = "SQL: tables of the answers and the docket, for sqlite3 and PostgreSQL";

const ABOUT_PAGE: &str = "One HTML page: what is due, each judge's hearings, and the cases";

const ABOUT_ICS: &str = "Deadlines and hearings for calendar programs, as iCalendar (RFC 5545)";

const ABOUT_PENDING: &str =
    "Motions of more than six months, and cases of more than three years, by judge";

const STAMP: &str = "When it is written, as 20250915T120000Z; else the clock's time";

const LINES: &str = "The answers of all rows alone, an object a line";

const FROM: &str = "The first day; else the first of the court's file";

const TO: &str = "The last day; else the last of the court's file";

const OF: &str = "A day of the week";

const ON: &str = "The day on which they are pending";

const PAGE: &str = "One HTML page, for a browser and for print";

const CSV: &str = "A table for other programs, with a line for each";

const TODAY: &str = "The date that counts as today; else that of the clock in the court's zone";

const DAYS: &str =
    "DAY is a date, as 2025-09-15, or today, tomorrow, yesterday; monday to sunday, the
next such day from today on; or so many days from today, as +7d or (with =) -3d.";

const PENDING: &str =
    "A motion is listed if more than six months have passed since it was served, and
its last ruling is of a later day, reserves it, or isn't there; a case if more
than three years have passed since it was filed. A case that was closed by that
day isn't listed, and no motion of it is (28 U.S.C. 476(a)).

Example:
  docket pending cases --on 2026-03-31

DAY is a date, as 2025-09-15, or today, tomorrow, yesterday; monday to sunday, the
next such day from today on; or so many days from today, as +7d or (with =) -3d.";

const CHOICES: &str =
    "DAY is a date, as 2025-09-15, or today, tomorrow, yesterday; monday to sunday, the
next such day from today on; or so many days from today, as +7d or (with =) -3d.
A case is before the judge who has it and the one to whom it is referred; a case
that isn't assigned, before each judge who has a hearing in it.";

const ANY_JUDGE: &str = "Hearings before this judge, and deadlines of the cases before this judge";

const COUNT: &str = "So many days from today on: 7 is today and the six after it";

const OVERDUE: &str = "Only deadlines that ended before today, with no act recorded";

const ONE_JUDGE: &str = "The judge, as the court's file names one";

const CASE: &str = "This case alone: its number, or the number that the court gives it";

const AS_OF: &str = "The folder as it was after this row, or at the end of this day or time";

/// The subcommand of that name, which takes a docket's folder, and as of when, or else the file of an input.
fn sourced<'a>(alloc: Global, name: &'a str, about: &'a str) -> Result<Command<'a>, AllocError>
    ensures { IfOk result (λ command. app_of command ≡ record { top = sourced_shape name.now; subs = [] }) }
{
    let command = with_source(alloc, Command::new(alloc, name).about(about))?;
    with_text(alloc, command, "as-of", "ROW|DAY|TIME", AS_OF)
}

/// The subcommand of that name, which also takes the days, the judge and the case that are chosen.
fn choosing<'a>(alloc: Global, name: &'a str, about: &'a str) -> Result<Command<'a>, AllocError>
    ensures { IfOk result (λ command. app_of command ≡ record { top = choosing_shape name.now; subs = [] }) }
{
    let command = sourced(alloc, name, about)?.after_help(CHOICES);
    let command = with_text(alloc, command, "from", "DAY", FROM)?;
    let command = with_text(alloc, command, "to", "DAY", TO)?;
    let command = with_text(alloc, command, "today", "DATE", TODAY)?;
    let command = with_text(alloc, command, "judge", "NAME", ANY_JUDGE)?;
    with_text(alloc, command, "case", "N", CASE)
}

/// The subcommand for what is due, which also takes how many days there are from today on, and that only what is overdue is listed.
fn due<'a>(alloc: Global) -> Result<Command<'a>, AllocError>
    ensures { IfOk result (λ command. app_of command ≡ record { top = due_shape; subs = [] }) }
{
    let command = choosing(alloc, "due", ABOUT_DUE)?;
    let command = with_text(alloc, command, "days", "N", COUNT)?;
    let overdue = Arg::new(alloc, "overdue")
        .long("overdue")
        .action(ArgAction::SetTrue)
        .help(OVERDUE);
    command.arg(overdue)
}

/// The subcommand for a judge's week.
fn week<'a>(alloc: Global) -> Result<Command<'a>, AllocError>
    ensures { IfOk result (λ command. app_of command ≡ record { top = week_shape; subs = [] }) }
{
    let command = sourced(alloc, "week", ABOUT_WEEK)?.after_help(DAYS);
    let command = with_needed(alloc, command, "judge", "NAME", ONE_JUDGE)?;
    let command = with_needed(alloc, command, "of", "DAY", OF)?;
    with_text(alloc, command, "today", "DATE", TODAY)
}

/// The subcommand for a calendar, which also takes the instant at which it is written.
fn ics<'a>(alloc: Global) -> Result<Command<'a>, AllocError>
    ensures { IfOk result (λ command. app_of command ≡ record { top = ics_shape; subs = [] }) }
{
    let command = choosing(alloc, "ics", ABOUT_ICS)?;
    with_text(alloc, command, "stamp", "INSTANT", STAMP)
}

/// The subcommand for JSON, which also takes that answers are to be lines.
fn json<'a>(alloc: Global) -> Result<Command<'a>, AllocError>
    ensures { IfOk result (λ command. app_of command ≡ record { top = json_shape; subs = [] }) }
{
    let command = choosing(alloc, "json", ABOUT_JSON)?;
    let lines = Arg::new(alloc, "lines")
        .long("lines")
        .action(ArgAction::SetTrue)
        .help(LINES);
    command.arg(lines)
}

/// The command, which also takes that what it writes has this form.
fn with_form<'a>(
    alloc: Global,
    command: Command<'a>,
    name: &'a str,
    help: &'a str,
) -> Result<Command<'a>, AllocError>
    ensures { IfOk result (λ whole. app_of whole ≡ with_rule (app_of command.entry) (form_rule name.now)) }
{
    let form = Arg::new(alloc, name)
        .long(name)
        .action(ArgAction::SetTrue)
        .help(help);
    command.arg(form)
}

/// The subcommand for what has been pending for long, which also takes as what it is written.
fn pending<'a>(alloc: Global) -> Result<Command<'a>, AllocError>
    ensures { IfOk result (λ command. app_of command ≡ record { top = pending_shape; subs = [] }) }
{
    let command = sourced(alloc, "pending", ABOUT_PENDING)?.after_help(PENDING);
    let command = with_needed(alloc, command, "on", "DAY", ON)?;
    let command = with_text(alloc, command, "today", "DATE", TODAY)?;
    let command = with_form(alloc, command, "page", PAGE)?;
    with_form(alloc, command, "csv", CSV)
}

/// A command with the subcommands due, week, page, ics, json, sql and pending. Each takes `folder`, the first place, and `as-of`, or
/// `input`, the option; none has to be given. `Err` says that memory ran out.
pub fn with_reports<'a>(alloc: Global, command: Command<'a>) -> Result<Command<'a>, AllocError>
    ensures { IfOk result (λ whole. app_of whole ≡ with_reports (app_of command.entry)) }
{
    let due = with_subcommand(command, due(alloc))?;
    let week = with_subcommand(due, week(alloc))?;
    let page = with_subcommand(week, choosing(alloc, "page", ABOUT_PAGE))?;
    let ics = with_subcommand(page, ics(alloc))?;
    let json = with_subcommand(ics, json(alloc))?;
    let sql = with_subcommand(json, sourced(alloc, "sql", ABOUT_SQL))?;
    with_subcommand(sql, pending(alloc))
}
