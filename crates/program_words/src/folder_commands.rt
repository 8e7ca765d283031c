//! The subcommands of a folder, each with its help.

ghost use Rattle.std.specs.Prelude.{◌≡◌, codes, IfOk};
ghost use Rattle.clap.specs.Words.{app_of, with_rule};
ghost use Rattle.program_main.specs.Texts.Words.{text_rule};
ghost use Rattle.program_words.specs.CommandLine.{case_line, correction_line, folder_line, init_line, kept_line, log_line, sheet_line, with_correction, with_wait};

use crate::options::{with_flag, with_option_place, with_place};
use clap::Command;
use program_main::{with_needed, with_source, with_text};
use std::alloc::{AllocError, Global};

// What is said of arguments that several subcommands have.
const FOLDER: &str = "The folder";

const COURT: &str = "The court's file";

const AS_OF: &str = "The folder as it was after this row, or at the end of this day or time";

const WAIT: &str = "How many seconds to wait while another program keeps rows (30)";

const INIT: &str = "Make a folder, with the court's file";

const INIT_MORE: &str = "The court's file is read first, and one with a fault makes no folder.
'docket court write' writes one, and 'docket court check' says more of it.

Example:
  docket init cases --court district.toml";

const STRIKE: &str = "Strike a row, if no other answer changes by it";

const STRIKE_MORE: &str =
    "It writes the row, the answers that would change without it, and the deadlines
and hearings that would move. The row is struck if no answer changes, or with
--accept. It stays in the journal, with why, by whom and when it was struck: by
the account that runs this, on the day that the clock shows in the court's zone.

Example:
  docket strike cases 17 --reason 'entered twice'";

const ROW: &str = "The row's number, with which its answer begins";

const REASON: &str = "Why it is struck, in one line";

const STRIKE_ACCEPT: &str = "Strike it though answers change";

const RESTORE: &str = "Restore a row that is struck, if no other answer changes by it";

const RESTORE_MORE: &str =
    "The row is in its place again, with its number and those that it gave. It writes
the row, the answers that would change with it, and the deadlines and hearings
that would move. The row is restored if no answer changes, or with --accept. The
strike stays in the journal, and so does why, by whom and when the row was
restored: by the account that runs this, on the day that the clock shows in the
court's zone.

Example:
  docket restore cases 17 --reason 'it was no copy'";

const RESTORE_ROW: &str = "The number of the row that is struck";

const RESTORE_REASON: &str = "Why it is restored, in one line";

const RESTORE_ACCEPT: &str = "Restore it though answers change";

const STRUCK: &str = "List the rows that are struck";

const STRUCK_MORE: &str =
    "A row that was restored since it was struck isn't listed. Another program may
enter rows meanwhile.

Examples:
  docket struck cases
  docket struck cases --as-of 2025-09-15";

const CASES: &str = "List the cases that were opened by a case number";

const CASES_MORE: &str = "A line has the number that the folder gives the case, and the court's, as
1:25-cv-01234. Another program may enter rows meanwhile.

Examples:
  docket cases cases
  docket cases cases --as-of 17";

const CHECK: &str = "Decide all rows again, and say how many there are";

const CHECK_MORE: &str =
    "It says which entry of the journal is damaged or of an earlier time than the one
before it, and which row would be answered otherwise than it was. It changes
nothing, and another program may enter rows meanwhile.

Example:
  docket check cases";

const ROWS: &str = "Write the court's file and all rows, as clerk_office reads them";

const ROWS_MORE: &str =
    "Rows that are struck are left out. Another program may enter rows meanwhile.

Examples:
  docket rows cases > day.txt
  docket rows cases --as-of 17 > day.txt";

const LOG: &str = "List what was entered, by whom and when";

const LOG_MORE: &str =
    "An entry is a row, a court's file, a strike or a restore. Each is listed with
its time in UTC, the account that entered it, and its text; a row with its answer
too. All entries are listed, or those alone for which all options hold. Another
program may enter rows meanwhile.

With --json each is an object on a line of its own: its kind (row, court, strike
or restore), row, time, account, case, and line and answer, or remark.

Examples:
  docket log cases
  docket log cases --row 17
  docket log cases --case 1:25-cv-01234 --json
  docket log cases --by Ortiz --from 2025-09-15 --to 2025-09-19

DAY is a date, as 2025-09-15, or today, yesterday, or monday to sunday, the next
such day from today on; or so many days from today, as (with =) -3d. Days are
those of the clock in the court's zone, and both of them count.";

const LOG_ROW: &str = "The row of this number alone, and what struck or restored it";

const LOG_CASE: &str = "The rows of this case, and what struck or restored them";

const LOG_BY: &str = "What this account entered, by its name, which stands before its @";

const LOG_FROM: &str = "The first day";

const LOG_TO: &str = "The last day";

const LOG_JSON: &str = "Write a JSON object for each entry, on a line of its own";

const SHEET: &str = "The sheet of one case: its deadlines and motions, after all rows";

const SHEET_MORE: &str = "Another program may enter rows meanwhile. Of an input:

  docket sheet --input day.txt 7

Example:
  docket sheet cases 1:25-cv-01234";

const SHEET_CASE: &str = "The case: its number, or the number that the court gives it";

const CASE: &str = "One page of a case: who has it, deadlines, motions, and its last entries";

const CASE_MORE: &str =
    "It has what the case is called, its deadlines with labels and states, its motions
with rulings and hearings, and the last ten entries about it, as 'docket log
--case' lists them. Another program may enter rows meanwhile.

Example:
  docket case cases 1:25-cv-01234";

/// A subcommand of that name, which takes a folder.
pub(crate) fn of_folder<'a>(
    alloc: Global,
    name: &'a str,
    about: &'a str,
    more: &'a str,
) -> Result<Command<'a>, AllocError>
    ensures { IfOk result (λ command. app_of command ≡ folder_line name.now) }
{
    let command = Command::new(alloc, name).about(about).after_help(more);
    with_place(alloc, command, "folder", "FOLDER", FOLDER)
}

/// The command, which also takes as of when the folder is read.
pub(crate) fn with_as_of<'a>(alloc: Global, command: Command<'a>) -> Result<Command<'a>, AllocError>
    ensures { IfOk result (λ whole. app_of whole ≡ with_rule (app_of command.entry) (text_rule (codes "as-of"))) }
{
    with_text(alloc, command, "as-of", "ROW|DAY|TIME", AS_OF)
}

/// The command, which also takes how long to wait for others.
pub(crate) fn with_wait<'a>(alloc: Global, command: Command<'a>) -> Result<Command<'a>, AllocError>
    ensures { IfOk result (λ whole. app_of whole ≡ with_wait (app_of command.entry)) }
{
    with_text(alloc, command, "wait", "SECONDS", WAIT)
}

/// A subcommand of that name, which takes a folder, and as of when it is read.
fn of_kept<'a>(
    alloc: Global,
    name: &'a str,
    about: &'a str,
    more: &'a str,
) -> Result<Command<'a>, AllocError>
    ensures { IfOk result (λ command. app_of command ≡ kept_line name.now) }
{
    with_as_of(alloc, of_folder(alloc, name, about, more)?)
}

/// The subcommand by which a folder is made.
pub(crate) fn init<'a>(alloc: Global) -> Result<Command<'a>, AllocError>
    ensures { IfOk result (λ command. app_of command ≡ init_line) }
{
    let command = of_folder(alloc, "init", INIT, INIT_MORE)?;
    with_needed(alloc, command, "court", "FILE", COURT)
}

/// The command, which also takes a row, why it is struck or restored, whether it is though answers differ, and how long to wait for
/// others.
fn with_correction<'a>(
    alloc: Global,
    command: Command<'a>,
    row: &'a str,
    reason: &'a str,
    accept: &'a str,
) -> Result<Command<'a>, AllocError>
    ensures { IfOk result (λ whole. app_of whole ≡ with_correction (app_of command.entry)) }
{
    let command = with_place(alloc, command, "row", "ROW", row)?;
    let command = with_needed(alloc, command, "reason", "TEXT", reason)?;
    let command = with_flag(alloc, command, "accept", accept)?;
    with_wait(alloc, command)
}

/// The subcommand by which a row is struck.
pub(crate) fn strike<'a>(alloc: Global) -> Result<Command<'a>, AllocError>
    ensures { IfOk result (λ command. app_of command ≡ correction_line (codes "strike")) }
{
    let command = of_folder(alloc, "strike", STRIKE, STRIKE_MORE)?;
    with_correction(alloc, command, ROW, REASON, STRIKE_ACCEPT)
}

/// The subcommand by which a row that is struck is restored.
pub(crate) fn restore<'a>(alloc: Global) -> Result<Command<'a>, AllocError>
    ensures { IfOk result (λ command. app_of command ≡ correction_line (codes "restore")) }
{
    let command = of_folder(alloc, "restore", RESTORE, RESTORE_MORE)?;
    with_correction(alloc, command, RESTORE_ROW, RESTORE_REASON, RESTORE_ACCEPT)
}

/// The subcommand by which struck rows are listed.
pub(crate) fn struck<'a>(alloc: Global) -> Result<Command<'a>, AllocError>
    ensures { IfOk result (λ command. app_of command ≡ kept_line (codes "struck")) }
{
    of_kept(alloc, "struck", STRUCK, STRUCK_MORE)
}

/// The subcommand by which cases are listed.
pub(crate) fn cases<'a>(alloc: Global) -> Result<Command<'a>, AllocError>
    ensures { IfOk result (λ command. app_of command ≡ kept_line (codes "cases")) }
{
    of_kept(alloc, "cases", CASES, CASES_MORE)
}

/// The subcommand by which all rows are decided again.
pub(crate) fn check<'a>(alloc: Global) -> Result<Command<'a>, AllocError>
    ensures { IfOk result (λ command. app_of command ≡ folder_line (codes "check")) }
{
    of_folder(alloc, "check", CHECK, CHECK_MORE)
}

/// The subcommand by which rows are written.
pub(crate) fn rows<'a>(alloc: Global) -> Result<Command<'a>, AllocError>
    ensures { IfOk result (λ command. app_of command ≡ kept_line (codes "rows")) }
{
    of_kept(alloc, "rows", ROWS, ROWS_MORE)
}

/// The subcommand by which what was entered is listed.
pub(crate) fn log<'a>(alloc: Global) -> Result<Command<'a>, AllocError>
    ensures { IfOk result (λ command. app_of command ≡ log_line) }
{
    let command = of_folder(alloc, "log", LOG, LOG_MORE)?;
    let command = with_text(alloc, command, "row", "ROW", LOG_ROW)?;
    let command = with_text(alloc, command, "case", "N", LOG_CASE)?;
    let command = with_text(alloc, command, "by", "NAME", LOG_BY)?;
    let command = with_text(alloc, command, "from", "DAY", LOG_FROM)?;
    let command = with_text(alloc, command, "to", "DAY", LOG_TO)?;
    with_flag(alloc, command, "json", LOG_JSON)
}

/// The subcommand by which the sheet of a case is written.
pub(crate) fn sheet<'a>(alloc: Global) -> Result<Command<'a>, AllocError>
    ensures { IfOk result (λ command. app_of command ≡ sheet_line) }
{
    let command = Command::new(alloc, "sheet")
        .about(SHEET)
        .after_help(SHEET_MORE);
    let command = with_source(alloc, command)?;
    let command = with_as_of(alloc, command)?;
    with_option_place(alloc, command, "case", "CASE", SHEET_CASE)
}

/// The subcommand by which a page of a case is written.
pub(crate) fn case_page<'a>(alloc: Global) -> Result<Command<'a>, AllocError>
    ensures { IfOk result (λ command. app_of command ≡ case_line) }
{
    let command = of_folder(alloc, "case", CASE, CASE_MORE)?;
    with_place(alloc, command, "case", "CASE", SHEET_CASE)
}
