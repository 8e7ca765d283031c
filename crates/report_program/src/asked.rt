//! What the words of the command line ask for.

ghost use Rattle.std.specs.Prelude.{◌≡◌, ◌∷◌, [], true, option_map, string_bytes, IfErr, IfOk};
ghost use Rattle.std.specs.Option.{option_and_then};
ghost use Rattle.clap.specs.declared.error.kind.ErrorKind.{ErrorKind};
ghost use Rattle.clap.specs.Matches.{first_value};
ghost use Rattle.clap.specs.Words.{found_of, rows_of};
ghost use Rattle.content_lines.specs.Words.{stamp_of_text};
ghost use Rattle.program_main.specs.Options.Words.{IsAnswerFor, IsFaultAmong};
ghost use Rattle.program_main.specs.Texts.Words.{faults_unless};
ghost use Rattle.report_program.specs.Asked.{IsAskedBy, are_given_taken, faults_given, first_said, is_instant_taken, last_said, task_of};

use clap::ArgMatches;
use content_lines::stamp_of_text;
use court_clock::{Day, Instant};
use office_texts::CaseCalled;
use program_main::{DaySaid, OptionsFault, case_option, day_option, days_option, said_option};
use std::alloc::{AllocError, Global};

/// What is written.
#[derive(Clone, Copy, Debug, PartialEq, Eq)]
pub enum Task {
    /// What is due, by day.
    Due,
    /// A judge's week.
    Week,
    /// One page of what is due, of the judges' hearings and of the cases.
    Page,
    /// A calendar for calendar programs.
    Ics,
    /// JSON, for programs.
    Json,
    /// SQL, for databases.
    Sql,
    /// The sheet of one case.
    Sheet,
    /// What has been pending for long.
    Pending,
    /// One page of a case, up to the entries of its log.
    Case,
}

/// What the words ask for: what is written, and of what. The name is as the words have it.
#[derive(Debug, Drop)]
pub struct Asked {
    /// What is written.
    pub task: Task,
    /// The name of a judge.
    pub judge: Option<String>,
    /// A case, by its number or by its name.
    pub case: Option<CaseCalled>,
    /// The first day.
    pub from: Option<DaySaid>,
    /// The last day.
    pub to: Option<DaySaid>,
    /// A day of the week.
    pub of: Option<DaySaid>,
    /// The day on which something is pending.
    pub on: Option<DaySaid>,
    /// The day that counts as today, where it isn't that of the clock.
    pub today: Option<Day>,
    /// The instant at which a calendar is written.
    pub stamp: Option<Instant>,
    /// The instant that the clock shows, at which one is written where none is asked for, and by which it is today.
    pub clock_time: Instant,
    /// Whether answers are to be lines.
    pub lines: bool,
    /// Whether only what is overdue is asked for.
    pub overdue: bool,
    /// Whether what is pending is to be a page.
    pub page: bool,
    /// Whether it is to be a table for other programs.
    pub csv: bool,
}

/// What a subcommand of that name asks for with what it was given, at the clock's time: a subcommand of `with_reports`. Where the rows
/// are isn't in the answer. BadWords where a text writes no day, no instant, no case or no number of days, and OutOfMemory where memory
/// runs out.
pub fn asked_by(
    alloc: Global,
    clock_time: Instant,
    name: &str,
    given: &ArgMatches<'_>,
) -> Result<Asked, OptionsFault>
    ensures asked { IfOk result (λ asked. IsAskedBy name.now (rows_of (found_of given.now)) asked) }
    ensures timed { IfOk result (λ asked. asked.clock_time ≡ clock_time) }
    ensures faults { IsAnswerFor (faults_given (rows_of (found_of given.now))) result }
    ensures taken { are_given_taken (rows_of (found_of given.now)) ≡ true → IfErr result (λ fault. fault ≡ OptionsFault.OutOfMemory) }
{
    let from = match said_option(alloc, "from", given.get_str("from")) {
        Ok(day) => day,
        Err(fault) => return Err(fault),
    };
    let to = match said_option(alloc, "to", given.get_str("to")) {
        Ok(day) => day,
        Err(fault) => return Err(fault),
    };
    let of = match said_option(alloc, "of", given.get_str("of")) {
        Ok(day) => day,
        Err(fault) => return Err(fault),
    };
    let today = match day_option(alloc, "today", given.get_str("today")) {
        Ok(day) => day,
        Err(fault) => return Err(fault),
    };
    let stamp = match stamp_read(alloc, given.get_str("stamp")) {
        Ok(stamp) => stamp,
        Err(fault) => return Err(fault),
    };
    let case = match case_option(alloc, given.get_str("case")) {
        Ok(case) => case,
        Err(fault) => return Err(fault),
    };
    let last = match days_option(alloc, "days", given.get_str("days")) {
        Ok(last) => last,
        Err(fault) => return Err(fault),
    };
    let on = match said_option(alloc, "on", given.get_str("on")) {
        Ok(day) => day,
        Err(fault) => return Err(fault),
    };
    let judge = text_given(alloc, given, "judge")?;
    Ok(Asked {
        task: task_of(name),
        judge,
        case,
        from: first_said(&last, from),
        to: last_said(&last, to),
        of,
        on,
        today,
        stamp,
        clock_time,
        lines: given.get_flag("lines"),
        overdue: given.get_flag("overdue"),
        page: given.get_flag("page"),
        csv: given.get_flag("csv"),
    })
}

/// The first day: today, where it is said which is the last of so many days from today on.
fn first_said(last: &Option<DaySaid>, from: Option<DaySaid>) -> Option<DaySaid>
    ensures { result ≡ first_said last.now from }
{
    match last {
        Some(_) => Some(DaySaid::After(0)),
        None => from,
    }
}

/// The last day.
fn last_said(last: &Option<DaySaid>, to: Option<DaySaid>) -> Option<DaySaid>
    ensures { result ≡ last_said last.now to }
{
    match last {
        Some(_) => *last,
        None => to,
    }
}

/// What a subcommand of that name writes.
fn task_of(name: &str) -> Task
    ensures { result ≡ task_of name.now }
{
    match name {
        "week" => Task::Week,
        "page" => Task::Page,
        "ics" => Task::Ics,
        "json" => Task::Json,
        "sql" => Task::Sql,
        "pending" => Task::Pending,
        _ => Task::Due,
    }
}

/// The text of an option, if it is given.
fn text_given(alloc: Global, given: &ArgMatches<'_>, id: &str) -> Result<Option<String>, AllocError>
    ensures { IfOk result (λ text. option_map string_bytes text ≡ first_value (found_of given.now) id.now) }
{
    match given.get_str(id) {
        Some(text) => Ok(Some(String::from_str(alloc, text)?)),
        None => Ok(None),
    }
}

/// The instant that the text of its option writes, if it is given.
fn stamp_read(alloc: Global, text: Option<&str>) -> Result<Option<Instant>, OptionsFault>
    ensures stamp { IfOk result (λ stamp. stamp ≡ option_and_then stamp_of_text (option_map (λ text. text.now) text.entry)) }
    ensures faults { IsAnswerFor (faults_unless (is_instant_taken (option_map (λ text. text.now) text.entry))) result }
    ensures taken { is_instant_taken (option_map (λ text. text.now) text.entry) ≡ true → IfErr result (λ fault. fault ≡ OptionsFault.OutOfMemory) }
{
    match text {
        None => Ok(None),
        Some(text) => match stamp_of_text(text) {
            Some(stamp) => Ok(Some(stamp)),
            None => Err(no_instant(alloc, text)),
        },
    }
}

/// The text is no instant.
fn no_instant(alloc: Global, text: &str) -> OptionsFault
    ensures { IsFaultAmong (ErrorKind.ValueValidation ∷ []) result }
{
    match format!(in alloc;
        "error: invalid value '{text}' for '--stamp <INSTANT>': write it as 20250915T120000Z, in UTC\n\nFor more information, try '--help'.\n"
    ) {
        Ok(text) => OptionsFault::BadWords(text),
        Err(_) => OptionsFault::OutOfMemory,
    }
}
