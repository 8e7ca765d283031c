//! The other subcommands of a folder, and those of reports.

ghost use Rattle.std.specs.Prelude.{◌≡◌, ℤ, Some, codes, option_map, string_bytes, IfOk};
ghost use Rattle.clap.specs.Words.{Text, first_of, found_of, rows_of};
ghost use Rattle.program_main.specs.Options.Words.{IsAnswerFor};
ghost use Rattle.program_words.specs.declared.subcommand.Subcommand.{Subcommand};
ghost use Rattle.program_words.specs.Given.{faults_without};
ghost use Rattle.program_words.specs.Task.{IsCorrecting, IsSheetSource, IsSource, IsSourceOf, IsTask, apart_faults, case_asked, correcting_faults, days_alone_faults, faults_given, has_other_days, is_narrowed, lines_alone_faults, one_form_faults, report_source_faults, sheet_case, sheet_folder, sheet_source_faults, source_faults};

use crate::as_of::report_as_of;
use crate::given::{apart, both, has_flag, is_given, mistake, needed, text_in};
use crate::task::{AsOf, Correcting, Source, Task};
use crate::values::{case_in, line_in, row_in, wait_in};
use clap::ArgMatches;
use court_clock::Instant;
use office_texts::CaseCalled;
use program_main::OptionsFault;
use report_program::{Asked, Task as Written};
use std::alloc::Global;

// What is said where answers as lines are to be narrowed.
const ALL_ANSWERS: &str =
    "'--lines' gives the answers of all rows, and doesn't go with '--judge <NAME>', '--case <N>', '--from <DAY>' or '--to <DAY>'";

// What is said where days that count from today are given beside others.
const OTHER_DAYS: &str =
    "the argument '--days <N>' cannot be used with '--from <DAY>', '--to <DAY>' or '--overdue'";

// What is said where what is pending is to be written in two ways.
const TWO_FORMS: &str = "the argument '--page' cannot be used with '--csv'";

/// The folder.
pub(crate) fn folder_in(alloc: Global, given: &ArgMatches<'_>) -> Result<String, OptionsFault>
    ensures text { IfOk result (λ text. first_of (codes "folder") (rows_of (found_of given.now)) ≡ Some (string_bytes text)) }
    ensures faults { IsAnswerFor (faults_without (first_of (codes "folder") (rows_of (found_of given.now)))) result }
{
    needed(alloc, given, "folder", "<FOLDER>")
}

/// A new folder.
pub(crate) fn init(alloc: Global, given: &ArgMatches<'_>) -> Result<Task, OptionsFault>
    ensures task { (clock_time : ℤ) (name : Text) → IfOk result (IsTask clock_time Subcommand.Init name (rows_of (found_of given.now))) }
    ensures faults { IsAnswerFor (faults_given Subcommand.Init (rows_of (found_of given.now))) result }
{
    let (folder, court) = both(
        folder_in(alloc, given),
        needed(alloc, given, "court", "--court <FILE>"),
    )?;
    Ok(Task::Init(folder, court))
}

/// A row that is struck or restored, at the clock's time.
fn correcting(
    alloc: Global,
    clock_time: Instant,
    given: &ArgMatches<'_>,
) -> Result<Correcting, OptionsFault>
    ensures correcting { IfOk result (IsCorrecting clock_time (rows_of (found_of given.now))) }
    ensures faults { IsAnswerFor (correcting_faults (rows_of (found_of given.now))) result }
{
    let which = both(
        row_in(alloc, given),
        line_in(alloc, given, "reason", "--reason <TEXT>"),
    );
    let ((row, reason), wait) = both(which, wait_in(alloc, given))?;
    let accept = has_flag(given, "accept");
    Ok(Correcting {
        row,
        reason,
        clock_time,
        accept,
        wait,
    })
}

/// A row that is struck, at the clock's time.
pub(crate) fn strike(
    alloc: Global,
    clock_time: Instant,
    given: &ArgMatches<'_>,
) -> Result<Task, OptionsFault>
    ensures task { (name : Text) → IfOk result (IsTask clock_time Subcommand.Strike name (rows_of (found_of given.now))) }
    ensures faults { IsAnswerFor (faults_given Subcommand.Strike (rows_of (found_of given.now))) result }
{
    let (folder, row) = both(
        folder_in(alloc, given),
        correcting(alloc, clock_time, given),
    )?;
    Ok(Task::Strike(folder, row))
}

/// A row that is restored, at the clock's time.
pub(crate) fn restore(
    alloc: Global,
    clock_time: Instant,
    given: &ArgMatches<'_>,
) -> Result<Task, OptionsFault>
    ensures task { (name : Text) → IfOk result (IsTask clock_time Subcommand.Restore name (rows_of (found_of given.now))) }
    ensures faults { IsAnswerFor (faults_given Subcommand.Restore (rows_of (found_of given.now))) result }
{
    let (folder, row) = both(
        folder_in(alloc, given),
        correcting(alloc, clock_time, given),
    )?;
    Ok(Task::Restore(folder, row))
}

/// Of what a report is, of a folder as of then.
fn source_of(
    alloc: Global,
    folder: Option<&str>,
    input: Option<&str>,
    as_of: Option<AsOf>,
) -> Result<Source, OptionsFault>
    ensures source { IfOk result (IsSourceOf (option_map (λ text. text.now) folder.entry) (option_map (λ text. text.now) input.entry) as_of) }
    ensures faults { IsAnswerFor (source_faults (option_map (λ text. text.now) folder.entry) (option_map (λ text. text.now) input.entry)) result }
{
    match (folder, input) {
        (Some(folder), None) => Ok(Source::Folder(String::from_str(alloc, folder)?, as_of)),
        (None, Some("-")) => Ok(Source::StandardInput),
        (None, Some(input)) => Ok(Source::File(String::from_str(alloc, input)?)),
        (Some(_), Some(_)) => Err(mistake(
            alloc,
            "FOLDER and '--input <FILE>' are one too many: name a folder or an input",
        )),
        (None, None) => Err(mistake(
            alloc,
            "name a FOLDER, or an input by '--input <FILE>', where '-' is standard input",
        )),
    }
}

/// Of what the report is, at the clock's time.
fn source_in(
    alloc: Global,
    clock_time: Instant,
    given: &ArgMatches<'_>,
) -> Result<Source, OptionsFault>
    ensures source { IfOk result (IsSource clock_time (rows_of (found_of given.now))) }
    ensures faults { IsAnswerFor (report_source_faults (rows_of (found_of given.now))) result }
{
    let as_of = report_as_of(alloc, clock_time, given)?;
    source_of(
        alloc,
        text_in(given, "folder"),
        text_in(given, "input"),
        as_of,
    )
}

/// Whether a judge, a case or a day narrows what a report has.
fn is_narrowed(given: &ArgMatches<'_>) -> bool
    ensures { result ≡ is_narrowed (rows_of (found_of given.now)) }
{
    is_given(given, "judge")
        || is_given(given, "case")
        || is_given(given, "from")
        || is_given(given, "to")
}

/// Whether answers as lines are asked for with nothing that would narrow them. BadWords where they are to be narrowed.
fn lines_alone(alloc: Global, given: &ArgMatches<'_>) -> Result<(), OptionsFault>
    ensures { IsAnswerFor (lines_alone_faults (rows_of (found_of given.now))) result }
{
    apart(
        alloc,
        has_flag(given, "lines"),
        is_narrowed(given),
        ALL_ANSWERS,
    )
}

/// Whether other days are said, or only what is overdue is asked for.
fn has_other_days(given: &ArgMatches<'_>) -> bool
    ensures { result ≡ has_other_days (rows_of (found_of given.now)) }
{
    is_given(given, "from") || is_given(given, "to") || has_flag(given, "overdue")
}

/// Whether so many days from today on are given with no other days. BadWords where others are said too.
fn days_alone(alloc: Global, given: &ArgMatches<'_>) -> Result<(), OptionsFault>
    ensures { IsAnswerFor (days_alone_faults (rows_of (found_of given.now))) result }
{
    apart(
        alloc,
        is_given(given, "days"),
        has_other_days(given),
        OTHER_DAYS,
    )
}

/// Whether what is pending is to be written in one way. BadWords where it is to be a page and a table.
fn one_form(alloc: Global, given: &ArgMatches<'_>) -> Result<(), OptionsFault>
    ensures { IsAnswerFor (one_form_faults (rows_of (found_of given.now))) result }
{
    apart(
        alloc,
        has_flag(given, "page"),
        has_flag(given, "csv"),
        TWO_FORMS,
    )
}

/// Whether no two options are given that don't go together. BadWords where there are two.
fn options_apart(alloc: Global, given: &ArgMatches<'_>) -> Result<(((), ()), ()), OptionsFault>
    ensures { IsAnswerFor (apart_faults (rows_of (found_of given.now))) result }
{
    let two = both(lines_alone(alloc, given), days_alone(alloc, given));
    both(two, one_form(alloc, given))
}

/// A report of that name, at the clock's time.
pub(crate) fn report(
    alloc: Global,
    clock_time: Instant,
    name: &str,
    given: &ArgMatches<'_>,
) -> Result<Task, OptionsFault>
    ensures task { IfOk result (IsTask clock_time Subcommand.Report name.now (rows_of (found_of given.now))) }
    ensures faults { IsAnswerFor (faults_given Subcommand.Report (rows_of (found_of given.now))) result }
{
    let (source, (_, asked)) = both(
        source_in(alloc, clock_time, given),
        both(
            options_apart(alloc, given),
            report_program::asked_by(alloc, clock_time, name, given),
        ),
    )?;
    Ok(Task::Report(source, asked))
}

/// A memo, at the clock's time.
pub(crate) fn memo(
    alloc: Global,
    clock_time: Instant,
    given: &ArgMatches<'_>,
) -> Result<Task, OptionsFault>
    ensures task { (name : Text) → IfOk result (IsTask clock_time Subcommand.Memo name (rows_of (found_of given.now))) }
    ensures faults { IsAnswerFor (faults_given Subcommand.Memo (rows_of (found_of given.now))) result }
{
    let html = has_flag(given, "html");
    let (source, asked) = both(
        source_in(alloc, clock_time, given),
        report_memo::asked_by(alloc, clock_time, html, given),
    )?;
    Ok(Task::Memo(source, asked))
}

/// This of that case, at the clock's time.
fn case_asked(task: Written, clock_time: Instant, case: CaseCalled) -> Asked
    ensures { result ≡ case_asked task clock_time (Some case) }
{
    Asked {
        task,
        judge: None,
        case: Some(case),
        from: None,
        to: None,
        of: None,
        on: None,
        today: None,
        stamp: None,
        clock_time,
        lines: false,
        overdue: false,
        page: false,
        csv: false,
    }
}

/// The folder of a sheet, by its places: where an input is given, the first is that of the case.
fn sheet_folder<'a>(
    first: Option<&'a str>,
    second: Option<&'a str>,
    input: Option<&str>,
) -> Option<&'a str>
    ensures { option_map (λ text. text.now) result ≡ sheet_folder (option_map (λ text. text.now) first.entry) (option_map (λ text. text.now) second.entry) (option_map (λ text. text.now) input.entry) }
{
    match input {
        Some(_) => second,
        None => first,
    }
}

/// The case of a sheet, by the same.
fn sheet_case<'a>(
    first: Option<&'a str>,
    second: Option<&'a str>,
    input: Option<&str>,
) -> Option<&'a str>
    ensures { option_map (λ text. text.now) result ≡ sheet_case (option_map (λ text. text.now) first.entry) (option_map (λ text. text.now) second.entry) (option_map (λ text. text.now) input.entry) }
{
    match input {
        Some(_) => first,
        None => second,
    }
}

/// Of what the sheet is, at the clock's time.
fn sheet_source(
    alloc: Global,
    clock_time: Instant,
    given: &ArgMatches<'_>,
) -> Result<Source, OptionsFault>
    ensures source { IfOk result (IsSheetSource clock_time (rows_of (found_of given.now))) }
    ensures faults { IsAnswerFor (sheet_source_faults (rows_of (found_of given.now))) result }
{
    let as_of = report_as_of(alloc, clock_time, given)?;
    let (first, second) = (text_in(given, "folder"), text_in(given, "case"));
    let input = text_in(given, "input");
    source_of(alloc, sheet_folder(first, second, input), input, as_of)
}

/// The sheet of a case, at the clock's time.
pub(crate) fn sheet(
    alloc: Global,
    clock_time: Instant,
    given: &ArgMatches<'_>,
) -> Result<Task, OptionsFault>
    ensures task { (name : Text) → IfOk result (IsTask clock_time Subcommand.Sheet name (rows_of (found_of given.now))) }
    ensures faults { IsAnswerFor (faults_given Subcommand.Sheet (rows_of (found_of given.now))) result }
{
    let (first, second) = (text_in(given, "folder"), text_in(given, "case"));
    let input = text_in(given, "input");
    let (source, case) = both(
        sheet_source(alloc, clock_time, given),
        case_in(alloc, sheet_case(first, second, input)),
    )?;
    Ok(Task::Report(source, case_asked(Written::Sheet, clock_time, case)))
}

/// The page of a case of a folder, at the clock's time.
pub(crate) fn one_case(
    alloc: Global,
    clock_time: Instant,
    given: &ArgMatches<'_>,
) -> Result<Task, OptionsFault>
    ensures task { (name : Text) → IfOk result (IsTask clock_time Subcommand.Case name (rows_of (found_of given.now))) }
    ensures faults { IsAnswerFor (faults_given Subcommand.Case (rows_of (found_of given.now))) result }
{
    let (folder, case) = both(
        folder_in(alloc, given),
        case_in(alloc, text_in(given, "case")),
    )?;
    Ok(Task::Case(folder, case_asked(Written::Case, clock_time, case)))
}
