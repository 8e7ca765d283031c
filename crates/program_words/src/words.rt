//! What the words of the command line ask for.

ghost use Rattle.std.specs.Prelude.{◌≡◌, false, true, option_map, IfErr, IfOk};
ghost use Rattle.clap.specs.Faults.{is_simple_and_free};
ghost use Rattle.clap.specs.Walk.{texts};
ghost use Rattle.clap.specs.Words.{app_of, found_of, is_simple, rows_of, subcommand_rows_of};
ghost use Rattle.program_main.specs.Options.Words.{IsAnswerFor};
ghost use Rattle.program_words.specs.Asked.{IsAskedBy, IsAskedTask, IsMet, after_court, are_taken, faults_by, faults_met, faults_of, subcommand_named, takes_by};
ghost use Rattle.program_words.specs.CommandLine.{command_line, court_line};
ghost use Rattle.program_words.specs.Task.{IsTask, faults_given};

use crate::command::command;
use crate::court_commands::court_command;
use crate::courts::names_text;
use crate::given::missing;
use crate::subcommand::{Subcommand, court_meant, meant};
use crate::task::Task;
use crate::tasks::folder_in;
use crate::{court_tasks, input_tasks, kept_tasks, tasks};
use clap::{ArgMatches, Command};
use court_clock::Instant;
use program_main::{OptionsFault, fault_from};
use std::alloc::Global;

/// What a subcommand asks for with what it was given, by the clock's time.
fn task_of(
    alloc: Global,
    clock_time: Instant,
    subcommand: Subcommand,
    name: &str,
    given: &ArgMatches<'_>,
) -> Result<Task, OptionsFault>
    ensures task { IfOk result (IsTask clock_time subcommand name.now (rows_of (found_of given.now))) }
    ensures faults { IsAnswerFor (faults_given subcommand (rows_of (found_of given.now))) result }
{
    match subcommand {
        Subcommand::Init => tasks::init(alloc, given),
        Subcommand::Enter => input_tasks::enter(alloc, given),
        Subcommand::Try => input_tasks::trial(alloc, given),
        Subcommand::Ask => input_tasks::ask(alloc, clock_time, given),
        Subcommand::Plain => input_tasks::plain(alloc, given),
        Subcommand::Strike => tasks::strike(alloc, clock_time, given),
        Subcommand::Restore => tasks::restore(alloc, clock_time, given),
        Subcommand::Struck => kept_tasks::struck(alloc, clock_time, given),
        Subcommand::Cases => kept_tasks::cases(alloc, clock_time, given),
        Subcommand::Check => Ok(Task::Check(folder_in(alloc, given)?)),
        Subcommand::Rows => kept_tasks::rows(alloc, clock_time, given),
        Subcommand::Log => kept_tasks::log(alloc, clock_time, given),
        Subcommand::Report => tasks::report(alloc, clock_time, name, given),
        Subcommand::Memo => tasks::memo(alloc, clock_time, given),
        Subcommand::Sheet => tasks::sheet(alloc, clock_time, given),
        Subcommand::Case => tasks::one_case(alloc, clock_time, given),
        Subcommand::Court => Err(missing(alloc, "the command after 'court'")),
        Subcommand::CourtCheck => court_tasks::check(alloc, clock_time, given),
        Subcommand::CourtWrite => court_tasks::write(alloc, given),
        Subcommand::CourtUpdate => court_tasks::update(alloc, given),
        Subcommand::CourtChange => court_tasks::change(alloc, given),
    }
}

/// The subcommand of that name, after the word `court` or without it.
fn subcommand_named(of_court: bool, name: &str) -> Subcommand
    ensures { result ≡ subcommand_named of_court name.now }
{
    if of_court {
        court_meant(name)
    } else {
        meant(name)
    }
}

/// What the matches of words ask for.
fn task_met(
    alloc: Global,
    clock_time: Instant,
    of_court: bool,
    matches: &ArgMatches<'_>,
) -> Result<Task, OptionsFault>
    ensures task { IfOk result (IsMet of_court clock_time (subcommand_rows_of matches.now)) }
    ensures faults { IsAnswerFor (faults_met of_court (subcommand_rows_of matches.now)) result }
{
    match matches.subcommand() {
        Some((name, given)) => {
            let subcommand = subcommand_named(of_court, name);
            task_of(alloc, clock_time, subcommand, name, given)
        }
        // `clap` has refused words without a subcommand.
        None => Err(OptionsFault::OutOfMemory),
    }
}

/// What words ask for by a command line.
fn asked_by<'a>(
    alloc: Global,
    clock_time: Instant,
    command: Command<'a>,
    of_court: bool,
    words: &'a [&'a str],
) -> Result<Task, OptionsFault>
    ensures asked { is_simple (app_of command.entry) ≡ true → IfOk result (IsAskedBy (app_of command.entry) of_court clock_time (texts words.now)) }
    ensures faults { is_simple_and_free (app_of command.entry) ≡ true → IsAnswerFor (faults_by (app_of command.entry) of_court (texts words.now)) result }
    ensures taken { takes_by (app_of command.entry) of_court (texts words.now) ≡ true → IfErr result (λ fault. fault ≡ OptionsFault.OutOfMemory) }
{
    match command.try_get_matches_from(words) {
        Ok(matches) => task_met(alloc, clock_time, of_court, &matches),
        Err(error) => Err(fault_from(alloc, &error)),
    }
}

/// What the words after `court` ask for.
fn court_asked(alloc: Global, clock_time: Instant, words: &[&str]) -> Result<Task, OptionsFault>
    ensures asked { IfOk result (IsAskedBy court_line true clock_time (texts words.now)) }
    ensures faults { IsAnswerFor (faults_by court_line true (texts words.now)) result }
    ensures taken { takes_by court_line true (texts words.now) ≡ true → IfErr result (λ fault. fault ≡ OptionsFault.OutOfMemory) }
{
    let names = names_text(alloc)?;
    let command = court_command(alloc, names.as_str())?;
    asked_by(alloc, clock_time, command, true, words)
}

/// What words ask for that don't begin with `court`.
fn docket_asked(alloc: Global, clock_time: Instant, words: &[&str]) -> Result<Task, OptionsFault>
    ensures asked { IfOk result (IsAskedBy command_line false clock_time (texts words.now)) }
    ensures faults { IsAnswerFor (faults_by command_line false (texts words.now)) result }
    ensures taken { takes_by command_line false (texts words.now) ≡ true → IfErr result (λ fault. fault ≡ OptionsFault.OutOfMemory) }
{
    let command = command(alloc)?;
    asked_by(alloc, clock_time, command, false, words)
}

/// The words after the word `court`, if that is the first.
fn after_court<'a>(words: &'a [&'a str]) -> Option<&'a [&'a str]>
    ensures { option_map (λ rest. texts rest.now) result ≡ after_court (texts words.now) }
{
    match words {
        [first, rest @ ..] => { if *first == "court" { Some(rest) } else { None } }
        [] => None,
    }
}

/// What the words ask for, which are those after the program's name, at the clock's time. BadWords where the command line
/// doesn't take the words, or what a subcommand was given says nothing or doesn't go together; Help where they ask for the
/// help or the version first; and OutOfMemory where memory runs out.
pub fn asked_of(alloc: Global, clock_time: Instant, words: &[&str]) -> Result<Task, OptionsFault>
    ensures asked { IfOk result (IsAskedTask clock_time (texts words.now)) }
    ensures faults { IsAnswerFor (faults_of (texts words.now)) result }
    ensures taken { are_taken (texts words.now) ≡ true → IfErr result (λ fault. fault ≡ OptionsFault.OutOfMemory) }
{
    match after_court(words) {
        Some(rest) => court_asked(alloc, clock_time, rest),
        None => docket_asked(alloc, clock_time, words),
    }
}
