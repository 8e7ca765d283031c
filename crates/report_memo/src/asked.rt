//! What the options ask for.

ghost use Rattle.std.specs.Prelude.{◌≡◌, ◌∷◌, [], true, option_map, IfErr, IfOk};
ghost use Rattle.std.specs.Option.{option_and_then};
ghost use Rattle.clap.specs.declared.error.kind.ErrorKind.{ErrorKind};
ghost use Rattle.clap.specs.Words.{found_of, rows_of};
ghost use Rattle.court_clock.specs.Words.{day_of_text};
ghost use Rattle.program_main.specs.Options.Words.{IsAnswerFor, IsFaultAmong};
ghost use Rattle.report_memo.specs.Asked.{IsAskedBy, are_given_taken, day_counts, day_made, faults_given, faults_of_day};

use clap::ArgMatches;
use court_clock::{Day, Instant};
use court_days::Court;
use office_texts::CaseCalled;
use program_main::{OptionsFault, case_option, day_option, today_by};
use std::alloc::Global;

/// What is asked for: the memo of one case, or of all rows where no case is named.
#[derive(Debug, Drop)]
pub struct Asked {
    /// A case, by its number or by its name.
    pub case: Option<CaseCalled>,
    /// The day from which its deadlines are counted.
    pub today: Option<Day>,
    /// The instant that the clock shows, by which the memo of a folder is made where no day is given.
    pub clock_time: Instant,
    /// Whether it is a page.
    pub html: bool,
}

/// What is asked for by the texts of the options `case` and `today` that were given, at the clock's time, as a page where `html` says
/// so. BadWords where a text calls no case or writes no day, or where a day is given and no case, and OutOfMemory where memory runs
/// out.
pub fn asked_by(
    alloc: Global,
    clock_time: Instant,
    html: bool,
    given: &ArgMatches<'_>,
) -> Result<Asked, OptionsFault>
    ensures asked { IfOk result (λ asked. IsAskedBy (rows_of (found_of given.now)) asked) }
    ensures timed { IfOk result (λ asked. asked.clock_time ≡ clock_time) }
    ensures shown { IfOk result (λ asked. asked.html ≡ html) }
    ensures faults { IsAnswerFor (faults_given (rows_of (found_of given.now))) result }
    ensures taken { are_given_taken (rows_of (found_of given.now)) ≡ true → IfErr result (λ fault. fault ≡ OptionsFault.OutOfMemory) }
{
    let case = match case_option(alloc, given.get_str("case")) {
        Ok(case) => case,
        Err(fault) => return Err(fault),
    };
    match day_asked(alloc, given.get_str("today"), given.get_str("case")) {
        Ok(today) => Ok(Asked {
            case,
            today,
            clock_time,
            html,
        }),
        Err(fault) => Err(fault),
    }
}

/// The day that the text of its option writes, where it is given. It counts for a case alone.
fn day_asked(
    alloc: Global,
    today: Option<&str>,
    case: Option<&str>,
) -> Result<Option<Day>, OptionsFault>
    ensures day { IfOk result (λ day. day ≡ option_and_then day_of_text (option_map (λ text. text.now) today.entry)) }
    ensures faults { IsAnswerFor (faults_of_day (option_map (λ text. text.now) today.entry) (option_map (λ text. text.now) case.entry)) result }
    ensures taken { day_counts (option_map (λ text. text.now) today.entry) (option_map (λ text. text.now) case.entry) ≡ true → IfErr result (λ fault. fault ≡ OptionsFault.OutOfMemory) }
{
    match (today, case) {
        (None, _) => Ok(None),
        (Some(_), None) => Err(without_case(alloc)),
        (Some(text), Some(_)) => day_option(alloc, "today", Some(text)),
    }
}

/// The day on which the memo of a folder is made: the one that is asked for, or else the one that the court's clock shows.
pub fn day_made(court: &Court, asked: &Asked) -> Day
    ensures { result ≡ day_made court.now asked.now }
{
    match asked.today {
        Some(day) => day,
        None => today_by(court.clock(), asked.clock_time),
    }
}

/// A day is given and no case.
fn without_case(alloc: Global) -> OptionsFault
    ensures { IsFaultAmong (ErrorKind.MissingRequiredArgument ∷ []) result }
{
    match String::from_str(
        alloc,
        "error: '--today <DAY>' counts for one case: name it by '--case <N>'\n\nFor more information, try '--help'.\n",
    ) {
        Ok(text) => OptionsFault::BadWords(text),
        Err(_) => OptionsFault::OutOfMemory,
    }
}
