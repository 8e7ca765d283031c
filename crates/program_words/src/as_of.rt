//! As of when a folder is read, by what was given.

ghost use Rattle.std.specs.Prelude.{◌≡◌, ◌<◌, is_some, option_map, IfOk};
ghost use Rattle.clap.specs.Words.{found_of, rows_of};
ghost use Rattle.program_main.specs.Options.Words.{IsAnswerFor};
ghost use Rattle.program_words.specs.AsOf.{as_of_faults, as_of_in, as_of_said, cut_at, is_as_of, report_as_of_faults, second_at, second_of_text, second_said, time_said, two_digits};

use crate::given::{apart, both, is_given, text_in};
use crate::task::AsOf;
use crate::values::unread;
use clap::ArgMatches;
use court_clock::{Day, Instant, minute_from_text};
use program_main::{OptionsFault, day_said, number_of};
use std::alloc::Global;

/// How the words call it.
const SHOWN: &str = "--as-of <ROW|DAY|TIME>";

/// What is said where it is given with an input.
const NOT_OF_AN_INPUT: &str =
    "'--as-of <ROW|DAY|TIME>' counts for a folder, and doesn't go with '--input <FILE>'";

/// How a row, a day or a time is written.
const HOW_SAID: &str =
    "write the number of a row, a day as 2025-09-15, today, yesterday or -3d, or a time as 2025-09-15T14:05 or 2025-09-15T14:05:09";

/// The text before the first such character, which is one of ASCII, and the text after it.
#[tactic(auto, unfolding(crate::specs::AsOf::cut_at))]
fn cut_at(text: &str, mark: char) -> Option<(&str, &str)>
    requires { mark < 128 }
    ensures { option_map (λ cut. (cut.0.now, cut.1.now)) result ≡ cut_at mark text.now }
{
    text.split_once(mark)
}

/// The number that two decimal digits write.
fn two_digits(text: &str) -> Option<u32>
    ensures { result ≡ two_digits text.now }
{
    if text.len() == 2 {
        number_of(text)
    } else {
        None
    }
}

/// The second of the day at that hour, minute and second.
fn second_at(hour: u32, minute: u32, second: u32) -> Option<u32>
    ensures { result ≡ second_at hour minute second }
{
    if hour < 24 && minute < 60 && second < 60 {
        Some(3_600 * hour + 60 * minute + second)
    } else {
        None
    }
}

/// The second of the day that a text says as `14:05:09`.
#[tactic(auto, unfolding(crate::specs::AsOf::second_of_text))]
fn second_of_text(text: &str) -> Option<u32>
    ensures { result ≡ second_of_text text.now }
{
    let (hour, rest) = cut_at(text, ':')?;
    let (minute, second) = cut_at(rest, ':')?;
    let hour = two_digits(hour)?;
    let minute = two_digits(minute)?;
    let second = two_digits(second)?;
    second_at(hour, minute, second)
}

/// The same, or the last second of a minute that it says as `14:05`.
#[tactic(auto, unfolding(crate::specs::AsOf::second_said))]
fn second_said(text: &str) -> Option<u32>
    ensures { result ≡ second_said text.now }
{
    match minute_from_text(text) {
        Some(minute) => Some(60 * u32::from(minute) + 59),
        None => second_of_text(text),
    }
}

/// The second of a day that a text says as `2025-09-15T14:05:09`, or the last of a minute as `2025-09-15T14:05`.
#[tactic(auto, unfolding(crate::specs::AsOf::time_said))]
fn time_said(text: &str) -> Option<AsOf>
    ensures { result ≡ time_said text.now }
{
    let (day, time) = cut_at(text, 'T')?;
    let day = Day::from_text(day)?;
    let second = second_said(time)?;
    Some(AsOf::Second(day, second))
}

/// What a text says. None where it says no row, no day and no time.
fn as_of_said(clock_time: Instant, text: &str) -> Option<AsOf>
    ensures said { result ≡ as_of_said clock_time text.now }
    ensures is_said { is_some result ≡ is_as_of text.now }
{
    match number_of(text) {
        Some(row) => Some(AsOf::Row(row)),
        None => match day_said(text) {
            Some(day) => Some(AsOf::Day(day, clock_time)),
            None => time_said(text),
        },
    }
}

/// As of when a folder is read, at the clock's time, if that was given. BadWords where its text says no row, no day and no time.
pub(crate) fn as_of_in(
    alloc: Global,
    clock_time: Instant,
    given: &ArgMatches<'_>,
) -> Result<Option<AsOf>, OptionsFault>
    ensures as_of { IfOk result (λ as_of. as_of ≡ as_of_in clock_time (rows_of (found_of given.now))) }
    ensures faults { IsAnswerFor (as_of_faults (rows_of (found_of given.now))) result }
{
    match text_in(given, "as-of") {
        None => Ok(None),
        Some(text) => match as_of_said(clock_time, text) {
            Some(as_of) => Ok(Some(as_of)),
            None => Err(unread(alloc, text, SHOWN, HOW_SAID)),
        },
    }
}

/// The same for a report. BadWords also where an input is given.
pub(crate) fn report_as_of(
    alloc: Global,
    clock_time: Instant,
    given: &ArgMatches<'_>,
) -> Result<Option<AsOf>, OptionsFault>
    ensures as_of { IfOk result (λ as_of. as_of ≡ as_of_in clock_time (rows_of (found_of given.now))) }
    ensures faults { IsAnswerFor (report_as_of_faults (rows_of (found_of given.now))) result }
{
    let has_as_of = is_given(given, "as-of");
    let has_input = is_given(given, "input");
    let (_, as_of) = both(
        apart(alloc, has_as_of, has_input, NOT_OF_AN_INPUT),
        as_of_in(alloc, clock_time, given),
    )?;
    Ok(as_of)
}
