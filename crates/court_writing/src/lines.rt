//! The lines of days: one in a list, and one in the table of names.

ghost use Rattle.std.specs.Prelude.{◌≡◌, ◌++◌, OnOk, string_bytes};
ghost use Rattle.court_holidays.specs.States.Words.{IsNear};
ghost use Rattle.court_writing.specs.Named.{doubt_text, line_on, lines_through, list_line, mark_text, name_line, observed_text, place_text};

use crate::holiday::{Holiday, either_on, listed_on};
use court_clock::Day;
use court_days::HolidayList;
use court_holidays::{State, count_through, day_at, earlier, later};
use std::alloc::AllocError;
use std::fmt::Write;

/// A line that is written of a day.
#[derive(Clone, Copy)]
pub(crate) enum Line {
    /// In that list.
    Listed(HolidayList),
    /// In the table of names.
    Named,
}

/// Adds the lines of the days from the first to the last that are listed.
pub(crate) fn push_lines(
    text: &mut String,
    state: State,
    line: Line,
    first: Day,
    last: Day,
) -> Result<(), AllocError>
    requires from { IsNear 0 first }
    requires to { IsNear 0 last }
    ensures { OnOk result (string_bytes text.new ≡ string_bytes text.old ++ lines_through state line first last) }
{
    let count = count_through(first, last);
    for place in 0..count {
        push_line(text, state, line, day_at(first, last, place))?;
    }
    Ok(())
}

/// Adds the line of a day, if it is listed.
fn push_line(text: &mut String, state: State, line: Line, day: Day) -> Result<(), AllocError>
    requires { IsNear 0 day }
    ensures { OnOk result (string_bytes text.new ≡ string_bytes text.old ++ line_on state line day) }
{
    match line {
        Line::Listed(list) => match listed_on(state, list, day) {
            Some(holiday) => push_list_line(text, state, day, holiday),
            None => Ok(()),
        },
        Line::Named => match either_on(state, day) {
            Some(holiday) => push_name_line(text, state, day, holiday),
            None => Ok(()),
        },
    }
}

/// Adds the line of a holiday in its list.
fn push_list_line(
    text: &mut String,
    state: State,
    day: Day,
    holiday: Holiday,
) -> Result<(), AllocError>
    requires { IsNear 0 day }
    ensures { OnOk result (string_bytes text.new ≡ string_bytes text.old ++ list_line state day holiday) }
{
    let (name, doubt) = (holiday.name(), doubt_text(holiday.is_doubted()));
    write!(text, "    \"{day}\", # {name}")?;
    push_place(text, holiday.is_set(state, day), day)?;
    write!(text, "{doubt}\n")
}

/// Adds the day that the law sets for a holiday which is listed on another.
fn push_place(text: &mut String, is_set: bool, day: Day) -> Result<(), AllocError>
    requires { IsNear 0 day }
    ensures { OnOk result (string_bytes text.new ≡ string_bytes text.old ++ place_text is_set day) }
{
    if is_set {
        return Ok(());
    }
    match day.weekday() {
        4 => {
            let saturday = later(day, 1);
            write!(text, " (for Saturday, {saturday})")
        }
        _ => {
            let sunday = earlier(day, 1);
            write!(text, " (for Sunday, {sunday})")
        }
    }
}

/// Adds what a holiday is called, and the law that makes its day one.
fn push_name_line(
    text: &mut String,
    state: State,
    day: Day,
    holiday: Holiday,
) -> Result<(), AllocError>
    ensures { OnOk result (string_bytes text.new ≡ string_bytes text.old ++ name_line state day holiday) }
{
    let (name, observed) = (holiday.name(), observed_text(holiday.is_set(state, day)));
    let (mark, law) = (mark_text(holiday.is_doubted()), holiday.law(state, day));
    write!(text, "{day} = \"{name}{observed}{mark}\" # {law}\n")
}

/// What follows the name of a holiday that is observed on the day in place of another.
fn observed_text(is_set: bool) -> &'static str
    ensures { result.now ≡ observed_text is_set }
{
    if is_set { "" } else { ", observed" }
}

/// What is said of a doubtful day in its list.
fn doubt_text(is_doubted: bool) -> &'static str
    ensures { result.now ≡ doubt_text is_doubted }
{
    if is_doubted {
        "; doubtful, for the court to say"
    } else {
        ""
    }
}

/// What the name of a doubtful day ends with. By it a memo gives the end by the reading that the day is no holiday.
fn mark_text(is_doubted: bool) -> &'static str
    ensures { result.now ≡ mark_text is_doubted }
{
    if is_doubted { " (doubtful)" } else { "" }
}
