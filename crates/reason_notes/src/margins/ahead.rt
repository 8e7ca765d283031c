//! How far an end lies from a day.

ghost use Rattle.std.specs.Prelude.{◌≡◌, ◌++◌, OnOk, string_bytes};
ghost use Rattle.reason_notes.specs.Margins.Ahead.{ahead_line, ahead_of_day, ahead_text, as_of_text};

use crate::margins::ends::end_day;
use crate::margins::lines::push_days;
use court_clock::{Clock, Day};
use reason_texts::push_note;
use rule6::Shown;
use std::alloc::{AllocError, Global};
use std::fmt::Write;

/// Adds the line that says how many calendar days an end lies after a day, or before it. An end that isn't known has none.
/// `Err` says that memory ran out.
#[tactic(auto, unfolding(crate::specs::Margins::Ahead::ahead_line))]
pub fn push_ahead(
    alloc: Global,
    text: &mut String,
    clock: &Clock,
    today: Day,
    shown: &Shown,
) -> Result<(), AllocError>
    ensures { OnOk result (string_bytes text.new ≡ string_bytes text.old ++ ahead_line clock.now today shown.now) }
{
    push_ahead_of_day(alloc, text, today, end_day(clock, shown))
}

/// Adds the line of an end on that day.
fn push_ahead_of_day(
    alloc: Global,
    text: &mut String,
    today: Day,
    last: Option<Day>,
) -> Result<(), AllocError>
    ensures { OnOk result (string_bytes text.new ≡ string_bytes text.old ++ ahead_of_day today last) }
{
    match last {
        Some(last) => {
            let mut what = String::new(alloc);
            push_ahead_text(&mut what, today, last)?;
            let mut as_of = String::new(alloc);
            push_as_of(&mut as_of, today)?;
            push_note(text, Some(last), what.as_str(), as_of.as_str())
        }
        None => Ok(()),
    }
}

/// Adds how many days lie between the two.
#[tactic(auto, unfolding(crate::specs::Margins::Ahead::ahead_text))]
fn push_ahead_text(text: &mut String, today: Day, last: Day) -> Result<(), AllocError>
    ensures { OnOk result (string_bytes text.new ≡ string_bytes text.old ++ ahead_text today last) }
{
    let (now, end) = (today.number(), last.number());
    if now < end {
        text.push_str("in ")?;
        return push_days(text, (end - now).unsigned_abs());
    }
    if end < now {
        text.push_str("passed ")?;
        push_days(text, (now - end).unsigned_abs())?;
        return text.push_str(" ago");
    }
    text.push_str("today")
}

/// Adds from which day it is counted.
fn push_as_of(text: &mut String, today: Day) -> Result<(), AllocError>
    ensures { OnOk result (string_bytes text.new ≡ string_bytes text.old ++ as_of_text today) }
{
    write!(text, "as of {today}")
}
