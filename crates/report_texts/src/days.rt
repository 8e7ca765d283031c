//! Days, with the day of the week.

ghost use Rattle.std.specs.Prelude.{◌≡◌, drop, encode_utf8, OnOk};
ghost use Rattle.std.specs.List.{flat_map};
ghost use Rattle.office_texts.specs.Words.{AddsText};
ghost use Rattle.report_texts.specs.Days.{month_day, short_day, weekday_name, whole_day};

use court_clock::Day;
use std::alloc::{AllocError, Global};
use std::fmt::Write;

/// Adds the day of the week and the date. `Err` says that memory ran out.
#[tactic(auto, unfolding(crate::specs::Days::whole_day))]
pub fn push_whole_day(text: &mut String, day: Day) -> Result<(), AllocError>
    ensures { OnOk result (AddsText text.old text.new (whole_day day)) }
{
    text.push_str(weekday_name(day.weekday()))?;
    write!(text, " {day}")
}

/// Adds the day of the week, the month and the day.
#[tactic(auto, unfolding(crate::specs::Days::short_day))]
pub(crate) fn push_short_day(alloc: Global, text: &mut String, day: Day) -> Result<(), AllocError>
    ensures { OnOk result (AddsText text.old text.new (short_day day)) }
{
    text.push_str(weekday_name(day.weekday()))?;
    text.push_str(" ")?;
    push_month_day(alloc, text, day)
}

/// Adds the date without its year.
fn push_month_day(alloc: Global, text: &mut String, day: Day) -> Result<(), AllocError>
    ensures { OnOk result (AddsText text.old text.new (month_day day)) }
{
    let date = format!(in alloc; "{day}")?;
    push_bytes_from(text, date.as_bytes(), 5)
}

/// Adds the characters that the bytes from a place on are, each by itself.
fn push_bytes_from(text: &mut String, bytes: &[u8], first: usize) -> Result<(), AllocError>
    ensures { OnOk result (AddsText text.old text.new (flat_map encode_utf8 (drop first bytes.now))) }
{
    match bytes.split_at_checked(first) {
        Some((_, rest)) => push_bytes(text, rest),
        None => Ok(()),
    }
}

/// Adds the characters that bytes are, each by itself.
fn push_bytes(text: &mut String, bytes: &[u8]) -> Result<(), AllocError>
    ensures { OnOk result (AddsText text.old text.new (flat_map encode_utf8 bytes.now)) }
{
    for byte in bytes {
        text.push(char::from(*byte))?;
    }
    Ok(())
}

/// The name of a day of the week, counted from 0 for Monday.
fn weekday_name(weekday: u8) -> &'static str
    ensures { result.now ≡ weekday_name weekday }
{
    match weekday {
        0 => "Mon",
        1 => "Tue",
        2 => "Wed",
        3 => "Thu",
        4 => "Fri",
        5 => "Sat",
        _ => "Sun",
    }
}
