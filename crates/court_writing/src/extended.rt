//! The text of a court's file with years added.

ghost use Rattle.std.specs.Prelude.{◌≡◌, ◌++◌, ◌⊎◌, ◌≤◌, [], ◌<ℤ◌, ◌≤ℤ◌, ◌+ℤ◌, codes, pos, string_bytes, IfOk, IfSome, OnOk};
ghost use Rattle.court_clock.specs.Words.{day_text};
ghost use Rattle.court_file_text.specs.Words.{key_name};
ghost use Rattle.court_holidays.specs.States.Words.{IsNear};
ghost use Rattle.court_writing.specs.Update.{IsExtended, IsLate, IsPut, IsWithLines, join_text, said_list, said_text};

use crate::lines::{Line, push_lines};
use crate::lists::days_after;
use crate::put::{Join, last_day_place, list_end, names_end, put};
use crate::update::{UpdateFault, Updated};
use crate::writing::last_day;
use court_clock::Day;
use court_days::{Days, HolidayList};
use court_file_text::Key;
use court_holidays::{State, later};
use std::alloc::{AllocError, Global};
use std::fmt::Write;

/// The text with the days of the court's lists after its last day, up to the end of the year, and what was added.
pub(crate) fn extended(
    alloc: Global,
    state: State,
    text: &[u8],
    before: &Days,
    to: u16,
) -> Result<Updated, UpdateFault>
    requires first { 2016 ≤ to }
    requires last { to ≤ 2199 }
    requires early { pos 0 ≤ℤ before.now.to }
    requires room { before.now.to <ℤ pos 84005 }
    ensures extended { IfOk result (λ updated. IsExtended state before.now.to to text.now updated.file.items (string_bytes updated.said)) }
    ensures late { IsLate result }
{
    let last = before.to();
    let first = day_after(last);
    let end = last_day(to);
    let federal = days_after(alloc, state, HolidayList::Federal, first, to)?;
    let of_state = days_after(alloc, state, HolidayList::State, first, to)?;
    let mut names = String::new(alloc);
    push_lines(&mut names, state, Line::Named, first, end)?;
    let with_last = with_last_day(alloc, text, last, end)?;
    let with_federal = with_days(alloc, &with_last, Key::Federal, federal.as_str())?;
    let with_state = with_days(alloc, &with_federal, Key::State, of_state.as_str())?;
    let file = with_names(alloc, &with_state, names.as_str())?;
    let said = said_of(alloc, last, end, federal.as_str(), of_state.as_str())?;
    Ok(Updated { file, said })
}

/// The day after a file's last one, which is before 31 December 2199.
fn day_after(last: Day) -> Day
    requires early { pos 0 ≤ℤ last }
    requires room { last <ℤ pos 84005 }
    ensures value { result ≡ last +ℤ pos 1 }
    ensures near { IsNear 0 result }
{
    later(last, 1)
}

/// What is said of the days that were added.
fn said_of(
    alloc: Global,
    last: Day,
    end: Day,
    federal: &str,
    of_state: &str,
) -> Result<String, AllocError>
    ensures { IfOk result (λ said. string_bytes said ≡ said_text last end federal.now of_state.now) }
{
    let mut said = String::new(alloc);
    write!(said, "to: {last}, now {end}\n")?;
    push_said(&mut said, Key::Federal, federal)?;
    push_said(&mut said, Key::State, of_state)?;
    Ok(said)
}

/// Adds what is said of a list, to which these lines were added.
fn push_said(said: &mut String, key: Key, lines: &str) -> Result<(), AllocError>
    ensures { OnOk result (string_bytes said.new ≡ string_bytes said.old ++ said_list (key_name key) lines.now) }
{
    if lines.is_empty() {
        push_none(said, key)
    } else {
        write!(said, "{key}: added are\n{lines}")
    }
}

/// Adds that no day is added to a list.
fn push_none(said: &mut String, key: Key) -> Result<(), AllocError>
    ensures { OnOk result (string_bytes said.new ≡ string_bytes said.old ++ (key_name key ++ codes ": no day is added\n")) }
{
    write!(said, "{key}: no day is added\n")
}

/// The text with another last day.
fn with_last_day(alloc: Global, text: &[u8], last: Day, end: Day) -> Result<Vec<u8>, UpdateFault>
    ensures put { IfOk result (λ put. IsPut (day_text last) (day_text end) text.now put.items) }
    ensures late { IsLate result }
{
    let Some(at) = last_day_place(alloc, text)? else {
        return Err(UpdateFault::NoPlace(Key::To));
    };
    let old = format!(in alloc; "{last}")?;
    let new = format!(in alloc; "{end}")?;
    match put(alloc, text, at, old.as_bytes(), new.as_bytes())? {
        Some(put) => Ok(put),
        None => Err(UpdateFault::NoPlace(Key::To)),
    }
}

/// The text with lines at the end of a list.
fn with_days(alloc: Global, text: &[u8], key: Key, lines: &str) -> Result<Vec<u8>, UpdateFault>
    ensures put { IfOk result (λ put. IsWithLines lines.now text.now put.items) }
    ensures late { IsLate result }
{
    if lines.is_empty() {
        return Ok(Vec::from_slice(alloc, text)?);
    }
    let Some((at, join)) = list_end(alloc, text, key)? else {
        return Err(UpdateFault::NoPlace(key));
    };
    match joined(alloc, text, at, join, lines)? {
        Some(put) => Ok(put),
        None => Err(UpdateFault::NoPlace(key)),
    }
}

/// The text with lines at the end of the table of names, if it has one.
fn with_names(alloc: Global, text: &[u8], lines: &str) -> Result<Vec<u8>, UpdateFault>
    ensures put { IfOk result (λ put. IsWithLines lines.now text.now put.items ⊎ (put.items ≡ text.now)) }
    ensures late { IsLate result }
{
    if lines.is_empty() {
        return Ok(Vec::from_slice(alloc, text)?);
    }
    let Some((at, join)) = names_end(text) else {
        return Ok(Vec::from_slice(alloc, text)?);
    };
    match joined(alloc, text, at, join, lines)? {
        Some(put) => Ok(put),
        None => Ok(Vec::from_slice(alloc, text)?),
    }
}

/// The text with lines that come after `at` bytes. None where the text has fewer.
fn joined(
    alloc: Global,
    text: &[u8],
    at: usize,
    join: Join,
    lines: &str,
) -> Result<Option<Vec<u8>>, AllocError>
    ensures { IfOk result (λ some. IfSome some (λ put. IsPut [] (join_text join ++ lines.now) text.now put.items)) }
{
    let joined = join.text();
    let added = format!(in alloc; "{joined}{lines}")?;
    put(alloc, text, at, &[], added.as_bytes())
}
