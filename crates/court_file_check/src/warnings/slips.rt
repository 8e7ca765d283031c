//! Dates of a list that do nothing, are there twice or aren't in order.

ghost use Rattle.std.specs.Prelude.{◌≡◌, ◌++◌, [], None, Ok, OnOk, IfOk, option_map};
ghost use Rattle.std.specs.Option.{option_to_list};
ghost use Rattle.toml.specs.Data.{Items};
ghost use Rattle.toml.specs.View.{array_view, items_view, table_view, view};
ghost use Rattle.court_file_text.specs.Words.{list_at};
ghost use Rattle.court_file_check.specs.Warnings.{day_of_data, later, slip_after, slip_of, slips_from};
ghost use Rattle.court_file_check.specs.AreWarnings.{slips_in};

use court_clock::Day;
use court_days::Days;
use court_file_text::{CourtFault, Key, list_at};
use std::alloc::{AllocError, Global};
use toml::{Table, Value};

/// The most dates that a holiday list may have in the file.
const MOST_DATES: usize = 4096;

/// What is unusual of a date, beside the last one before it that lies in the span.
#[derive(Clone, Copy, Debug, PartialEq, Eq)]
pub enum Slip {
    /// It lies outside the span, so that it does nothing.
    Outside,
    /// It is the same.
    Twice,
    /// It is earlier.
    Early,
}

/// The slips of the list at a key, each with the number of its item, counted from 0. There are none where there is no
/// such list. An `Err` says that memory ran out.
pub(crate) fn slips_at(
    alloc: Global,
    file: &Table,
    key: Key,
    days: &Days,
) -> Result<Vec<(usize, Slip)>, AllocError>
    ensures { IfOk result (λ slips. slips.items ≡ slips_in days.now (list_at key 4096 (table_view file.now))) }
{
    match list_at(file, key, MOST_DATES) {
        Ok(values) => slips_of(alloc, values, days),
        Err(CourtFault::OutOfMemory) => Err(AllocError),
        Err(_) => Ok(Vec::new(alloc)),
    }
}

/// Those of the items of a list.
fn slips_of(alloc: Global, values: &[Value], days: &Days) -> Result<Vec<(usize, Slip)>, AllocError>
    ensures { IfOk result (λ slips. slips.items ≡ slips_from days.now 0 None (items_view values.now)) }
{
    let mut slips = Vec::new(alloc);
    let mut before: Option<i32> = None;
    for (number, value) in values.iter().enumerate() {
        let day = day_of_item(value);
        push_if(&mut slips, number, slip_of(days, before, &day))?;
        before = later(days, before, &day);
    }
    Ok(slips)
}

/// The date that an item is.
pub(crate) fn day_of_item(value: &Value) -> Option<Day>
    ensures { result ≡ day_of_data (view value.now) }
{
    match value.as_str() {
        Some(text) => Day::from_text(text),
        None => None,
    }
}

/// What is unusual of a date after another.
fn slip_of(days: &Days, before: Option<i32>, day: &Option<Day>) -> Option<Slip>
    ensures { result ≡ slip_of days.now before day.now }
{
    match day {
        Some(day) if days.covered(*day) => slip_after(before, *day),
        Some(_) => Some(Slip::Outside),
        None => None,
    }
}

/// What is unusual of a date that lies in the span.
fn slip_after(before: Option<i32>, day: Day) -> Option<Slip>
    ensures { result ≡ slip_after before day }
{
    let before = before?;
    if before == day.number() {
        return Some(Slip::Twice);
    }
    if day.number() < before {
        Some(Slip::Early)
    } else {
        None
    }
}

/// The number of the last date that lies in the span, after one more.
fn later(days: &Days, before: Option<i32>, day: &Option<Day>) -> Option<i32>
    ensures { result ≡ later days.now before day.now }
{
    match day {
        Some(day) if days.covered(*day) => Some(day.number()),
        _ => before,
    }
}

/// Puts the slip, if there is one, at the end of the list.
fn push_if(
    list: &mut Vec<(usize, Slip)>,
    number: usize,
    slip: Option<Slip>,
) -> Result<(), AllocError>
    ensures { OnOk result (list.new.items ≡ list.old.items ++ option_to_list (option_map (λ slip. (number, slip)) slip)) }
{
    match slip {
        Some(slip) => {
            list.push((number, slip))?;
            Ok(())
        }
        None => Ok(()),
    }
}
