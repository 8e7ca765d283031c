//! The lists of holidays.

ghost use Rattle.std.specs.Prelude.{◌≡◌, ◌≤◌, ◌+◌, ◌-◌, ◌++◌, IfOk, OnOk, pos, string_bytes};
ghost use Rattle.court_holidays.specs.States.Words.{IsNear, IsStated};
ghost use Rattle.court_writing.specs.Named.{lines_of_year, list_begin, list_text, year_lines, years_from};
ghost use Rattle.court_writing.specs.Update.{IsLate, lines_after};

use crate::lines::{Line, push_lines};
use crate::sources::list_source;
use crate::update::UpdateFault;
use court_clock::Day;
use court_days::HolidayList;
use court_holidays::{State, on, year_of};
use std::alloc::{AllocError, Global};
use std::fmt::Write;

/// Adds a list of holidays of the years from the first to the last, with what is said of it.
pub(crate) fn push_list(
    alloc: Global,
    text: &mut String,
    state: State,
    list: HolidayList,
    note: &str,
    from: u16,
    to: u16,
) -> Result<(), AllocError>
    requires first { 2016 ≤ from }
    requires order { from ≤ to }
    requires last { to ≤ 2199 }
    ensures { OnOk result (string_bytes text.new ≡ string_bytes text.old ++ list_text state list note.now from to) }
{
    text.push_str(list_source(state, list))?;
    text.push_str(note)?;
    text.push_str(list_begin(list))?;
    push_years(alloc, text, state, list, from, to + 1 - from)?;
    text.push_str("]\n")
}

/// What comes between what is said of the list and its days.
fn list_begin(list: HolidayList) -> &'static str
    ensures { result.now ≡ list_begin list }
{
    match list {
        HolidayList::Federal => "federal = [\n",
        HolidayList::State => {
            "# Holidays of the state count only in periods measured after an event, Rule 6(a)(6)(C).\nstate = [\n"
        }
    }
}

/// Adds the lines of that many years, from a first one on.
fn push_years(
    alloc: Global,
    text: &mut String,
    state: State,
    list: HolidayList,
    first: u16,
    count: u16,
) -> Result<(), AllocError>
    requires first { 2016 ≤ first }
    requires last { first + count ≤ 2200 }
    ensures { OnOk result (string_bytes text.new ≡ string_bytes text.old ++ years_from state list first count) }
{
    for place in 0..count {
        push_year(alloc, text, state, list, first + place)?;
    }
    Ok(())
}

/// Adds the lines of a year's holidays, after a line with the year where it has some.
fn push_year(
    alloc: Global,
    text: &mut String,
    state: State,
    list: HolidayList,
    year: u16,
) -> Result<(), AllocError>
    requires { IsStated (pos year) }
    ensures { OnOk result (string_bytes text.new ≡ string_bytes text.old ++ lines_of_year state list year) }
{
    let mut lines = String::new(alloc);
    let first = on(year as i16, 1, 1);
    push_lines(
        &mut lines,
        state,
        Line::Listed(list),
        first,
        on(year as i16, 12, 31),
    )?;
    push_headed(text, year, lines.as_str())
}

/// Adds these lines after one with the year, if there are some.
fn push_headed(text: &mut String, year: u16, lines: &str) -> Result<(), AllocError>
    ensures { OnOk result (string_bytes text.new ≡ string_bytes text.old ++ year_lines year lines.now) }
{
    if lines.is_empty() {
        return Ok(());
    }
    write!(text, "    # {year}\n{lines}")
}

/// The lines of the days from a first one to the end of a year.
pub(crate) fn days_after(
    alloc: Global,
    state: State,
    list: HolidayList,
    first: Day,
    to: u16,
) -> Result<String, UpdateFault>
    requires near { IsNear 0 first }
    requires last { to ≤ 2199 }
    ensures days { IfOk result (λ lines. string_bytes lines ≡ lines_after state list first to) }
    ensures late { IsLate result }
{
    let year = year_of(first);
    if year < 2016 || to < year as u16 {
        return Err(UpdateFault::NotReadBack);
    }
    let mut rest = String::new(alloc);
    let line = Line::Listed(list);
    push_lines(&mut rest, state, line, first, on(year, 12, 31))?;
    let year = year as u16;
    let mut lines = String::new(alloc);
    push_headed(&mut lines, year, rest.as_str())?;
    push_years(alloc, &mut lines, state, list, year + 1, to - year)?;
    Ok(lines)
}
