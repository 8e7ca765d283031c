//! What to write in place of what was found.

use crate::periods::parts_entered;
use court_clock::Day;
use row_fields::{DateOrder, Said, date_said, folded, time_said};
use row_forms::Column;
use row_written::{Fault, Flaw};
use std::alloc::{AllocError, Global};

/// Whether a byte divides the parts of a date in numbers.
fn divides(byte: u8) -> bool {
    byte == b'/' || byte == b'-' || byte == b'.' || byte == b' '
}

/// Whether the text ends with a year of two digits.
fn has_short_year(text: &[u8]) -> bool {
    match text {
        [.., mark, tens, units] => {
            divides(*mark) && tens.is_ascii_digit() && units.is_ascii_digit()
        }
        _ => false,
    }
}

/// Whether the text begins with a year of four digits.
fn has_year_first(text: &[u8]) -> bool {
    match text {
        [a, b, c, d, ..] => {
            a.is_ascii_digit() && b.is_ascii_digit() && c.is_ascii_digit() && d.is_ascii_digit()
        }
        _ => false,
    }
}

/// What is said of a date that another order would give.
fn in_other_order(alloc: Global, order: DateOrder, day: Day) -> Result<String, AllocError> {
    match order {
        DateOrder::MonthFirst => {
            format!(in alloc;
                "with the day first it would be {day}, but --dates says that the month is first"
            )
        }
        DateOrder::DayFirst => {
            format!(in alloc;
                "with the month first it would be {day}, but --dates says that the day is first"
            )
        }
    }
}

/// What to write in place of what is no date.
fn for_date(alloc: Global, order: Option<DateOrder>, found: &str) -> Result<String, AllocError> {
    if let Some(order) = order {
        if let Said::Clear(day) = date_said(alloc, None, found)? {
            return in_other_order(alloc, order, day);
        }
    }
    let bytes = found.as_bytes();
    let is_year_first = has_year_first(bytes);
    if is_year_first && bytes.len() > 8 && bytes.len() <= 10 {
        return String::from_str(
            alloc,
            "the calendar has no such day, or its year isn't one from 1900 to 2199",
        );
    }
    if has_short_year(bytes) && !is_year_first && bytes.len() <= 9 {
        return String::from_str(alloc, "write the year with four digits");
    }
    Ok(String::new(alloc))
}

/// What to write in place of what is no time of day there.
fn for_time(alloc: Global, found: &str) -> Result<String, AllocError> {
    match time_said(alloc, found)? {
        Some(_) => String::from_str(alloc, "a hearing begins on a quarter hour, as 10:15"),
        None => Ok(String::new(alloc)),
    }
}

/// Whether the text is one or more digits.
fn is_digits(text: &str) -> bool {
    !text.is_empty() && text.bytes().all(|byte| byte.is_ascii_digit())
}

/// Whether the text is made of digits, blanks and dots.
fn is_broken_number(text: &str) -> bool {
    !text.is_empty()
        && text.bytes().all(|byte| byte.is_ascii_digit() || byte == b' ' || byte == b'.')
}

/// What to write in place of what is no number.
fn for_number(alloc: Global, found: &str) -> Result<String, AllocError> {
    if let Some((whole, rest)) = found.split_once('.') {
        if is_digits(whole) && is_digits(rest) && rest.bytes().all(|byte| byte == b'0') {
            return format!(in alloc; "write {whole}");
        }
    }
    if !is_digits(found) && is_broken_number(found) {
        return String::from_str(alloc, "a number has no blanks and no dots in it");
    }
    Ok(String::new(alloc))
}

/// What to write where a field may be two periods, of which this is one.
fn for_two_periods(one: &str) -> &'static str {
    if one.as_bytes().contains(&b'/') {
        "write the one that is meant: docs/law/RULES.md says when"
    } else {
        "12a1Aii-us is for a request that was sent to a place in the United States, 12a1Aii-abroad for one sent abroad"
    }
}

/// What to write where a field may be two things, of which this is one.
fn for_two(column: Column, one: &str) -> &'static str {
    match column {
        Column::Period | Column::Deadline => for_two_periods(one),
        Column::Judge | Column::Judges | Column::Room =>
            "write the name as the court's file has it",
        _ =>
            "say which comes first by --dates month-first or --dates day-first, or write the date as 2025-09-02",
    }
}

/// What to do about a fault; empty where what is expected says it.
pub(crate) fn advice(
    alloc: Global,
    order: Option<DateOrder>,
    fault: &Fault,
) -> Result<String, AllocError> {
    let found = fault.value.as_str();
    match fault.flaw {
        Flaw::Unknown(
            Column::Date
            | Column::SecondOrNone
            | Column::ResumeDay
            | Column::Notice
            | Column::Grant,
        ) => for_date(alloc, order, found),
        Flaw::Unknown(Column::Time | Column::Start) => for_time(alloc, found),
        Flaw::Unknown(
            Column::Clerk
            | Column::Case
            | Column::Deadline
            | Column::Motion
            | Column::Need
            | Column::Slots,
        ) => for_number(alloc, found),
        Flaw::Unknown(Column::Period) => {
            let word = folded(alloc, found)?;
            parts_entered(alloc, word.as_str())
        }
        Flaw::Unclear(column) => String::from_str(alloc, for_two(column, fault.one.as_str())),
        Flaw::Excess => String::from_str(alloc, "a field with a comma in it is written in quotes"),
        _ => Ok(String::new(alloc)),
    }
}
