//! What a field says, by what its column holds, as a plain row writes it.

ghost use Rattle.std.specs.Prelude.{◌≡◌, ◌++◌, ◌<◌, IfOk, OnOk, string_bytes};
ghost use Rattle.std.specs.Option.{is_some};
ghost use Rattle.court_file_text.specs.Words.{text_named};
ghost use Rattle.jiff_fmt.specs.Text.{pad2};
ghost use Rattle.court_clock.specs.Words.{day_text};
ghost use Rattle.row_forms.specs.Words.{names_of};
ghost use Rattle.row_fields.specs.Words.{date_said, said_map, time_said};
ghost use Rattle.row_written.specs.Fields.{ending_said, ending_why_said, field_said, filled_said, grant_said, is_quarters, may_be_empty, need_said, or_own, period_said, slots_said, time_if, word_said};
ghost use Rattle.row_written.specs.Subjects.{clear_if};

use crate::names::{Named, name_said, owned, panel_said};
use crate::subjects::{
    case_said, deadline_said, motion_said, number_or_label, number_said, text_said,
};
use court_clock::Day;
use court_days::Court;
use row_fields::{
    DateOrder, Said, act_said, answer_said, bare, closing_said, counted_said, date_said, folded,
    list_said, means_said, ruling_said, section_said, service_said, time_said, why_said,
};
use row_forms::{Column, is_number};
use std::alloc::{AllocError, Global};

// Whether it is a number of quarter hours, before a `q`.
fn is_quarters(text: &[u8]) -> bool
    ensures { result ≡ is_quarters text.now }
{
    text.ends_with(b"q") && is_number(text.split_at(text.len() - 1).0)
}

// How many slots: half hours, or quarter hours.
fn slots_said(alloc: Global, text: &str) -> Result<Said<String>, AllocError>
    ensures { IfOk result (λ said. said_map string_bytes said ≡ slots_said text.now) }
{
    if is_number(text.as_bytes()) {
        return Ok(Said::Clear(String::from_str(alloc, text)?));
    }
    let text = bare(alloc, text)?;
    if is_quarters(text.as_bytes()) {
        Ok(Said::Clear(text))
    } else {
        Ok(Said::Unknown)
    }
}

// The texts of days.
fn day_texts(alloc: Global, said: Said<Day>) -> Result<Said<String>, AllocError>
    ensures { IfOk result (λ texts. said_map string_bytes texts ≡ said_map day_text said) }
{
    match said {
        Said::Unknown => Ok(Said::Unknown),
        Said::Clear(day) => Ok(Said::Clear(format!(in alloc; "{day}")?)),
        Said::Unclear(day, other) => {
            let day = format!(in alloc; "{day}")?;
            let other = format!(in alloc; "{other}")?;
            Ok(Said::Unclear(day, other))
        }
    }
}

// A date.
fn day_said(alloc: Global, order: Option<DateOrder>, text: &str) -> Result<Said<String>, AllocError>
    ensures { IfOk result (λ said. said_map string_bytes said ≡ said_map day_text (date_said order text.now)) }
{
    let said = date_said(alloc, order, text)?;
    day_texts(alloc, said)
}

// Adds a number below 100 in two digits.
fn push_two(text: &mut String, number: u16) -> Result<(), AllocError>
    requires { number < 100 }
    ensures { OnOk result (string_bytes text.new ≡ string_bytes text.old ++ pad2 number) }
{
    text.push(char::from(b'0' + (number / 10) as u8))?;
    text.push(char::from(b'0' + (number % 10) as u8))?;
    Ok(())
}

// A time of day.
fn minute_said(alloc: Global, text: &str) -> Result<Said<String>, AllocError>
    ensures { IfOk result (λ said. said_map string_bytes said ≡ time_if (time_said text.now)) }
{
    match time_said(alloc, text)? {
        Some(minute) => {
            let mut text = String::new(alloc);
            push_two(&mut text, minute / 60)?;
            text.push_str(":")?;
            push_two(&mut text, minute % 60)?;
            Ok(Said::Clear(text))
        }
        None => Ok(Said::Unknown),
    }
}

// A time of day, or the end of the day.
fn ending_said(alloc: Global, text: &str) -> Result<Said<String>, AllocError>
    ensures { IfOk result (λ said. said_map string_bytes said ≡ ending_said text.now) }
{
    let whole = bare(alloc, text)?;
    if whole.as_str() == "24:00" {
        Ok(Said::Clear(whole))
    } else {
        minute_said(alloc, text)
    }
}

// The words of a table, for a text that is folded.
fn word_said(alloc: Global, column: Column, text: &str) -> Result<Said<String>, AllocError>
    ensures { IfOk result (λ said. said_map string_bytes said ≡ word_said column text.now) }
{
    let word = folded(alloc, text)?;
    let said = match column {
        Column::Means => means_said(word.as_str()),
        Column::ByMotion | Column::Cause | Column::Neglect => answer_said(word.as_str()),
        Column::Holidays => list_said(word.as_str()),
        Column::ServiceOrNone => service_said(word.as_str()),
        Column::Act => act_said(word.as_str()),
        Column::Why => why_said(word.as_str()),
        Column::Closing => closing_said(word.as_str()),
        Column::Ruling => ruling_said(word.as_str()),
        Column::Counted => counted_said(word.as_str()),
        _ => section_said(word.as_str()),
    };
    owned(alloc, said)
}

// A period: the number of a section of the Rules or of a statute, the court's own name for one, or one with slashes, which a court
// enters.
fn period_said(alloc: Global, court: &Court, text: &str) -> Result<Said<String>, AllocError>
    ensures { IfOk result (λ said. said_map string_bytes said ≡ period_said (names_of court.now) text.now) }
{
    if text.as_bytes().contains(&b'/') {
        Ok(Said::Clear(bare(alloc, text)?))
    } else {
        let said = word_said(alloc, Column::Period, text)?;
        or_own(alloc, court, text, said)
    }
}

// A name that the court's file gives to a period, where a field says nothing else.
fn or_own(
    alloc: Global,
    court: &Court,
    text: &str,
    said: Said<String>,
) -> Result<Said<String>, AllocError>
    ensures { IfOk result (λ found. said_map string_bytes found ≡ or_own court.now.periods.texts text.now (said_map string_bytes said)) }
{
    match said {
        Said::Unknown => own_said(alloc, court, text),
        Said::Clear(plain) => Ok(Said::Clear(plain)),
        Said::Unclear(one, other) => Ok(Said::Unclear(one, other)),
    }
}

// A name that the court's file gives to a period.
fn own_said(alloc: Global, court: &Court, text: &str) -> Result<Said<String>, AllocError>
    ensures { IfOk result (λ said. said_map string_bytes said ≡ clear_if (is_some (text_named court.now.periods.texts text.now)) text.now) }
{
    match court.period_text(text) {
        Some(_) => Ok(Said::Clear(String::from_str(alloc, text)?)),
        None => Ok(Said::Unknown),
    }
}

// Why a deadline is due no more: a word, or one with a colon and the number of the motion that suspends it.
fn ending_why_said(alloc: Global, text: &str) -> Result<Said<String>, AllocError>
    ensures { IfOk result (λ said. said_map string_bytes said ≡ ending_why_said text.now) }
{
    if text.as_bytes().contains(&b':') {
        Ok(Said::Clear(bare(alloc, text)?))
    } else {
        word_said(alloc, Column::Why, text)
    }
}

// An extension: a plus and a length, or a date.
fn grant_said(
    alloc: Global,
    order: Option<DateOrder>,
    text: &str,
) -> Result<Said<String>, AllocError>
    ensures { IfOk result (λ said. said_map string_bytes said ≡ grant_said order text.now) }
{
    let length = bare(alloc, text)?;
    if length.as_bytes().starts_with(b"+") {
        Ok(Said::Clear(length))
    } else {
        day_said(alloc, order, text)
    }
}

// The notice that a motion needs: a number of days, or none.
fn need_said(alloc: Global, text: &str) -> Result<Said<String>, AllocError>
    ensures { IfOk result (λ said. said_map string_bytes said ≡ need_said text.now) }
{
    let word = folded(alloc, text)?;
    if word.as_str() == "exparte" {
        Ok(Said::Clear(word))
    } else {
        number_said(alloc, text)
    }
}

// Whether a column may be empty.
fn may_be_empty(column: Column) -> bool
    ensures { result ≡ may_be_empty column }
{
    matches!(
        column,
        Column::TimeOrNone
            | Column::SecondOrNone
            | Column::ServiceOrNone
            | Column::ResumeDay
            | Column::JudgeOrNone
    )
}

// What a field says that isn't left empty.
fn filled_said(
    alloc: Global,
    court: &Court,
    order: Option<DateOrder>,
    column: Column,
    text: &str,
) -> Result<Said<String>, AllocError>
    ensures { IfOk result (λ said. said_map string_bytes said ≡ filled_said (names_of court.now) order column text.now) }
{
    match column {
        Column::Command => Ok(Said::Clear(folded(alloc, text)?)),
        Column::Clerk => number_said(alloc, text),
        Column::Deadline => deadline_said(alloc, text),
        Column::Motion => motion_said(alloc, text),
        Column::Case => case_said(alloc, text),
        Column::Date | Column::Notice | Column::Dated => day_said(alloc, order, text),
        Column::SecondOrNone | Column::ResumeDay => day_said(alloc, order, text),
        Column::Time | Column::Start | Column::TimeOrNone | Column::From => {
            minute_said(alloc, text)
        }
        Column::To => ending_said(alloc, text),
        Column::Period => period_said(alloc, court, text),
        Column::Why => ending_why_said(alloc, text),
        Column::ServiceOrNone
        | Column::Means
        | Column::ByMotion
        | Column::Cause
        | Column::Neglect
        | Column::Holidays
        | Column::Act
        | Column::Closing
        | Column::Ruling
        | Column::Counted => word_said(alloc, column, text),
        Column::Grant => grant_said(alloc, order, text),
        Column::Need => need_said(alloc, text),
        Column::Judge | Column::JudgeOrNone => name_said(alloc, court, Named::Judges, text),
        Column::Judges => panel_said(alloc, court, text),
        Column::Room => name_said(alloc, court, Named::Rooms, text),
        Column::Slots => slots_said(alloc, text),
        Column::Number => number_or_label(alloc, text),
        Column::Title | Column::Label => text_said(alloc, text),
    }
}

/// What a field of a column says, as a plain row writes it.
#[tactic(auto, unfolding(crate::specs::Fields::field_said))]
pub fn field_said(
    alloc: Global,
    court: &Court,
    order: Option<DateOrder>,
    column: Column,
    text: &str,
) -> Result<Said<String>, AllocError>
    ensures { IfOk result (λ said. said_map string_bytes said ≡ field_said (names_of court.now) order column text.now) }
{
    if text.is_empty() && may_be_empty(column) {
        return Ok(Said::Clear(String::new(alloc)));
    }
    filled_said(alloc, court, order, column, text)
}
