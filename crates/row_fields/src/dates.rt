//! Dates.

ghost use Rattle.std.specs.Prelude.{◌≡◌, ◌++◌, ◌∷◌, [], IfOk, OnOk, option_map, string_bytes};
ghost use Rattle.csv.specs.Records.{fields_of};
ghost use Rattle.row_fields.specs.Dates.{date_said, date_words, day_said, ended, is_divider, one_alone, three_said, picked, two_digits_of, day_alone, word_at};

use crate::letters::push_small;
use crate::months::month_named;
use crate::said::Said;
use court_clock::Day;
use csv::StringRecord;
use std::alloc::{AllocError, Global};

/// Which comes first where a date is written in numbers with its year at the end.
#[derive(Clone, Copy, Debug, PartialEq, Eq)]
pub enum DateOrder {
    /// The month, as in the United States: 9/2/2025 is in September.
    MonthFirst,
    /// The day, as in most of the world: 2/9/2025 is in September.
    DayFirst,
}

// Whether a byte divides the words of a date.
fn is_divider(byte: u8) -> bool
    ensures { result ≡ is_divider byte }
{
    matches!(byte, b' ' | b',' | b'-' | b'.' | b'/')
}

// Adds a word, if there is one.
fn end_word(words: &mut StringRecord, word: &mut String) -> Result<(), AllocError>
    ensures words { OnOk result (fields_of words.new ≡ ended (fields_of words.old) (string_bytes word.old)) }
    ensures cleared { OnOk result (string_bytes word.new ≡ []) }
{
    if !word.is_empty() {
        words.push_field(word.as_str())?;
    }
    word.clear();
    Ok(())
}

// The words of a date, in small letters.
fn date_words(alloc: Global, text: &str) -> Result<StringRecord, AllocError>
    ensures { IfOk result (λ words. fields_of words ≡ date_words text.now) }
{
    let bytes = text.as_bytes();
    let mut words = StringRecord::new(alloc);
    let mut word = String::new(alloc);
    for byte in bytes {
        if is_divider(*byte) {
            end_word(&mut words, &mut word)?;
        } else {
            push_small(&mut word, *byte)?;
        }
    }
    end_word(&mut words, &mut word)?;
    Ok(words)
}

// Adds a number, of one digit as of two.
fn push_two(text: &mut String, number: &str) -> Result<(), AllocError>
    ensures { OnOk result (string_bytes text.new ≡ string_bytes text.old ++ two_digits_of number.now) }
{
    if number.len() == 1 {
        text.push_str("0")?;
    }
    text.push_str(number)
}

// The day that has this year, month and day of the month.
fn day_said(alloc: Global, year: &str, month: &str, day: &str) -> Result<Option<Day>, AllocError>
    ensures { IfOk result (λ said. said ≡ day_said year.now month.now day.now) }
{
    let mut text = String::new(alloc);
    text.push_str(year)?;
    text.push_str("-")?;
    push_two(&mut text, month)?;
    text.push_str("-")?;
    push_two(&mut text, day)?;
    Ok(Day::from_text(text.as_str()))
}

// One day, if there is one.
fn one_day(day: Option<Day>) -> Said<Day>
    ensures { result ≡ day_alone day }
{
    match day {
        Some(day) => Said::Clear(day),
        None => Said::Unknown,
    }
}

// The day that one of two readings alone is.
fn one_alone(month_first: Option<Day>, day_first: Option<Day>) -> Said<Day>
    ensures { result ≡ one_alone month_first day_first }
{
    match (month_first, day_first) {
        (None, None) => Said::Unknown,
        (Some(day), None) | (None, Some(day)) => Said::Clear(day),
        (Some(day), Some(other)) => {
            if day == other {
                Said::Clear(day)
            } else {
                Said::Unclear(day, other)
            }
        }
    }
}

// The one of two readings that the order says, and without an order the only one.
fn picked(order: Option<DateOrder>, month_first: Option<Day>, day_first: Option<Day>) -> Said<Day>
    ensures { result ≡ picked order month_first day_first }
{
    match order {
        Some(DateOrder::MonthFirst) => one_day(month_first),
        Some(DateOrder::DayFirst) => one_day(day_first),
        None => one_alone(month_first, day_first),
    }
}

// What the three words of a date say.
fn three_said(
    alloc: Global,
    order: Option<DateOrder>,
    first: &str,
    second: &str,
    third: &str,
) -> Result<Said<Day>, AllocError>
    ensures { IfOk result (λ said. said ≡ three_said order first.now second.now third.now) }
{
    if let Some(month) = month_named(second) {
        return Ok(one_day(day_said(alloc, third, month, first)?));
    }
    if let Some(month) = month_named(first) {
        return Ok(one_day(day_said(alloc, third, month, second)?));
    }
    if first.len() == 4 {
        return Ok(one_day(day_said(alloc, first, second, third)?));
    }
    let month_first = day_said(alloc, third, first, second)?;
    let day_first = day_said(alloc, third, second, first)?;
    Ok(picked(order, month_first, day_first))
}

// The word of that number, counted from 0; empty where there is none.
fn word(words: &StringRecord, number: usize) -> &str
    ensures { result.now ≡ word_at (fields_of words.now) number }
{
    words.get(number).unwrap_or("")
}

/// The day that a text says.
#[tactic(auto, unfolding(crate::specs::Dates::date_said))]
pub fn date_said(
    alloc: Global,
    order: Option<DateOrder>,
    text: &str,
) -> Result<Said<Day>, AllocError>
    ensures { IfOk result (λ said. said ≡ date_said order text.now) }
{
    let words = date_words(alloc, text)?;
    if words.len() != 3 {
        return Ok(Said::Unknown);
    }
    three_said(
        alloc,
        order,
        word(&words, 0),
        word(&words, 1),
        word(&words, 2),
    )
}
