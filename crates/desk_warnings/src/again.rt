//! What a clerk is warned of a deadline that its case has already.

ghost use Rattle.std.specs.Prelude.{◌≡◌, ◌++◌, ◌&&◌, IfOk, OnOk, string_bytes};
ghost use Rattle.office_texts.specs.Words.{period_text};
ghost use Rattle.desk_warnings.specs.Again.{is_pending, is_same, note_if_same, same_events, same_note, same_notes, same_period, same_second, same_words};

use court_clock::Day;
use desk_numbers::MovedNumbers;
use docket_rows::{Counted, SheetDeadline, State};
use office_texts::push_entered;
use reason_texts::push_note;
use rule_periods::{DeadlineRow, Period};
use std::alloc::{AllocError, Global};

/// Adds the notes on a deadline that would start in a case, for each of these deadlines of it that is the same and pending.
pub(crate) fn push_same_notes(
    alloc: Global,
    text: &mut String,
    moved: &MovedNumbers,
    case: u32,
    row: &DeadlineRow,
    others: &[SheetDeadline],
) -> Result<(), AllocError>
    ensures { OnOk result (string_bytes text.new ≡ string_bytes text.old ++ same_notes moved.now case row.now others.now) }
{
    for other in others {
        push_same_note(alloc, text, moved, case, row, other)?;
    }
    Ok(())
}

/// Adds the note for one of them, if it is.
fn push_same_note(
    alloc: Global,
    text: &mut String,
    moved: &MovedNumbers,
    case: u32,
    row: &DeadlineRow,
    other: &SheetDeadline,
) -> Result<(), AllocError>
    ensures { OnOk result (string_bytes text.new ≡ string_bytes text.old ++ same_note moved.now case row.now other.now) }
{
    let same = is_pending_same(alloc, row, other)?;
    let number = moved.number_at(case, Counted::Deadline, other.number);
    push_if_same(alloc, text, same, row.event().day(), number)
}

/// Adds that the deadline of that number is the same, where it is.
fn push_if_same(
    alloc: Global,
    text: &mut String,
    same: bool,
    event: Day,
    number: u32,
) -> Result<(), AllocError>
    ensures { OnOk result (string_bytes text.new ≡ string_bytes text.old ++ note_if_same same event number) }
{
    if !same {
        return Ok(());
    }
    let what = same_words(alloc, number)?;
    push_note(text, Some(event), what.as_str(), "note")
}

/// What is said of it.
fn same_words(alloc: Global, number: u32) -> Result<String, AllocError>
    ensures { IfOk result (λ what. string_bytes what ≡ same_words number) }
{
    format!(in alloc; "deadline {number} of the case is the same and pending")
}

/// Whether another deadline is pending and the same.
fn is_pending_same(
    alloc: Global,
    row: &DeadlineRow,
    other: &SheetDeadline,
) -> Result<bool, AllocError>
    ensures { IfOk result (λ same. same ≡ (is_pending other.now && is_same row.now other.now.row)) }
{
    if is_pending(other) {
        is_same(alloc, row, &other.row)
    } else {
        Ok(false)
    }
}

/// Whether no act is recorded of a deadline, and it wasn't ended.
fn is_pending(deadline: &SheetDeadline) -> bool
    ensures { result ≡ is_pending deadline.now }
{
    match (deadline.state, deadline.ended) {
        (State::Pending, None) => true,
        _ => false,
    }
}

/// Whether two deadlines are of the same period with the same events.
fn is_same(alloc: Global, row: &DeadlineRow, other: &DeadlineRow) -> Result<bool, AllocError>
    ensures { IfOk result (λ same. same ≡ is_same row.now other.now) }
{
    if same_events(row, other) {
        same_period(alloc, row.period(), other.period())
    } else {
        Ok(false)
    }
}

/// Whether the events of both are at one time.
fn same_events(row: &DeadlineRow, other: &DeadlineRow) -> bool
    ensures { result ≡ same_events row.now other.now }
{
    row.event().day() == other.event().day()
        && row.event().minute() == other.event().minute()
        && same_second(row.second(), other.second())
}

/// Whether neither has a second event, or both have one on one day.
fn same_second(second: Option<Day>, other: Option<Day>) -> bool
    ensures { result ≡ same_second second other }
{
    match second {
        None => match other {
            None => true,
            Some(_) => false,
        },
        Some(second) => match other {
            None => false,
            Some(day) => second == day,
        },
    }
}

/// Whether the periods are written alike.
fn same_period(alloc: Global, period: Period, other: Period) -> Result<bool, AllocError>
    ensures { IfOk result (λ same. same ≡ same_period period other) }
{
    let words = period_words(alloc, &period)?;
    let there = period_words(alloc, &other)?;
    Ok(words.as_bytes() == there.as_bytes())
}

/// A period, as rows name it.
fn period_words(alloc: Global, period: &Period) -> Result<String, AllocError>
    ensures { IfOk result (λ text. string_bytes text ≡ period_text period.now) }
{
    let mut text = String::new(alloc);
    push_period(&mut text, period)?;
    Ok(text)
}

/// Adds a period, as rows name it.
#[tactic(auto, unfolding(office_texts::specs::Words::period_text))]
fn push_period(text: &mut String, period: &Period) -> Result<(), AllocError>
    ensures { OnOk result (string_bytes text.new ≡ string_bytes text.old ++ period_text period.now) }
{
    match period {
        Period::Rule(rule) => text.push_str(rule.code()),
        Period::Entered(entered) => push_entered(text, entered),
    }
}
