//! The line that says what isn't there of what is asked for.

ghost use Rattle.std.specs.Prelude.{◌≡◌, string_bytes, IfOk, OnOk};
ghost use Rattle.office_texts.specs.Words.{AddsText};
ghost use Rattle.report_program.specs.Calendar.{backwards_line, called_given, closed_line, first_words, from_words, last_words, missing_line, no_case, no_judge, not_covered, to_words, uncovered_words, word_given};

use crate::asked::Asked;
use crate::chosen::Missing;
use case_numbers::push_case_text;
use court_clock::Day;
use court_days::Court;
use office_texts::{CaseCalled, push_called};
use report_texts::Labels;
use std::alloc::{AllocError, Global};
use std::fmt::Write;

/// The line of what isn't there, ended by LF. `Err` says that memory ran out.
pub(crate) fn missing_line(
    alloc: Global,
    court: &Court,
    labels: &Labels<'_>,
    asked: &Asked,
    missing: &Missing,
) -> Result<String, AllocError>
    ensures { IfOk result (λ line. string_bytes line ≡ missing_line court.now labels.now.cases asked.now missing.now) }
{
    match missing {
        Missing::Case => no_case(alloc, &asked.case),
        Missing::Judge => no_judge(alloc, &asked.judge),
        Missing::Day(day) => not_covered(alloc, *day, court.days().from(), court.days().to()),
        Missing::Backwards(from, to) => backwards_line(alloc, *from, *to),
        Missing::Closed(case) => closed_line(alloc, labels, *case),
    }
}

/// The line of a case of which there is no such name.
fn no_case(alloc: Global, called: &Option<CaseCalled>) -> Result<String, AllocError>
    ensures { IfOk result (λ line. string_bytes line ≡ no_case called.now) }
{
    let mut line = String::new(alloc);
    line.push_str("docket: no case is named '")?;
    push_called_given(&mut line, called)?;
    line.push_str("'\n")?;
    Ok(line)
}

/// Adds what a case was called, where one was given.
fn push_called_given(line: &mut String, called: &Option<CaseCalled>) -> Result<(), AllocError>
    ensures { OnOk result (AddsText line.old line.new (called_given called.now)) }
{
    match called {
        Some(called) => push_called(line, called),
        None => Ok(()),
    }
}

/// The line of a judge that the court's file doesn't name.
fn no_judge(alloc: Global, word: &Option<String>) -> Result<String, AllocError>
    ensures { IfOk result (λ line. string_bytes line ≡ no_judge word.now) }
{
    let word = word_given(word);
    format!(in alloc; "docket: no judge is named '{word}' in the court's file\n")
}

/// The text of a word, where it was given.
fn word_given(word: &Option<String>) -> &str
    ensures { result.now ≡ word_given word.now }
{
    match word {
        Some(word) => word.as_str(),
        None => "",
    }
}

/// The line of a day that the court's file doesn't cover.
fn not_covered(alloc: Global, day: Day, from: Day, to: Day) -> Result<String, AllocError>
    ensures { IfOk result (λ line. string_bytes line ≡ not_covered day from to) }
{
    let mut line = String::new(alloc);
    push_uncovered(&mut line, day)?;
    push_from(&mut line, from)?;
    push_to(&mut line, to)?;
    Ok(line)
}

/// Adds that the court's file doesn't cover a day.
#[tactic(auto, unfolding(crate::specs::Calendar::uncovered_words))]
fn push_uncovered(line: &mut String, day: Day) -> Result<(), AllocError>
    ensures { OnOk result (AddsText line.old line.new (uncovered_words day)) }
{
    write!(line, "docket: {day} isn't covered")
}

/// Adds from which day on it covers days.
#[tactic(auto, unfolding(crate::specs::Calendar::from_words))]
fn push_from(line: &mut String, from: Day) -> Result<(), AllocError>
    ensures { OnOk result (AddsText line.old line.new (from_words from)) }
{
    write!(line, ": the court's file covers {from}")
}

/// Adds up to which day it covers days, and the end of the line.
#[tactic(auto, unfolding(crate::specs::Calendar::to_words))]
fn push_to(line: &mut String, to: Day) -> Result<(), AllocError>
    ensures { OnOk result (AddsText line.old line.new (to_words to)) }
{
    write!(line, " to {to}\n")
}

/// The line of days of which the last comes before the first.
fn backwards_line(alloc: Global, from: Day, to: Day) -> Result<String, AllocError>
    ensures { IfOk result (λ line. string_bytes line ≡ backwards_line from to) }
{
    let mut line = String::new(alloc);
    push_last(&mut line, to)?;
    push_first(&mut line, from)?;
    Ok(line)
}

/// Adds which day is the last.
#[tactic(auto, unfolding(crate::specs::Calendar::last_words))]
fn push_last(line: &mut String, to: Day) -> Result<(), AllocError>
    ensures { OnOk result (AddsText line.old line.new (last_words to)) }
{
    write!(line, "docket: the last day, {to}")
}

/// Adds which day, the first, it comes before, and the end of the line.
#[tactic(auto, unfolding(crate::specs::Calendar::first_words))]
fn push_first(line: &mut String, from: Day) -> Result<(), AllocError>
    ensures { OnOk result (AddsText line.old line.new (first_words from)) }
{
    write!(line, ", is before the first, {from}\n")
}

/// The line of a case that isn't open.
fn closed_line(alloc: Global, labels: &Labels<'_>, case: u32) -> Result<String, AllocError>
    ensures { IfOk result (λ line. string_bytes line ≡ closed_line labels.now.cases case) }
{
    let mut line = String::new(alloc);
    line.push_str("docket: case ")?;
    push_case_text(&mut line, labels.cases, case)?;
    line.push_str(" isn't open: no row has opened it\n")?;
    Ok(line)
}
