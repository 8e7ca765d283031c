//! The head of a memo.

ghost use Rattle.std.specs.Prelude.{◌≡◌, ◌++◌, option_and_then, option_map, string_bytes, IfOk, OnOk};
ghost use Rattle.office_texts.specs.Names.Words.{number_called};
ghost use Rattle.report_memo.specs.Head.{court_line, head_of, head_text, made_line};

use crate::about_case::push_about_case;
use crate::court_name::court_named;
use case_numbers::Cases;
use court_clock::Day;
use court_days::Court;
use desk_numbers::CalledTexts;
use office_texts::{CaseCalled, number_called};
use report_texts::push_whole_day;
use row_forms::NumberedRow;
use std::alloc::{AllocError, Global};

/// The head of the memo of a court whose file has these bytes: the court, where the file names it; the case that is so named, if one is,
/// with what rows call it and who has it after all rows; the day on which the memo is made, if that is known; the edition of the Rules;
/// and an empty line. `Err` says that memory ran out.
#[tactic(auto, unfolding(crate::specs::Head::head_of))]
pub(crate) fn head_of(
    alloc: Global,
    file: &[u8],
    court: &Court,
    cases: &Cases,
    called: &CalledTexts,
    rows: &[NumberedRow],
    asked: &Option<CaseCalled>,
    made: Option<Day>,
) -> Result<String, AllocError>
    ensures { IfOk result (λ head. string_bytes head ≡ head_of file.now court.now cases.now.named called.now rows.now asked.now made) }
{
    let mut head = String::new(alloc);
    let case = number_if_called(cases, asked);
    push_head(
        alloc,
        &mut head,
        court_named(file),
        court,
        cases,
        called,
        rows,
        case,
        made,
    )?;
    Ok(head)
}

/// The case that is so called, if one is.
fn number_if_called(cases: &Cases, asked: &Option<CaseCalled>) -> Option<u32>
    ensures { result ≡ option_and_then (number_called cases.now.named) asked.now }
{
    match asked {
        Some(called) => number_called(cases, called),
        None => None,
    }
}

/// Adds the lines of a head.
#[tactic(auto, unfolding(crate::specs::Head::head_text))]
fn push_head(
    alloc: Global,
    text: &mut String,
    name: Option<&str>,
    court: &Court,
    cases: &Cases,
    called: &CalledTexts,
    rows: &[NumberedRow],
    case: Option<u32>,
    made: Option<Day>,
) -> Result<(), AllocError>
    ensures { OnOk result (string_bytes text.new ≡ string_bytes text.old ++ head_text (option_map (λ named. named.now) name.entry) court.now cases.now.named called.now rows.now case made) }
{
    push_court(text, name)?;
    push_about_case(alloc, text, court, cases, called, rows, case)?;
    push_made(text, made)?;
    text.push_str("Rules    Federal Rules of Civil Procedure, as amended on 1 December 2025\n")?;
    text.push_str("\n")
}

/// Adds the line of the court, if its name is known.
fn push_court(text: &mut String, name: Option<&str>) -> Result<(), AllocError>
    ensures { OnOk result (string_bytes text.new ≡ string_bytes text.old ++ court_line (option_map (λ named. named.now) name.entry)) }
{
    match name {
        Some(name) => {
            text.push_str("Court    ")?;
            text.push_str(name)?;
            text.push_str("\n")
        }
        None => Ok(()),
    }
}

/// Adds the line of the day on which the memo is made, if it is known.
fn push_made(text: &mut String, made: Option<Day>) -> Result<(), AllocError>
    ensures { OnOk result (string_bytes text.new ≡ string_bytes text.old ++ made_line made) }
{
    match made {
        Some(day) => {
            text.push_str("Made     ")?;
            push_whole_day(text, day)?;
            text.push_str("\n")
        }
        None => Ok(()),
    }
}
