//! The periods of the Rules: those that have a code, and those that are entered.

use row_fields::{NamedPeriod, RuleBook, Said, folded, fronts, named_periods, section_said};
use std::alloc::{AllocError, Global};

/// The codes of periods.
pub(crate) const CODES: [&str; 10] = [
    "4m",
    "12a1Ai",
    "12a1Aii-us",
    "12a1Aii-abroad",
    "12a1B",
    "12a1C",
    "12a2",
    "12a3",
    "59b",
    "59e",
];

/// Rule 60(b) and (c), whose time is a year for some of its motions.
const OF_A_YEAR: [&str; 6] = ["60b", "60b1", "60b2", "60b3", "60c", "60c1"];

/// The codes of periods, and of sections that set one which is entered.
pub(crate) fn all_codes<'a>(alloc: Global) -> Result<Vec<&'a str>, AllocError> {
    let mut codes = Vec::new(alloc);
    for code in &CODES {
        codes.push(*code)?;
    }
    for period in named_periods() {
        if let Some(code) = period.code {
            codes.push(code)?;
        }
    }
    Ok(codes)
}

/// How many texts of entered periods are listed at most.
const MOST_LISTED: usize = 3;

/// The Rule's number in a word that is folded: what comes after `Rule`, `FRCP` or `Fed. R. Civ. P.`.
pub(crate) fn number_cited(word: &str) -> &str {
    for front in fronts(RuleBook::CivilRules) {
        if !front.is_empty() {
            if let Some(number) = word.strip_prefix(*front) {
                return number;
            }
        }
    }
    word
}

/// Whether a text begins with a digit.
fn begins_with_digit(text: &str) -> bool {
    match text.as_bytes() {
        [byte, ..] => byte.is_ascii_digit(),
        _ => false,
    }
}

/// Whether a text ends with a digit.
fn ends_with_digit(text: &str) -> bool {
    match text.as_bytes() {
        [.., byte] => byte.is_ascii_digit(),
        _ => false,
    }
}

/// Whether a section with this number is a part of another. Both numbers are folded.
fn is_part(number: &str, whole: &str) -> bool {
    match number.strip_prefix(whole) {
        Some(part) => !part.is_empty() && !(ends_with_digit(whole) && begins_with_digit(part)),
        None => false,
    }
}

/// Whether a section is a part of the one that a folded word cites.
fn is_of_cited(period: &NamedPeriod, word: &str) -> bool {
    for front in fronts(period.book) {
        if let Some(whole) = word.strip_prefix(*front) {
            if is_part(period.number, whole) {
                return true;
            }
        }
    }
    false
}

/// What is said of the parts of the section that a folded word cites, and how many periods they set.
fn listed(alloc: Global, word: &str) -> Result<(String, usize), AllocError> {
    let mut text = String::new(alloc);
    let mut count = 0usize;
    for period in named_periods() {
        if is_of_cited(period, word) {
            let (section, entered) = (period.section, period.text);
            if count == 0 {
                write!(text, "{section} is entered as {entered}")?;
            } else {
                write!(text, ", {section} as {entered}")?;
            }
            count = count.saturating_add(1);
            if let Some(other) = period.other {
                write!(text, " or {other}")?;
                count = count.saturating_add(1);
            }
        }
    }
    Ok((text, count))
}

/// Whether a code of a period begins with this, which is folded.
fn begins_a_code(alloc: Global, number: &str) -> Result<bool, AllocError> {
    for code in &CODES {
        if folded(alloc, code)?.as_str().starts_with(number) {
            return Ok(true);
        }
    }
    Ok(false)
}

/// What is said of a number of entered periods: all of them, or where they are.
fn said_of(alloc: Global, listed: String, count: usize) -> Result<String, AllocError> {
    if count > MOST_LISTED {
        return String::from_str(alloc, "docs/law/RULES.md says how its periods are entered");
    }
    if count > 1 {
        let listed = listed.as_str();
        return format!(in alloc; "{listed}: docs/law/RULES.md says when");
    }
    Ok(listed)
}

/// How the periods are entered that parts of the section set which a folded word cites; empty where there are none.
pub(crate) fn parts_entered(alloc: Global, word: &str) -> Result<String, AllocError> {
    let number = number_cited(word);
    if OF_A_YEAR.iter().any(|year| *year == number) {
        return String::from_str(
            alloc,
            "Rule 60(c)(1) sets a year, which is no unit: docs/law/RULES.md says how it is entered",
        );
    }
    if !names_a_part(number) || begins_a_code(alloc, number)? {
        return Ok(String::new(alloc));
    }
    let (text, count) = listed(alloc, word)?;
    said_of(alloc, text, count)
}

/// Whether a folded word cites a section that sets a period, or has parts that do.
pub(crate) fn is_section(alloc: Global, word: &str) -> Result<bool, AllocError> {
    match section_said(word) {
        Said::Unknown => Ok(!parts_entered(alloc, word)?.is_empty()),
        Said::Clear(_) | Said::Unclear(_, _) => Ok(true),
    }
}

/// Whether the number of a Rule names a part of it, as `12(a)` does.
fn names_a_part(number: &str) -> bool {
    number.bytes().any(|byte| byte.is_ascii_alphabetic())
}
