//! The known word that is nearest to what was found.

use crate::periods::{CODES, all_codes, is_section, number_cited};
use court_days::Court;
use row_fields::{cut_line, folded};
use row_forms::{COMMANDS, Column};
use row_written::Flaw;
use std::alloc::{AllocError, Global};
use strsim::osa_distance;

/// The headings of columns.
const HEADINGS: [&str; 32] = [
    "clerk", "command", "case", "deadline", "motion", "period", "date", "time", "second", "kind",
    "means", "grant", "cause", "neglect", "need", "list", "from", "to", "judge", "referred",
    "room", "slots", "notice", "act", "why", "ruling", "dated", "title", "of", "number", "label",
    "note",
];

/// The word from which a text that is folded differs by no more than a slip: a letter that is added, lost or another, or two
/// that are swapped. There is none where two words are so near.
fn nearest_of(alloc: Global, found: &str, words: &[&str]) -> Result<Option<String>, AllocError> {
    if found.is_empty() {
        return Ok(None);
    }
    let mut nearest = None;
    for word in words {
        let known = folded(alloc, word)?;
        if known.as_str() == found {
            return Ok(Some(String::from_str(alloc, word)?));
        }
        if osa_distance(alloc, found, known.as_str())? == 1 {
            if nearest.is_some() {
                return Ok(None);
            }
            nearest = Some(String::from_str(alloc, word)?);
        }
    }
    Ok(nearest)
}

/// The names of the court's judges.
fn judges_of<'a>(alloc: Global, court: &'a Court) -> Result<Vec<&'a str>, AllocError> {
    let mut names = Vec::new(alloc);
    for number in 0..court.judges() {
        if let Some(name) = court.judge_name(number) {
            names.push(name)?;
        }
    }
    Ok(names)
}

/// The names of the court's rooms.
fn rooms_of<'a>(alloc: Global, court: &'a Court) -> Result<Vec<&'a str>, AllocError> {
    let mut names = Vec::new(alloc);
    for number in 0..court.rooms() {
        if let Some(name) = court.room_name(number) {
            names.push(name)?;
        }
    }
    Ok(names)
}

/// The judge that is nearest to the first name of a panel that the court doesn't have.
fn nearest_judge(alloc: Global, court: &Court, panel: &str) -> Result<Option<String>, AllocError> {
    let names = judges_of(alloc, court)?;
    let pieces = cut_line(alloc, panel, b'+')?;
    for i in 0..pieces.len() {
        let piece = pieces.get(i).unwrap_or("");
        if court.judge(piece).is_none() {
            return nearest_of(alloc, folded(alloc, piece)?.as_str(), &names);
        }
    }
    Ok(None)
}

/// The code of a period of the Rules that is nearest to a folded word, unless that cites a section that sets another period.
fn nearest_code(alloc: Global, word: &str) -> Result<Option<String>, AllocError> {
    if is_section(alloc, word)? {
        Ok(None)
    } else {
        nearest_of(alloc, number_cited(word), &CODES)
    }
}

/// The code of a period, of the Rules or of a section whose period is entered, or the court's name for one, that is nearest to a folded
/// word, likewise.
fn nearest_period(alloc: Global, court: &Court, word: &str) -> Result<Option<String>, AllocError> {
    if is_section(alloc, word)? {
        return Ok(None);
    }
    let mut known = all_codes(alloc)?;
    for period in court.periods() {
        known.push(period.name())?;
    }
    nearest_of(alloc, number_cited(word), &known)
}

/// The known word that is nearest to what was found in a column, which is this word when it is folded.
fn nearest_in(
    alloc: Global,
    court: &Court,
    column: Column,
    found: &str,
    word: &str,
) -> Result<Option<String>, AllocError> {
    match column {
        Column::Judge | Column::Judges | Column::JudgeOrNone => nearest_judge(alloc, court, found),
        Column::Room => {
            let names = rooms_of(alloc, court)?;
            nearest_of(alloc, word, &names)
        }
        Column::Period => nearest_period(alloc, court, word),
        Column::Deadline => nearest_code(alloc, word),
        Column::Motion => nearest_of(alloc, word, &["last"]),
        Column::ServiceOrNone => nearest_of(
            alloc,
            word,
            &["personal", "left", "mail", "clerk", "ECF", "other"],
        ),
        Column::Means => nearest_of(alloc, word, &["electronic", "paper"]),
        Column::ByMotion | Column::Cause | Column::Neglect => {
            nearest_of(alloc, word, &["yes", "no"])
        }
        Column::Holidays => nearest_of(alloc, word, &["federal", "state"]),
        Column::Need => nearest_of(alloc, word, &["exparte"]),
        Column::Act => nearest_of(alloc, word, &["filing", "service"]),
        Column::Closing => nearest_of(
            alloc,
            word,
            &[
                "dismissed",
                "judgment",
                "settled",
                "transferred",
                "remanded",
                "otherwise",
            ],
        ),
        Column::Ruling => nearest_of(
            alloc,
            word,
            &[
                "granted",
                "denied",
                "in part",
                "moot",
                "withdrawn",
                "reserved",
            ],
        ),
        Column::Counted => nearest_of(alloc, word, &["deadline", "motion"]),
        Column::Why => nearest_of(
            alloc,
            word,
            &["moot", "vacated", "stayed", "suspended", "withdrawn"],
        ),
        _ => Ok(None),
    }
}

/// The known word that is nearest to what was found, if one alone differs from it by no more than a slip.
pub(crate) fn nearest(
    alloc: Global,
    court: &Court,
    flaw: Flaw,
    found: &str,
) -> Result<Option<String>, AllocError> {
    let word = folded(alloc, found)?;
    let word = word.as_str();
    match flaw {
        Flaw::Unknown(column) => nearest_in(alloc, court, column, found, word),
        Flaw::NoCommand => nearest_of(alloc, word, &COMMANDS),
        Flaw::NoHeading => nearest_of(alloc, word, &HEADINGS),
        _ => Ok(None),
    }
}
