//! The names of the courts whose files can be written.

use court_writing::CourtName;
use std::alloc::{AllocError, Global};
use strsim::levenshtein;

/// The names of all courts, a line each with the court's title.
pub fn names_text(alloc: Global) -> Result<String, AllocError> {
    let mut text = String::from_str(alloc, "The courts, by their names:\n")?;
    for court in CourtName::all() {
        let (code, title) = (court.code, court.title);
        write!(text, "\n  {code:<26}{title}")?;
    }
    Ok(text)
}

/// The names of the courts that have the text in them or, where none has, the nearest name.
pub fn nearest_names(alloc: Global, text: &str) -> Result<String, AllocError> {
    let mut names = String::new(alloc);
    for court in CourtName::all() {
        if court.code.contains(text) {
            if !names.is_empty() {
                names.push_str(", ")?;
            }
            names.push_str(court.code)?;
        }
    }
    if names.is_empty() {
        names.push_str(nearest_name(alloc, text)?)?;
    }
    Ok(names)
}

/// The name of a court that is nearest to a text: the one that takes the fewest edits.
fn nearest_name(alloc: Global, text: &str) -> Result<&'static str, AllocError> {
    let mut nearest = "";
    let mut least = usize::MAX;
    for court in CourtName::all() {
        let edits = levenshtein(alloc, text, court.code)?;
        if edits < least {
            least = edits;
            nearest = court.code;
        }
    }
    Ok(nearest)
}
