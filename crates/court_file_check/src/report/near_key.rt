//! The key that a person may have meant by another one.

use crate::places::key_of;
use court_file_text::Key;
use std::alloc::{AllocError, Global};
use strsim::levenshtein;
use toml::Table;

/// The key of the file that is nearest to a key which it lacks, if one is near. It is none that a court's file has.
pub(crate) fn near_key<'a>(
    alloc: Global,
    file: &'a Table,
    lacking: Key,
) -> Result<Option<&'a str>, AllocError> {
    let mut nearest = None;
    let mut least = most_edits(lacking);
    for (key, _) in file.iter() {
        let key = key.as_str();
        if is_plain(key) && key_of(key.as_bytes()).is_none() {
            let edits = edits_between(alloc, key, lacking.name())?;
            if edits <= least {
                least = edits;
                nearest = Some(key);
            }
        }
    }
    Ok(nearest)
}

/// How many letters of the key may be wrong, too many or missing: two, and one of a short key.
fn most_edits(key: Key) -> usize {
    if key.name().len() < 4 { 1 } else { 2 }
}

/// How many edits make one text of the other; none where only capitals differ.
fn edits_between(alloc: Global, key: &str, name: &str) -> Result<usize, AllocError> {
    if key.eq_ignore_ascii_case(name) {
        return Ok(0);
    }
    levenshtein(alloc, key, name)
}

/// Whether the text can be shown in a line as it is.
fn is_plain(key: &str) -> bool {
    key.as_bytes().iter().all(|byte| byte.is_ascii_graphic())
}
