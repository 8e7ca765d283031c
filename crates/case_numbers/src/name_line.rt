//! A line with the name of a case, before other text.
ghost use Rattle.std.specs.Prelude.{◌≡◌, ◌≤◌, ◌++◌, length, option_map, Some, IfOk, OnOk};
ghost use Rattle.case_numbers.specs.NameLine.{after_mark, after_name, first_length, name_before, name_line};

use crate::name::{CaseName, case_read};
use std::alloc::{AllocError, Global};

// What comes after the mark, where a text begins with it.
fn after_mark(text: &[u8]) -> Option<&[u8]>
    ensures { option_map (λ rest. rest.now) result ≡ after_mark text.now }
{
    text.strip_prefix(b"%%case ")
}

// How many bytes come before the end of the first line.
fn first_length(text: &[u8]) -> usize
    ensures count { result ≡ first_length text.now }
    ensures within { result ≤ length text.now }
{
    let mut count = 0;
    while count < text.len() && text[count] != b'\n' {
        count += 1;
    }
    count
}

/// The name in the line before a text: `None` where it has no such line. `Err` says that memory ran out.
#[tactic(auto, unfolding(crate::specs::NameLine::name_before))]
pub fn name_before(alloc: Global, text: &[u8]) -> Result<Option<CaseName>, AllocError>
    ensures { IfOk result (λ name. name ≡ name_before text.now) }
{
    match after_mark(text) {
        Some(rest) => case_read(alloc, rest.split_at(first_length(rest)).0),
        None => Ok(None),
    }
}

/// The text after the line with a name: all of it where it has no such line.
#[tactic(auto, unfolding(crate::specs::NameLine::after_name))]
pub fn after_name(text: &[u8]) -> &[u8]
    ensures { result.now ≡ after_name text.now }
{
    match after_mark(text) {
        Some(rest) => {
            let count = first_length(rest);
            if count < rest.len() {
                rest.split_at(count + 1).1
            } else {
                &[]
            }
        }
        None => text,
    }
}

/// Adds the line with a name. `Err` says that memory ran out.
pub fn push_name_line(text: &mut Vec<u8>, name: &CaseName) -> Result<(), AllocError>
    ensures { OnOk result (text.new.items ≡ text.old.items ++ name_line (Some name.now)) }
{
    text.extend_from_slice(b"%%case ")?;
    text.extend_from_slice(name.shown().as_bytes())?;
    text.push(b'\n')?;
    Ok(())
}
