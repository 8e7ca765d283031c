//! Days on which the President closed the executive departments, and of which a court's file says nothing.

ghost use Rattle.std.specs.Prelude.{◌≡◌, ◌≤◌, ◌++◌, ◌∷◌, ◌||◌, [], length, map, nat_eq, drop, IfOk, OnOk, if◌then◌else◌};
ghost use Rattle.std.specs.List.{starts_with};
ghost use Rattle.court_holidays.specs.Federal.Words.{closing_view};
ghost use Rattle.court_file_check.specs.Warnings.{has_text, is_unsaid, unsaid_closings};

use court_clock::Day;
use court_days::Days;
use court_holidays::{Closing, closed_days};
use std::alloc::{AllocError, Global};

/// Those of the span whose date isn't in the text of the file, in a list or in a comment. An `Err` says that memory ran out.
#[tactic(auto, unfolding(crate::specs::Warnings::unsaid_closings))]
pub(crate) fn unsaid_closings(
    alloc: Global,
    days: &Days,
    text: &[u8],
) -> Result<Vec<Closing>, AllocError>
    ensures { IfOk result (λ found. map closing_view found.items ≡ unsaid_closings days.now text.now) }
{
    let mut found = Vec::new(alloc);
    let closed = closed_days();
    for closing in closed {
        push_if(&mut found, is_unsaid(days, text, closing), *closing)?;
    }
    Ok(found)
}

/// Puts the closing at the end of the list, if it isn't said.
fn push_if(list: &mut Vec<Closing>, is_unsaid: bool, closing: Closing) -> Result<(), AllocError>
    ensures { OnOk result (map closing_view list.new.items ≡ map closing_view list.old.items ++ (if is_unsaid then closing_view closing ∷ [] else [])) }
{
    if is_unsaid {
        list.push(closing)?;
    }
    Ok(())
}

/// Whether the day is in the span and the text doesn't have its date.
fn is_unsaid(days: &Days, text: &[u8], closing: &Closing) -> bool
    ensures { result ≡ is_unsaid days.now text.now (closing_view closing.now) }
{
    match Day::from_text(closing.day) {
        Some(day) => days.covered(day) && !has_text(text, closing.day.as_bytes()),
        None => false,
    }
}

/// Whether a text has these bytes.
pub(crate) fn has_text(text: &[u8], part: &[u8]) -> bool
    ensures { result ≡ has_text text.now part.now }
{
    let mut found = false;
    for place in 0..text.len() {
        found = is_there_or(found, text, place, part);
    }
    found
}

/// Whether the text has the bytes at the place, or they were found before.
fn is_there_or(found: bool, text: &[u8], place: usize, part: &[u8]) -> bool
    requires { place ≤ length text.now }
    ensures { result ≡ (found || starts_with nat_eq (drop place text.now) part.now) }
{
    found || text.split_at(place).1.starts_with(part)
}
