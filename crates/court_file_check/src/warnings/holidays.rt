//! Holidays that the law of a court's State names, and of which its file says nothing.

ghost use Rattle.std.specs.Prelude.{◌≡◌, ◌++◌, ◌∷◌, [], filter, IfOk, OnOk, if◌then◌else◌};
ghost use Rattle.court_file_check.specs.Warnings.{is_day_unsaid, unsaid_holidays};

use crate::review::{DayTest, days_that};
use crate::warnings::closings::has_text;
use court_clock::Day;
use court_days::Days;
use court_holidays::State;
use std::alloc::{AllocError, Global};

/// Those of the span that no list has and whose date isn't in the text of the file, as in a comment. None where it isn't known of which
/// State the court is. An `Err` says that memory ran out.
pub(crate) fn unsaid_holidays(
    alloc: Global,
    days: &Days,
    text: &[u8],
    capital: bool,
    state: Option<State>,
) -> Result<Vec<Day>, AllocError>
    ensures { IfOk result (λ found. found.items ≡ unsaid_holidays days.now text.now capital state) }
{
    match state {
        Some(state) => {
            let unlisted = days_that(alloc, days, DayTest::Unlisted { capital, state })?;
            unsaid(alloc, &unlisted, text)
        }
        None => Ok(Vec::new(alloc)),
    }
}

/// Those of the days whose dates aren't in the text.
fn unsaid(alloc: Global, days: &[Day], text: &[u8]) -> Result<Vec<Day>, AllocError>
    ensures { IfOk result (λ found. found.items ≡ filter (is_day_unsaid text.now) days.now) }
{
    let mut found = Vec::new(alloc);
    for day in days {
        let is_unsaid = is_day_unsaid(alloc, text, *day)?;
        push_if(&mut found, is_unsaid, *day)?;
    }
    Ok(found)
}

/// Puts the day at the end of the list, if it is unsaid.
fn push_if(list: &mut Vec<Day>, is_unsaid: bool, day: Day) -> Result<(), AllocError>
    ensures { OnOk result (list.new.items ≡ list.old.items ++ (if is_unsaid then day ∷ [] else [])) }
{
    if is_unsaid {
        list.push(day)?;
    }
    Ok(())
}

/// Whether the text doesn't have the day's date.
fn is_day_unsaid(alloc: Global, text: &[u8], day: Day) -> Result<bool, AllocError>
    ensures { IfOk result (λ is. is ≡ is_day_unsaid text.now day) }
{
    let date = format!(in alloc; "{day}")?;
    Ok(!has_text(text, date.as_bytes()))
}
