//! The dates of a holiday list of a court's file.

ghost use Rattle.std.specs.Prelude.{◌≡◌, []};
ghost use Rattle.toml.specs.View.{view, table_view, items_view};
ghost use Rattle.court_file_text.specs.Words.{Gives, each_item};
ghost use Rattle.court_days.specs.Court.Reading.{dates_at, and_date};

use crate::days::dates::Dates;
use court_clock::Day;
use court_file_text::{CourtFault, Key, date_of_item, list_at};
use std::alloc::Global;
use toml::{Table, Value};

/// The most dates that a holiday list may have in the file, where a date may be written twice.
const MOST_DATES: usize = 4096;

/// Adds the date of an item, if it is in the span. After an `Err` the dates are unchanged.
#[tactic(auto, unfolding(crate::specs::Court::Reading::and_date))]
fn add_date(
    alloc: Global,
    dates: &mut Dates,
    value: &Value,
    key: Key,
    from: Day,
    to: Day,
) -> Result<(), CourtFault>
    ensures { Gives (λ _. dates.new) result (and_date key from to dates.old (view value.now)) }
{
    let day = date_of_item(alloc, value, key)?;
    if from.number() <= day.number() && day.number() <= to.number() {
        dates.add(day)?;
    }
    Ok(())
}

/// The dates at a key that are in the span, each once.
#[tactic(auto, unfolding(crate::specs::Court::Reading::dates_at))]
pub(crate) fn dates_at(
    alloc: Global,
    file: &Table,
    key: Key,
    from: Day,
    to: Day,
) -> Result<Dates, CourtFault>
    ensures { Gives (λ d. d) result (dates_at key from to (table_view file.now)) }
{
    let values = list_at(file, key, MOST_DATES)?;
    dates_of(alloc, values, key, from, to)
}

fn dates_of(
    alloc: Global,
    values: &[Value],
    key: Key,
    from: Day,
    to: Day,
) -> Result<Dates, CourtFault>
    ensures { Gives (λ d. d) result (each_item (and_date key from to) [] (items_view values.now)) }
{
    let mut dates = Dates::empty(alloc, from, to)?;
    for value in values {
        add_date(alloc, &mut dates, value, key, from, to)?;
    }
    Ok(dates)
}
