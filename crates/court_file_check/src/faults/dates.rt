//! Faults of a list of dates.

ghost use Rattle.std.specs.Prelude.{◌≡◌, ◌++◌, OnOk, Some};
ghost use Rattle.toml.specs.View.{table_view, view, items_view};
ghost use Rattle.court_file_text.specs.Words.{date_of_item};
ghost use Rattle.court_file_check.specs.Faults.{dates_faults, each_date, faulty};

use crate::faults::Faults;
use court_file_text::{Key, date_of_item, list_at};
use std::alloc::{AllocError, Global};
use toml::{Table, Value};

/// The most dates that a holiday list may have in the file.
const MOST_DATES: usize = 4096;

/// Adds the faults of the list of dates at a key.
#[tactic(auto, using(crate::proofs::ReadLemmas::fails_is), unfolding(crate::specs::Faults::dates_faults))]
pub(crate) fn check_dates(
    alloc: Global,
    file: &Table,
    key: Key,
    faults: &mut Faults,
) -> Result<(), AllocError>
    ensures { OnOk result (faults.new ≡ faults.old ++ dates_faults key (table_view file.now)) }
{
    match list_at(file, key, MOST_DATES) {
        Ok(values) => check_items(alloc, values, key, faults),
        Err(fault) => faults.add_read(key, None, fault),
    }
}

/// Adds those of the items.
fn check_items(
    alloc: Global,
    values: &[Value],
    key: Key,
    faults: &mut Faults,
) -> Result<(), AllocError>
    ensures { OnOk result (faults.new ≡ faults.old ++ each_date key 0 (items_view values.now)) }
{
    for (number, value) in values.iter().enumerate() {
        check_item(alloc, value, key, number, faults)?;
    }
    Ok(())
}

/// Adds that of one item.
#[tactic(auto, using(crate::proofs::ReadLemmas::fails_is))]
fn check_item(
    alloc: Global,
    value: &Value,
    key: Key,
    number: usize,
    faults: &mut Faults,
) -> Result<(), AllocError>
    ensures { OnOk result (faults.new ≡ faults.old ++ faulty key (Some number) (date_of_item key (view value.now))) }
{
    match date_of_item(alloc, value, key) {
        Ok(_) => Ok(()),
        Err(fault) => faults.add_read(key, Some(number), fault),
    }
}
