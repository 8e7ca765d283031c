//! The names that a court's file gives to holidays.

ghost use Rattle.std.specs.Prelude.{◌≡◌, ◌++◌, ◌∷◌, [], take, IfOk, OnOk, option_map};
ghost use Rattle.toml.specs.View.{table_view, view};
ghost use Rattle.docket_rows.specs.Words.{most_dates};
ghost use Rattle.report_texts.specs.Holidays.{doubtful_among, doubtful_days, holiday_names, named_among, named_by, named_in, table_of_names};

use court_clock::Day;
use court_file_text::is_printed;
use docket_rows::MOST_DATES;
use reason_texts::HolidayName;
use std::alloc::{AllocError, Global};
use toml::{Table, Value};

// The table of a court's file that names holidays.
const TABLE: &str = "holiday_names";

// What a name ends with where it is in doubt whether the state declares the day a holiday.
const DOUBT: &str = " (doubtful)";

/// The names that a court's file gives to holidays, and the days that it marks as doubtful.
#[derive(Debug, Drop)]
pub struct HolidayNames {
    /// The names, each with its day.
    pub names: Vec<HolidayName>,
    /// The days whose names say that they are doubtful.
    pub doubtful: Vec<Day>,
}

impl HolidayNames {
    /// None.
    fn new(alloc: Global) -> HolidayNames
        ensures names { result.names.items ≡ [] }
        ensures doubtful { result.doubtful.items ≡ [] }
    {
        HolidayNames {
            names: Vec::new(alloc),
            doubtful: Vec::new(alloc),
        }
    }
}

// A body that said at an entry which is passed over that memory ran out would meet these contracts; the program's stored
// run has such entries.

/// The names that a court's file gives to holidays: in its table `holiday_names` each date has a text. What is
/// no date, and a name that is no text, is empty or has an ASCII control character, is passed over, and so are names
/// after the first `MOST_DATES`. A day whose name ends in ` (doubtful)` is marked as doubtful. Bytes that are no TOML have
/// none. `Err` says that memory ran out.
pub fn holiday_names(alloc: Global, file: &[u8]) -> Result<HolidayNames, AllocError>
    ensures names { IfOk result (λ found. found.names.items ≡ holiday_names file.now) }
    ensures doubtful { IfOk result (λ found. found.doubtful.items ≡ doubtful_days file.now) }
{
    match toml::table_from_slice(alloc, file) {
        Ok(document) => named_in_document(alloc, &document),
        Err(error) => {
            if error.is_memory() {
                return Err(AllocError);
            }
            Ok(HolidayNames::new(alloc))
        }
    }
}

/// The names in a document's table of names.
fn named_in_document(alloc: Global, document: &Table) -> Result<HolidayNames, AllocError>
    ensures names { IfOk result (λ found. found.names.items ≡ take most_dates (named_in (table_of_names (table_view document.now)))) }
    ensures doubtful { IfOk result (λ found. found.doubtful.items ≡ doubtful_among (named_in (table_of_names (table_view document.now)))) }
{
    match table_of_names(document) {
        Some(table) => first_named(alloc, table),
        None => Ok(HolidayNames::new(alloc)),
    }
}

/// The table of a document that names holidays.
fn table_of_names(document: &Table) -> Option<&Table>
    ensures { option_map (λ table. table_view table.now) result ≡ table_of_names (table_view document.now) }
{
    match document.get(TABLE) {
        Some(value) => value.as_table(),
        None => None,
    }
}

/// The first of the names that the entries of a table give, and the days that they mark.
#[tactic(auto, using(crate::proofs::HolidayLemmas::doubtful_more), unfolding(crate::specs::Holidays::named_among))]
fn first_named(alloc: Global, table: &Table) -> Result<HolidayNames, AllocError>
    ensures names { IfOk result (λ found. found.names.items ≡ take most_dates (named_among (table_view table.now))) }
    ensures doubtful { IfOk result (λ found. found.doubtful.items ≡ doubtful_among (named_among (table_view table.now))) }
{
    let mut found = HolidayNames::new(alloc);
    for (key, value) in table.iter() {
        push_named(alloc, &mut found, key.as_str(), value)?;
    }
    found.names.truncate(MOST_DATES);
    Ok(found)
}

/// Adds the name that an entry gives, if it gives one.
fn push_named(
    alloc: Global,
    found: &mut HolidayNames,
    key: &str,
    value: &Value,
) -> Result<(), AllocError>
    ensures names { OnOk result (found.new.names.items ≡ found.old.names.items ++ named_by key.now (view value.now)) }
    ensures doubtful { OnOk result (found.new.doubtful.items ≡ found.old.doubtful.items ++ doubtful_among (named_by key.now (view value.now))) }
{
    match (Day::from_text(key), value.as_str()) {
        (Some(day), Some(text)) if is_printed(text) => {
            push_if_doubtful(&mut found.doubtful, day, text)?;
            found
                .names
                .push(HolidayName::new(day, String::from_str(alloc, text)?))?;
            Ok(())
        }
        _ => Ok(()),
    }
}

/// Adds a day whose name says that it is doubtful.
fn push_if_doubtful(doubtful: &mut Vec<Day>, day: Day, name: &str) -> Result<(), AllocError>
    ensures { OnOk result (doubtful.new.items ≡ doubtful.old.items ++ doubtful_among (record { day = day; name = name.now } ∷ [])) }
{
    if name.as_bytes().ends_with(DOUBT.as_bytes()) {
        doubtful.push(day)?;
    }
    Ok(())
}
