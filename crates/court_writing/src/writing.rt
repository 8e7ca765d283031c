//! The text of a court's file.

ghost use Rattle.std.specs.Prelude.{◌≡◌, ◌↔◌, true, false, IfOk, Ok, Err, Some, pos, slice_get};
ghost use Rattle.std.specs.String.{string_bytes};
ghost use Rattle.toml.specs.View.{table_view};
ghost use Rattle.jiff_core.specs.Calendar.{days_from_civil};
ghost use Rattle.court_file_text.specs.Words.{desk_names_at, text_at, toml_of};
ghost use Rattle.court_file_text.specs.declared.key.Key.TheVariants as Key;
ghost use Rattle.court_holidays.specs.States.Words.{IsNear, IsStated};
ghost use Rattle.court_writing.specs.Courts.{zone_text};
ghost use Rattle.court_writing.specs.Named.{IsTextOf};
ghost use Rattle.court_writing.specs.Own.{IsOfficeOf, OwnView, are_hours, texts};
ghost use Rattle.court_writing.specs.Written.{are_years, AreDaysOf, IsDocumentOf, IsFileOf};
ghost use Rattle.court_writing.specs.declared.fault.WriteFault.TheVariants.{BadHours, BadYears};

use crate::comments::{judges_and_rooms, push_head};
use crate::courts::CourtName;
use crate::days::are_listed;
use crate::fault::WriteFault;
use crate::lines::{Line, push_lines};
use crate::lists::push_list;
use crate::notes::list_note;
use crate::own::{CourtOwn, Office};
use crate::zones::ZoneName;
use court_clock::Day;
use court_days::{Court, Days, HolidayList};
use court_file_text::{CourtFault, Key, Names, desk_names_at, text_at};
use court_holidays::{State, on};
use std::alloc::{AllocError, Global};
use toml::Table;

/// The court's file for the years from the first to the last: its zone, its holidays with their names, and its hours,
/// judges and rooms, or examples of them that are to be replaced. `BadYears` where the years aren't some of 2016 to 2199
/// in their order, or are more than a hundred; `BadHours` where they are and the office doesn't open before it closes.
/// The text is read back before it is given, and `NotReadBack` says that it isn't that court's file; `OutOfMemory` says
/// that memory ran out.
pub fn court_text(
    alloc: Global,
    court: CourtName,
    own: &CourtOwn,
    from: u16,
    to: u16,
) -> Result<String, WriteFault>
    ensures names { IfOk result (λ text. IsTextOf court.state from to (string_bytes text)) }
    ensures written { IfOk result (λ text. IsFileOf court.state (zone_text court.zone) own.now from to (string_bytes text)) }
    ensures years { (result ≡ Err BadYears) ↔ (are_years from to ≡ false) }
    ensures hours { (result ≡ Err BadHours) ↔ ((are_years from to ≡ true) × (are_hours own.now ≡ false)) }
{
    if !are_years(from, to) {
        return Err(WriteFault::BadYears);
    }
    if !own.are_hours() {
        return Err(WriteFault::BadHours);
    }
    let office = own.office(alloc)?;
    let text = text_of(alloc, court, own, &office, from, to)?;
    let file = document_of(alloc, text.as_bytes())?;
    check_document(alloc, court, &office, from, to, &file)?;
    Ok(text)
}

/// The document that a text is. `NotReadBack` says that it is none.
fn document_of(alloc: Global, text: &[u8]) -> Result<Table, WriteFault>
    ensures read { IfOk result (λ file. toml_of text.now ≡ Some (table_view file)) }
    ensures no_years { result ≡ Err BadYears → ⊥ }
    ensures no_hours { result ≡ Err BadHours → ⊥ }
{
    match toml::table_from_slice(alloc, text) {
        Ok(file) => Ok(file),
        Err(error) => {
            if error.is_memory() {
                return Err(WriteFault::OutOfMemory);
            }
            Err(WriteFault::NotReadBack)
        }
    }
}

/// Whether the document is the court's file: `NotReadBack` if it isn't.
fn check_document(
    alloc: Global,
    court: CourtName,
    office: &Office<'_>,
    from: u16,
    to: u16,
    file: &Table,
) -> Result<(), WriteFault>
    requires { are_years from to ≡ true }
    ensures written { (own : OwnView) → IsOfficeOf own office.now → IfOk result (λ _. IsDocumentOf court.state (zone_text court.zone) own from to (table_view file.now)) }
    ensures no_years { result ≡ Err BadYears → ⊥ }
    ensures no_hours { result ≡ Err BadHours → ⊥ }
{
    let judges = has_names(alloc, file, Key::Judges, &office.judges)?;
    let rooms = has_names(alloc, file, Key::Rooms, &office.rooms)?;
    match Court::from_desk_table(alloc, file) {
        Ok(read) => {
            if judges
                && rooms
                && has_zone(file, court.zone)
                && is_of_years(court.state, office, from, to, &read)
            {
                return Ok(());
            }
            Err(WriteFault::NotReadBack)
        }
        Err(CourtFault::OutOfMemory) => Err(WriteFault::OutOfMemory),
        Err(_) => Err(WriteFault::NotReadBack),
    }
}

/// Whether the document names the zone.
fn has_zone(file: &Table, zone: ZoneName) -> bool
    ensures { result ≡ true → text_at Key.Zone (table_view file.now) ≡ Ok (zone_text zone) }
{
    match text_at(file, Key::Zone) {
        Ok(text) => text == zone.text(),
        Err(_) => false,
    }
}

/// Whether the document has these names at a key.
fn has_names(alloc: Global, file: &Table, key: Key, names: &[&str]) -> Result<bool, WriteFault>
    ensures named { IfOk result (λ yes. yes ≡ true → desk_names_at key (table_view file.now) ≡ Ok (texts names.now)) }
    ensures no_years { result ≡ Err BadYears → ⊥ }
    ensures no_hours { result ≡ Err BadHours → ⊥ }
{
    match desk_names_at(alloc, file, key) {
        Ok(read) => Ok(are_names(&read, names)),
        Err(CourtFault::OutOfMemory) => Err(WriteFault::OutOfMemory),
        Err(_) => Ok(false),
    }
}

/// Whether these are the names.
fn are_names(read: &Names, names: &[&str]) -> bool
    ensures { result ≡ true → read.now ≡ texts names.now }
{
    if read.len() != names.len() {
        return false;
    }
    for (place, name) in names.iter().enumerate() {
        if !is_name_at(read, place, name) {
            return false;
        }
    }
    true
}

/// Whether the name with that number is this one.
fn is_name_at(read: &Names, place: usize, name: &str) -> bool
    ensures { result ≡ true → slice_get read.now place ≡ Some name.now }
{
    match read.get(place) {
        Some(other) => other == name,
        None => false,
    }
}

/// Whether the court has the hours and the days of the years.
fn is_of_years(state: State, office: &Office<'_>, from: u16, to: u16, read: &Court) -> bool
    requires { are_years from to ≡ true }
    ensures hours { result ≡ true → (read.now.clock.opens ≡ office.now.opens) × (read.now.clock.closes ≡ office.now.closes) }
    ensures efiling { result ≡ true → read.now.clock.efiling_until ≡ office.now.efiling_until }
    ensures days { result ≡ true → AreDaysOf state (pos from) (pos to) read.now.days }
{
    let clock = read.clock();
    clock.opens() == office.opens
        && clock.closes() == office.closes
        && is_same_minute(clock.efiling_until(), office.efiling_until)
        && are_days_of(state, from, to, read.days())
}

/// Whether both are the same minute, or none.
fn is_same_minute(one: Option<u16>, other: Option<u16>) -> bool
    ensures { result ≡ true → one ≡ other }
{
    match (one, other) {
        (Some(one), Some(other)) => one == other,
        (None, None) => true,
        _ => false,
    }
}

/// Whether a file can be written for the years.
fn are_years(from: u16, to: u16) -> bool
    ensures { result ≡ are_years from to }
{
    2016 <= from && from <= to && to <= 2199 && to <= from + 99
}

/// Whether the calendar is that of the years.
fn are_days_of(state: State, from: u16, to: u16, days: &Days) -> bool
    requires { are_years from to ≡ true }
    ensures { result ≡ true → AreDaysOf state (pos from) (pos to) days.now }
{
    if days.from() != first_day(from) {
        return false;
    }
    if days.to() != last_day(to) {
        return false;
    }
    are_listed(state, days)
}

/// 1 January of the year.
fn first_day(year: u16) -> Day
    requires { IsStated (pos year) }
    ensures value { result ≡ days_from_civil (pos year) 1 1 }
    ensures near { IsNear 0 result }
{
    on(year as i16, 1, 1)
}

/// 31 December of the year.
pub(crate) fn last_day(year: u16) -> Day
    requires { IsStated (pos year) }
    ensures value { result ≡ days_from_civil (pos year) 12 31 }
    ensures near { IsNear 0 result }
{
    on(year as i16, 12, 31)
}

/// The whole text.
fn text_of(
    alloc: Global,
    court: CourtName,
    own: &CourtOwn,
    office: &Office<'_>,
    from: u16,
    to: u16,
) -> Result<String, AllocError>
    requires { are_years from to ≡ true }
    ensures { IfOk result (λ text. IsTextOf court.state from to (string_bytes text)) }
{
    let state = court.state;
    let mut text = String::new(alloc);
    push_head(&mut text, court, own, office, from, to)?;
    let federal_note = list_note(state, HolidayList::Federal);
    push_list(
        alloc,
        &mut text,
        state,
        HolidayList::Federal,
        federal_note,
        from,
        to,
    )?;
    text.push_str("\n")?;
    let state_note = list_note(state, HolidayList::State);
    push_list(
        alloc,
        &mut text,
        state,
        HolidayList::State,
        state_note,
        from,
        to,
    )?;
    let names = judges_and_rooms(alloc, office)?;
    text.push_str(names.as_str())?;
    push_lines(&mut text, state, Line::Named, first_day(from), last_day(to))?;
    Ok(text)
}
