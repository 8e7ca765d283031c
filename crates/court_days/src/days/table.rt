//! The table of rolled days for one direction. A place of it is a covered day, counted from the end of the span at
//! which rolling ends, and its entry is how many days the day is away from the one to which it rolls.

ghost use Rattle.std.specs.Prelude.{◌≡◌, ◌<◌, ◌≤◌, ℕ, Bool, true, length, IfOk, IfSome, IfNone};
ghost use Rattle.std.specs.Arc.{arc_value};
ghost use Rattle.court_clock.specs.Words.{IsDayNumber, days_through};
ghost use Rattle.court_days.specs.Days.{add_holiday};
ghost use Rattle.court_days.specs.Days.Table.{IsTable, day_at, next_entry, last_entry, AreEntries, closed_at, counts_in, entry_day};

use crate::days::holidays::{Holidays, numbered};
use crate::holiday_list::HolidayList;
use court_clock::{Day, Direction};
use std::alloc::{AllocError, Global};
use std::sync::Arc;

/// The entry of a day that rolls to no covered day. Other entries are below the number of days of a span.
const NONE: u16 = 65_535;

/// The entry at a place, from the entry at the place before it, which is the next day in the direction.
fn next_entry(permitted: bool, last: u16) -> u16
    ensures { result ≡ next_entry permitted last }
{
    if permitted {
        0
    } else if last == NONE {
        NONE
    } else {
        last + 1
    }
}

/// The table for a direction, in one pass over the covered days.
#[tactic(auto, using(crate::proofs::DaysLemmas::TableLemmas::table_of_entries))]
pub(crate) fn table_of(
    alloc: Global,
    holidays: &Holidays,
    direction: Direction,
) -> Result<Vec<u16>, AllocError>
    requires { days_through holidays.now.from holidays.now.to ≤ 36525 }
    ensures { IfOk result (λ t. IsTable holidays.now direction t.items) }
{
    let count = holidays.count();
    let mut entries = Vec::with_capacity(alloc, count)?;
    let mut last = NONE;
    for place in 0..count {
        last = next_entry(holidays.permitted_at(place, direction), last);
        entries.push(last)?;
    }
    Ok(entries)
}

/// The table after one more date in a holiday list: the table itself, or a copy in which the run of days that rolled
/// to that date is mended.
pub(crate) fn and_holiday(
    alloc: Global,
    table: &Arc<Vec<u16>>,
    holidays: &Holidays,
    direction: Direction,
    list: HolidayList,
    day: Day,
) -> Result<Arc<Vec<u16>>, AllocError>
    requires { IsTable holidays.now direction (arc_value table.now).items }
    ensures { IfOk result (λ t. IsTable (add_holiday holidays.now list day) direction (arc_value t).items) }
{
    let Some(place) = place_to_close(table, holidays, direction, list, day) else {
        return Arc::try_clone(table);
    };
    let entries = closed(alloc, table, place)?;
    Ok(Arc::new(alloc, entries)?)
}

/// The place that one more date in a holiday list closes. None where the date is no holiday for the direction, or
/// its day isn't covered or is closed already.
fn place_to_close(
    entries: &[u16],
    holidays: &Holidays,
    direction: Direction,
    list: HolidayList,
    day: Day,
) -> Option<usize>
    requires { IsTable holidays.now direction entries.now }
    ensures within { IfSome result (λ k. k < length entries.now) }
    ensures counts { IfSome result (λ _. counts_in list direction ≡ true) }
    ensures place { IfSome result (λ k. day ≡ day_at holidays.now direction k) }
    ensures none { IfNone result (IsTable (add_holiday holidays.now list day) direction entries.now) }
{
    if !counts_in(list, direction) {
        return None;
    }
    let Some(place) = holidays.place_of(day, direction) else {
        return None;
    };
    if entries[place] != 0 {
        return None;
    }
    Some(place)
}

/// Whether the list's dates are holidays for periods of that direction.
fn counts_in(list: HolidayList, direction: Direction) -> bool
    ensures { result ≡ counts_in list direction }
{
    match list {
        HolidayList::Federal => true,
        HolidayList::State => direction == Direction::After,
    }
}

/// The entries where the day at a place is closed.
fn closed(alloc: Global, entries: &[u16], at: usize) -> Result<Vec<u16>, AllocError>
    requires { at < length entries.now }
    ensures length { IfOk result (λ t. length t.items ≡ length entries.now) }
    ensures mended { IfOk result (λ t. (test : ℕ → Bool) → AreEntries test entries.now → AreEntries (closed_at at test) t.items) }
{
    let mut mended = Vec::from_slice(alloc, entries)?;
    close(&mut mended, at);
    Ok(mended)
}

/// Closes the day at a place: it and the days that rolled to it roll as the day at the place before it does.
fn close(entries: &mut [u16], at: usize)
    requires { at < length entries.old }
    ensures length { length entries.new ≡ length entries.old }
    ensures mended { (test : ℕ → Bool) → AreEntries test entries.old → AreEntries (closed_at at test) entries.new }
{
    let mut last = next_entry(false, last_before(entries, at));
    entries[at] = last;
    let mut place = at + 1;
    'run: while place < entries.len() && entries[place] != 0 {
        last = next_entry(false, last);
        entries[place] = last;
        place += 1;
    }
}

/// The entry at the place before this one.
#[tactic(auto, using(crate::proofs::DaysLemmas::MendLemmas::before_first, crate::proofs::DaysLemmas::MendLemmas::before_other))]
fn last_before(entries: &[u16], at: usize) -> u16
    requires { at < length entries.now }
    ensures { (test : ℕ → Bool) → AreEntries test entries.now → result ≡ last_entry test at }
{
    if at == 0 { NONE } else { entries[at - 1] }
}

/// The day to which a day rolls, from its entry.
pub(crate) fn entry_day(day: Day, direction: Direction, entry: u16) -> Option<Day>
    requires { IfSome (entry_day direction day entry) IsDayNumber }
    ensures { result ≡ entry_day direction day entry }
{
    if entry == NONE {
        return None;
    }
    let distance = i32::from(entry);
    match direction {
        Direction::After => Some(numbered(day.number() + distance)),
        Direction::Before => Some(numbered(day.number() - distance)),
    }
}
