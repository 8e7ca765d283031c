//! What a docket's entries say beside what it has now.
ghost use Rattle.std.specs.Prelude.{◌≡◌, ◌<◌, ◌≤◌, ◌++◌, drop, length, map, option_map, IfOk, OnOk};
ghost use Rattle.case_numbers.specs.Words.{after_name as row_part};
ghost use Rattle.desk_journal.specs.Words.{batch_of};
ghost use Rattle.row_forms.specs.Words.{names_of};
ghost use Rattle.row_forms.specs.Line.Words.{line_read};
ghost use Rattle.desk_register.specs.Words.{change_in, most_clerks, most_entries, note_in, rows_with};
ghost use Rattle.desk_entries.specs.Past.{corrected_with, corrections_in, is_restored, is_struck_first, refuses, restores_it, row_refused, row_struck_as, row_struck_said, rows_refused, rows_struck, stays_struck, strikes_it};

use crate::reported::push_said;
use case_numbers::after_name;
use csv::StringRecord;
use desk_numbers::{MovedNumbers, remark_in, restore_in, strike_in};
use desk_register::{Difference, MOST_CLERKS, RowTypes, Standing, is_row, later_file};
use office_texts::push_numbers;
use row_forms::{Line, NumberedRow, read_line};
use std::alloc::{AllocError, Global};

/// How often rows were struck or restored or another court's file was taken.
#[derive(Clone, Copy, Debug, PartialEq, Eq)]
pub struct Corrected {
    /// How many rows there were before the last such correction; 0 where there was none.
    pub rows_before: u32,
    /// How many corrections there were.
    pub count: u32,
}

// Whether an answer refuses the row of that number, which says this.
fn refuses(alloc: Global, number: u32, answer: &[u8], said: &Line) -> Result<bool, AllocError>
    ensures { IfOk result (λ refuses_it. refuses_it ≡ refuses number answer.now said.now) }
{
    let _types: RowTypes = None;
    let Line::Row(row) = said else {
        return Ok(false);
    };
    let mut refused = String::new(alloc);
    push_numbers(&mut refused, u64::from(number), row.clerk)?;
    refused.push_str("refused ")?;
    Ok(answer.starts_with(refused.as_bytes()))
}

// Whether an entry that is no row strikes the row of that number.
fn strikes_it(number: u32, entry: &[u8]) -> Option<bool>
    ensures { result ≡ option_map (strikes_it number) (note_in entry.now) }
{
    if later_file(entry).is_some() {
        return Some(false);
    }
    match strike_in(entry) {
        Some(strike) => Some(strike.row == number),
        None => match restore_in(entry) {
            Some(_) => Some(false),
            None => None,
        },
    }
}

// Whether the first of these entries that is no row strikes the row of that number.
fn is_struck_first(number: u32, later: &[Vec<u8>]) -> bool
    ensures { result ≡ is_struck_first number (batch_of later.now) }
{
    for place in 0..later.len() {
        if let Some(strikes) = strikes_it(number, &later[place]) {
            return strikes;
        }
    }
    false
}

// Whether an entry restores the row of that number.
fn restores_it(number: u32, entry: &[u8]) -> bool
    ensures { result ≡ restores_it number (note_in entry.now) }
{
    if later_file(entry).is_some() || strike_in(entry).is_some() {
        return false;
    }
    match restore_in(entry) {
        Some(restore) => restore.row == number,
        None => false,
    }
}

// Whether one of these entries restores the row of that number.
fn is_restored(number: u32, later: &[Vec<u8>]) -> bool
    ensures { result ≡ is_restored number (batch_of later.now) }
{
    for place in 0..later.len() {
        if restores_it(number, &later[place]) {
            return true;
        }
    }
    false
}

// Whether the first correction after a row of that number struck it, and none restored it since.
fn stays_struck(number: u32, later: &[Vec<u8>]) -> bool
    ensures { result ≡ stays_struck number (batch_of later.now) }
{
    is_struck_first(number, later) && !is_restored(number, later)
}

// Adds the row of that number, whose entry this is and comes before these, if it is struck and has docketed something.
fn push_struck(
    alloc: Global,
    under: &Standing,
    moved: &MovedNumbers,
    number: u32,
    entry: &[u8],
    later: &[Vec<u8>],
    fields: &mut StringRecord,
    rows: &mut Vec<NumberedRow>,
) -> Result<(), AllocError>
    ensures { OnOk result (rows.new.items ≡ rows.old.items ++ row_struck_said under.now moved.now number entry.now (line_read most_clerks (names_of under.now.court) (row_part entry.now)) (batch_of later.now)) }
{
    let _types: RowTypes = None;
    if !under.corrections.is_struck(number) {
        return Ok(());
    }
    let said = read_line(alloc, after_name(entry), MOST_CLERKS, &under.court, fields)?;
    if refuses(alloc, number, remark_in(after_name(entry)), &said)? && stays_struck(number, later) {
        return Ok(());
    }
    push_said(rows, moved, number, &said)
}

// Adds the row that an entry is which comes before these, and which has this number if it is one, where it is struck and has
// docketed something. Gives the number of the next.
fn push_if_row(
    alloc: Global,
    under: &Standing,
    moved: &MovedNumbers,
    number: u32,
    entry: &[u8],
    later: &[Vec<u8>],
    fields: &mut StringRecord,
    rows: &mut Vec<NumberedRow>,
) -> Result<u32, AllocError>
    requires few { number ≤ most_entries }
    ensures rows { OnOk result (rows.new.items ≡ rows.old.items ++ row_struck_as (note_in entry.now) under.now moved.now number entry.now (batch_of later.now)) }
    ensures next { IfOk result (λ next. next ≡ rows_with (note_in entry.now) number) }
{
    if !is_row(entry) {
        return Ok(number);
    }
    push_struck(alloc, under, moved, number, entry, later, fields, rows)?;
    Ok(number + 1)
}

/// The rows of a docket that are struck, each with the number that it was answered with, counted from 1. What a row names by a
/// number is named by its place among those that stand, which is 0 where nothing has the number any more. A row that was refused
/// and never done is left out. `Err` says that memory ran out.
pub fn struck_rows(
    alloc: Global,
    under: &Standing,
    moved: &MovedNumbers,
    entries: &[Vec<u8>],
) -> Result<Vec<NumberedRow>, AllocError>
    requires few { length entries.now ≤ most_entries }
    ensures { IfOk result (λ rows. rows.items ≡ rows_struck under.now moved.now 1 (drop 1 (batch_of entries.now))) }
{
    let _types: RowTypes = None;
    let mut rows = Vec::new(alloc);
    let mut fields = StringRecord::new(alloc);
    let mut number = 1;
    for place in 1..entries.len() {
        number = push_if_row(
            alloc,
            under,
            moved,
            number,
            &entries[place],
            entries.split_at(place + 1).1,
            &mut fields,
            &mut rows,
        )?;
    }
    Ok(rows)
}

// Adds the row that is answered otherwise, if it was done once and is refused now.
fn push_refused(
    alloc: Global,
    under: &Standing,
    moved: &MovedNumbers,
    difference: &Difference,
    fields: &mut StringRecord,
    rows: &mut Vec<NumberedRow>,
) -> Result<(), AllocError>
    ensures { OnOk result (rows.new.items ≡ rows.old.items ++ row_refused under.now moved.now (change_in difference.now)) }
{
    let _types: RowTypes = None;
    let number = difference.number;
    let row = after_name(&difference.entry);
    let said = read_line(alloc, row, MOST_CLERKS, &under.court, fields)?;
    if refuses(alloc, number, &difference.answer, &said)?
        && !refuses(alloc, number, remark_in(row), &said)?
    {
        return push_said(rows, moved, number, &said);
    }
    Ok(())
}

/// Of rows that are answered otherwise than they were, those that were done once and are refused now, each with its number and by
/// places as the struck ones are. `Err` says that memory ran out.
pub fn refused_rows(
    alloc: Global,
    under: &Standing,
    moved: &MovedNumbers,
    differences: &[Difference],
) -> Result<Vec<NumberedRow>, AllocError>
    ensures { IfOk result (λ rows. rows.items ≡ rows_refused under.now moved.now (map change_in differences.now)) }
{
    let mut rows = Vec::new(alloc);
    let mut fields = StringRecord::new(alloc);
    for difference in differences {
        push_refused(alloc, under, moved, difference, &mut fields, &mut rows)?;
    }
    Ok(rows)
}

// How many rows there are after an entry, and how often corrections were made by then.
fn noted(entry: &[u8], rows: u32, before: Corrected) -> (u32, Corrected)
    requires rows { rows < most_entries }
    requires count { before.count < most_entries }
    ensures rows { result.0 ≡ rows_with (note_in entry.now) rows }
    ensures corrected { result.1 ≡ corrected_with (note_in entry.now) rows before }
{
    if is_row(entry) {
        return (rows + 1, before);
    }
    let corrected = Corrected {
        rows_before: rows,
        count: before.count + 1,
    };
    (rows, corrected)
}

/// How often entries strike or restore a row or have another court's file, and how many rows there are before the last of these.
pub fn corrections_in(entries: &[Vec<u8>]) -> Corrected
    requires few { length entries.now ≤ most_entries }
    ensures { result ≡ corrections_in (batch_of entries.now) }
{
    let mut rows = 0;
    let mut corrected = Corrected {
        rows_before: 0,
        count: 0,
    };
    for place in 1..entries.len() {
        (rows, corrected) = noted(&entries[place], rows, corrected);
    }
    corrected
}
