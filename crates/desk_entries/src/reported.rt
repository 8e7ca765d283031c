//! The rows that stand, as reports take them.
ghost use Rattle.std.specs.Prelude.{◌≡◌, ◌<◌, ◌≤◌, ◌++◌, ◌∷◌, [], ℕ, List, length, map, IfOk, OnOk};
ghost use Rattle.desk_journal.specs.Words.{batch_of};
ghost use Rattle.desk_register.specs.Words.{StandsAt, called_standing, change_in, most_entries, note_in};
ghost use Rattle.desk_entries.specs.Review.{changes_by};
ghost use Rattle.desk_entries.specs.Reported.{rows_standing, said_standing, standing_as};

use case_numbers::after_name;
use csv::StringRecord;
use desk_numbers::{CalledTexts, MovedNumbers};
use desk_register::{
    Difference, DocketRegister, MOST_CLERKS, RowTypes, Standing, decide_entry, is_row,
};
use row_forms::{Line, NumberedRow, Row, read_line};
use std::alloc::{AllocError, Global};

/// The rows that stand, which of them are answered otherwise than they were, and what they call things.
#[derive(Drop)]
pub struct Reported {
    /// The rows, each with the number that it was answered with.
    pub rows: Vec<NumberedRow>,
    /// Those that are answered otherwise, in their order.
    pub differences: Vec<Difference>,
    /// What the rows call cases, deadlines and motions, by the numbers that these have for the office.
    pub called: CalledTexts,
}

// Adds the row of a line that says this, with its number, where this is what isn't at the place of its number.
pub(crate) fn push_said(
    rows: &mut Vec<NumberedRow>,
    moved: &MovedNumbers,
    number: u32,
    said: &Line,
) -> Result<(), AllocError>
    ensures { OnOk result (rows.new.items ≡ rows.old.items ++ said_standing moved.now number said.now) }
{
    let _types: RowTypes = None;
    let Line::Row(row) = said else {
        return Ok(());
    };
    let row = Row {
        clerk: row.clerk,
        work: moved.place(&row.work),
    };
    rows.push(NumberedRow {
        number: u64::from(number),
        row,
    })?;
    Ok(())
}

// Adds the row that an entry is, if it is one that stands, before the register takes it.
fn push_standing(
    alloc: Global,
    under: &Standing,
    register: &DocketRegister,
    entry: &[u8],
    fields: &mut StringRecord,
    rows: &mut Vec<NumberedRow>,
) -> Result<(), AllocError>
    ensures { (kept : List (List ℕ)) → StandsAt under.now register.now kept → OnOk result (rows.new.items ≡ rows.old.items ++ standing_as (note_in entry.now) under.now kept entry.now) }
{
    let _types: RowTypes = None;
    if !is_row(entry) {
        return Ok(());
    }
    let number = register.next_number();
    if under.corrections.is_struck(number) {
        return Ok(());
    }
    let apart = register.numbers().moved();
    let said = read_line(alloc, after_name(entry), MOST_CLERKS, &under.court, fields)?;
    push_said(rows, apart, number, &said)?;
    Ok(())
}

/// The rows of entries that stand, each with the number that it was answered with, counted from 1; a row that is struck is left
/// out. What a row names by a number is named by its place among those that stand, so that what the rows docket one after another
/// is the docket that stands. With them is what they call cases, deadlines and motions; a row that is refused calls nothing so.
/// `Err` says that memory ran out.
pub fn standing_rows(
    alloc: Global,
    under: &Standing,
    entries: &[Vec<u8>],
) -> Result<Reported, AllocError>
    requires some { 0 < length entries.now }
    requires few { length entries.now ≤ most_entries }
    ensures rows { IfOk result (λ reported. reported.rows.items ≡ rows_standing under.now (batch_of entries.now)) }
    ensures changes { IfOk result (λ reported. map change_in reported.differences.items ≡ changes_by under.now (batch_of entries.now)) }
    ensures called { IfOk result (λ reported. reported.called ≡ called_standing under.now (batch_of entries.now)) }
{
    let mut register = DocketRegister::new(alloc, under)?;
    let mut fields = StringRecord::new(alloc);
    let mut rows = Vec::new(alloc);
    let mut differences = Vec::new(alloc);
    for place in 1..entries.len() {
        push_standing(
            alloc,
            under,
            &register,
            &entries[place],
            &mut fields,
            &mut rows,
        )?;
        decide_entry(
            alloc,
            under,
            &mut register,
            &entries[place],
            &mut differences,
        )?;
    }
    let called = register.into_called();
    Ok(Reported {
        rows,
        differences,
        called,
    })
}
