//! The strike of a row, and the restore of one that is struck.
ghost use Rattle.std.specs.Prelude.{◌≡◌, ◌<◌, ◌≤◌, ℕ, List, length, IfOk};
ghost use Rattle.case_numbers.specs.Words.{after_name as row_part};
ghost use Rattle.desk_journal.specs.Words.{batch_of};
ghost use Rattle.row_forms.specs.Words.{names_of};
ghost use Rattle.row_forms.specs.Line.Words.{line_read};
ghost use Rattle.desk_register.specs.declared.standing.Standing.{Standing as StandingOf};
ghost use Rattle.desk_register.specs.Entries.{most_clerks, most_entries, note_in};
ghost use Rattle.desk_register.specs.Striking.{entry_at, has_row, restore_for, rows_left, strike_for, strike_said};

use crate::entry::is_row;
use crate::fault::StrikeFault;
use crate::register::{DocketRegister, MOST_CLERKS, RowTypes};
use crate::standing::Standing;
use case_numbers::after_name;
use csv::StringRecord;
use desk_numbers::{Restore, Strike};
use row_forms::{Line, Work, read_line};
use std::alloc::{AllocError, Global};

// The strike of the row of that number, whose line says this.
fn strike_said(row: u32, said: &Line) -> Result<Strike, StrikeFault>
    ensures { result ≡ strike_said row said.now }
{
    let _types: RowTypes = None;
    match said {
        Line::Row(said) => match &said.work {
            Work::Command(_) => Ok(Strike { row }),
            Work::Query(_) => Err(StrikeFault::NotACommand),
        },
        _ => Err(StrikeFault::NotACommand),
    }
}

// The strike of the row of that number, which this entry says.
fn strike_read(
    alloc: Global,
    under: &Standing,
    row: u32,
    entry: &[u8],
) -> Result<Result<Strike, StrikeFault>, AllocError>
    ensures { IfOk result (λ strike. strike ≡ strike_said row (line_read most_clerks (names_of under.now.court) (row_part entry.now))) }
{
    let _types: RowTypes = None;
    let mut fields = StringRecord::new(alloc);
    let line = after_name(entry);
    let said = read_line(alloc, line, MOST_CLERKS, &under.court, &mut fields)?;
    Ok(strike_said(row, &said))
}

// How many rows come before the one that is looked for, after an entry before which it was this many. `None` says that the entry
// is that row.
fn rows_left(entry: &[u8], left: u32) -> Option<u32>
    ensures { result ≡ rows_left (note_in entry.now) left }
{
    if !is_row(entry) {
        return Some(left);
    }
    left.checked_sub(1)
}

/// The entry of the row of that number, counted from 1, among entries, of which the first is a court's file. It is empty where there
/// is none; the number 0 is that of the first.
pub fn entry_at(entries: &[Vec<u8>], row: u32) -> &[u8]
    ensures { result.now ≡ entry_at (batch_of entries.now) row }
{
    let mut left = row.saturating_sub(1);
    'rows: for place in 1..entries.len() {
        let entry = entries[place].as_slice();
        match rows_left(entry, left) {
            Some(next) => left = next,
            None => return entry,
        }
    }
    &[]
}

impl DocketRegister {
    ghost use Rattle.desk_register.specs.Register.{StandsAt};

    // Whether a row of that number was entered.
    fn has_row(&self, row: u32) -> bool
        ensures { (under : StandingOf) (kept : List (List ℕ)) → StandsAt under self.now kept → result ≡ has_row kept row }
    {
        0 < row && row < self.number
    }

    /// The strike of the row of that number, counted from 1, or why it can't be struck. The entries are those that the register
    /// counts. `Err` outside says that memory ran out.
    #[tactic(auto, unfolding(crate::specs::Striking::strike_for))]
    pub fn struck_by(
        &self,
        alloc: Global,
        under: &Standing,
        entries: &[Vec<u8>],
        row: u32,
    ) -> Result<Result<Strike, StrikeFault>, AllocError>
        requires few { length entries.now ≤ most_entries }
        ensures { StandsAt under.now self.now (batch_of entries.now) → IfOk result (λ strike. strike ≡ strike_for under.now (batch_of entries.now) row) }
    {
        if !self.has_row(row) {
            return Ok(Err(StrikeFault::NoSuchRow));
        }
        if under.corrections.is_struck(row) {
            return Ok(Err(StrikeFault::AlreadyStruck));
        }
        strike_read(alloc, under, row, entry_at(entries, row))
    }

    /// The restore of the row of that number, counted from 1, or why it can't be restored.
    #[tactic(auto, unfolding(crate::specs::Striking::restore_for))]
    pub fn restored_by(&self, under: &Standing, row: u32) -> Result<Restore, StrikeFault>
        ensures { (kept : List (List ℕ)) → StandsAt under.now self.now kept → result ≡ restore_for under.now kept row }
    {
        if !self.has_row(row) {
            return Err(StrikeFault::NoSuchRow);
        }
        if !under.corrections.is_struck(row) {
            return Err(StrikeFault::NotStruck);
        }
        Ok(Restore { row })
    }
}
