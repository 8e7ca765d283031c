//! The rows of a docket, written as clerk_office reads them.
ghost use Rattle.std.specs.Prelude.{◌≡◌, ◌≤◌, ◌+◌, ◌++◌, [], ℕ, List, length, false, IfErr, IfOk, OnOk};
ghost use Rattle.std.specs.Io.KnownBytes.{Appends};
ghost use Rattle.desk_journal.specs.Words.{batch_of};
ghost use Rattle.program_streams.specs.Words.{has_failed, watched};
ghost use Rattle.desk_entries.specs.Words.{HasHistoryFault, IsHistory, most_entries, note_in, row_entries, row_only, rows_written};
ghost use Rattle.desk_program.specs.Rows.{count_text, ended, head_of, written_rows};

use crate::faults::OutputFault;
use csv::StringRecord;
use desk_entries::{Docketed, HistoryFault, Standing, is_row, push_row, standing_file};
use desk_numbers::MovedNumbers;
use program_streams::{Watched, write_all};
use std::alloc::{AllocError, Global};
use std::io::Write;

// How many bytes are gathered before they are written.
const ROOM: usize = 65_536;

// Writes what was gathered, and begins anew.
pub(crate) fn put<W: Write>(writer: &mut Watched<W>, text: &mut Vec<u8>) -> Result<(), OutputFault>
    requires { has_failed writer.old ≡ false }
    ensures written { OnOk result (Appends (W.contents (watched writer.old)) (W.contents (watched writer.new)) text.old.items) }
    ensures empty { OnOk result (text.new.items ≡ []) }
    ensures working { OnOk result (has_failed writer.new ≡ false) }
{
    if write_all(writer, text).is_err() {
        return Err(OutputFault::Write);
    }
    text.clear();
    Ok(())
}

// The same where enough was gathered.
pub(crate) fn put_if_long<W: Write>(
    writer: &mut Watched<W>,
    text: &mut Vec<u8>,
) -> Result<(), OutputFault>
    requires { has_failed writer.old ≡ false }
    ensures written { OnOk result ((front : List ℕ) × Appends (W.contents (watched writer.old)) (W.contents (watched writer.new)) front × (text.old.items ≡ front ++ text.new.items)) }
    ensures working { OnOk result (has_failed writer.new ≡ false) }
{
    if text.len() < ROOM {
        return Ok(());
    }
    put(writer, text)
}

// Adds a court's file, with an end of its last line.
fn push_ended(text: &mut Vec<u8>, file: &[u8]) -> Result<(), AllocError>
    ensures { OnOk result (text.new.items ≡ text.old.items ++ ended file.now) }
{
    text.extend_from_slice(file)?;
    if file.ends_with(b"\n") {
        return Ok(());
    }
    text.push(b'\n')?;
    Ok(())
}

// Adds a court's file, and a line `%%`.
fn push_file(text: &mut Vec<u8>, file: &[u8]) -> Result<(), AllocError>
    ensures { OnOk result (text.new.items ≡ text.old.items ++ head_of file.now) }
{
    push_ended(text, file)?;
    text.extend_from_slice(b"%%\n")
}

// Adds what is written of the row that an entry is, which has this number if it is one, and gives the number of the next.
fn push_entry(
    alloc: Global,
    under: &Standing,
    moved: &MovedNumbers,
    number: u32,
    entry: &[u8],
    fields: &mut StringRecord,
    text: &mut Vec<u8>,
) -> Result<u32, AllocError>
    requires few { number ≤ most_entries }
    ensures text { OnOk result (text.new.items ≡ text.old.items ++ rows_written under.now moved.now number (row_only (note_in entry.now) entry.now)) }
    ensures next { IfOk result (λ next. next ≡ number + length (row_only (note_in entry.now) entry.now)) }
{
    if !is_row(entry) {
        return Ok(number);
    }
    push_row(alloc, under, moved, number, entry, fields, text)?;
    Ok(number + 1)
}

/// Writes a docket's entries as clerk_office reads them: the court's file that stands, a line `%%` and the rows that stand as
/// CSV. A row that is struck is left out, and rows name deadlines and motions by their places among those that stand, as
/// clerk_office counts them. Where the docket has had one court's file only and nothing is struck, clerk_office gives the
/// answers that were given, with numbers in place of names.
pub fn write_rows<W: Write>(
    alloc: Global,
    under: &Standing,
    moved: &MovedNumbers,
    entries: &[Vec<u8>],
    writer: &mut Watched<W>,
) -> Result<(), OutputFault>
    requires few { length entries.now ≤ most_entries }
    requires works { has_failed writer.old ≡ false }
    ensures written { OnOk result (Appends (W.contents (watched writer.old)) (W.contents (watched writer.new)) (written_rows under.now moved.now (batch_of entries.now))) }
{
    let mut text = Vec::new(alloc);
    push_file(&mut text, standing_file(entries))?;
    let mut fields = StringRecord::new(alloc);
    let mut number = 1;
    for place in 1..entries.len() {
        number = push_entry(
            alloc,
            under,
            moved,
            number,
            &entries[place],
            &mut fields,
            &mut text,
        )?;
        put_if_long(writer, &mut text)?;
    }
    put(writer, &mut text)
}

/// How many rows these entries have, each with the answer that it got under what stood at its time: all are decided again, as
/// often as there are corrections. `Err` says what is wrong with them.
pub fn checked_rows(alloc: Global, entries: &[Vec<u8>]) -> Result<u32, HistoryFault>
    requires few { length entries.now ≤ most_entries }
    ensures count { IfOk result (λ count. IsHistory (batch_of entries.now) × (count ≡ length (row_entries (batch_of entries.now)))) }
    ensures cause { IfErr result (HasHistoryFault (batch_of entries.now)) }
{
    match Docketed::checked(alloc, entries) {
        Ok(docketed) => Ok(docketed.register.next_number().saturating_sub(1)),
        Err(fault) => Err(fault),
    }
}

/// Writes how many rows are kept.
pub fn write_count<W: Write>(
    alloc: Global,
    count: u32,
    writer: &mut Watched<W>,
) -> Result<(), OutputFault>
    requires works { has_failed writer.old ≡ false }
    ensures written { OnOk result (Appends (W.contents (watched writer.old)) (W.contents (watched writer.new)) (count_text count)) }
{
    let line = format!(in alloc; "rows kept: {count}, and each is answered as it was\n")?;
    if write_all(writer, line.as_bytes()).is_err() {
        return Err(OutputFault::Write);
    }
    Ok(())
}
