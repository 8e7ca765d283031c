//! The rows that are struck now.
ghost use Rattle.std.specs.Prelude.{◌≡◌, ◌++◌, List, ℕ, IfOk, OnOk, false, option_map};
ghost use Rattle.std.specs.Io.KnownBytes.{Appends};
ghost use Rattle.desk_journal.specs.Words.{batch_of};
ghost use Rattle.desk_numbers.specs.Strikes.Words.{is_among, restore_in};
ghost use Rattle.program_streams.specs.Words.{has_failed, watched};
ghost use Rattle.desk_program.specs.Struck.{restored_as, rows_restored, struck_line, struck_text};

use crate::faults::OutputFault;
use desk_numbers::{remark_in, restore_in, strike_in};
use program_streams::{Watched, write_all};
use std::alloc::{AllocError, Global};
use std::io::Write;

// Adds the row that an entry restores, if it restores one.
fn push_restored(rows: &mut Vec<u32>, entry: &[u8]) -> Result<(), AllocError>
    ensures { OnOk result (rows.new.items ≡ rows.old.items ++ restored_as (restore_in entry.now)) }
{
    match restore_in(entry) {
        Some(restore) => {
            rows.push(restore.row)?;
            Ok(())
        }
        None => Ok(()),
    }
}

// The rows that entries restore, in their order.
fn rows_restored(alloc: Global, entries: &[Vec<u8>]) -> Result<Vec<u32>, AllocError>
    ensures { IfOk result (λ rows. rows.items ≡ rows_restored (batch_of entries.now)) }
{
    let mut rows = Vec::new(alloc);
    for entry in entries {
        push_restored(&mut rows, entry)?;
    }
    Ok(rows)
}

// The rows that are restored after an entry, of those that are from that entry on.
fn restored_after<'a>(restored: &'a [u32], entry: &[u8]) -> &'a [u32]
    ensures { (later : List ℕ) → restored.now ≡ restored_as (restore_in entry.now) ++ later → result.now ≡ later }
{
    match restore_in(entry) {
        Some(_) => match restored {
            [_, later @ ..] => later,
            [] => restored,
        },
        None => restored,
    }
}

// Whether a row is among these.
fn is_among(rows: &[u32], row: u32) -> bool
    ensures { result ≡ is_among rows.now row }
{
    rows.iter().any(|each| row == *each)
}

// Adds the line of an entry that is a strike, unless its row is among those that are restored after it.
fn push_struck(
    alloc: Global,
    text: &mut Vec<u8>,
    entry: &[u8],
    restored: &[u32],
) -> Result<(), AllocError>
    ensures { OnOk result (text.new.items ≡ text.old.items ++ struck_line entry.now restored.now) }
{
    match strike_in(entry) {
        Some(strike) => {
            let row = strike.row;
            if is_among(restored, row) {
                return Ok(());
            }
            let line = format!(in alloc; "row {row} ")?;
            text.extend_from_slice(line.as_bytes())?;
            text.extend_from_slice(remark_in(entry))
        }
        None => Ok(()),
    }
}

// What is written of the strikes among entries.
fn struck_text(alloc: Global, entries: &[Vec<u8>]) -> Result<Vec<u8>, AllocError>
    ensures { IfOk result (λ text. text.items ≡ struck_text (batch_of entries.now)) }
{
    let rows = rows_restored(alloc, entries)?;
    let mut restored = rows.as_slice();
    let mut text = Vec::new(alloc);
    for entry in entries {
        restored = restored_after(restored, entry);
        push_struck(alloc, &mut text, entry, restored)?;
    }
    Ok(text)
}

/// Writes a line for each row that is struck, in the order in which they were: its number, and the remark. A row that was
/// restored since isn't.
pub fn write_struck<W: Write>(
    alloc: Global,
    entries: &[Vec<u8>],
    writer: &mut Watched<W>,
) -> Result<(), OutputFault>
    requires works { has_failed writer.old ≡ false }
    ensures written { OnOk result (Appends (W.contents (watched writer.old)) (W.contents (watched writer.new)) (struck_text (batch_of entries.now))) }
{
    let text = struck_text(alloc, entries)?;
    if write_all(writer, &text).is_err() {
        return Err(OutputFault::Write);
    }
    Ok(())
}
