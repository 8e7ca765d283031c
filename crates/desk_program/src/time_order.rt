//! Whether the times of a journal's entries go back, which those that the program writes never do.
ghost use Rattle.std.specs.Prelude.{◌≡◌, drop, nat_lt, None, Some, string_bytes, IfOk, MatchOption};
ghost use Rattle.desk_journal.specs.Words.{batch_of};
ghost use Rattle.desk_program.specs.declared.time_order.EarlierEntry.{EarlierEntry as EarlierEntryOf};
ghost use Rattle.desk_program.specs.Log.{first_stamp};
ghost use Rattle.desk_program.specs.TimeOrder.{earlier_in, earlier_line};

use crate::entry_kind::{EntryKind, kind_of};
use crate::log::{row_number_after, stamp_at};
use crate::log_text::kind_text;
use desk_journal::Stamp;
use std::alloc::{AllocError, Global};

/// An entry, as the log calls it.
#[derive(Clone, Copy)]
pub(crate) struct EarlierEntry {
    /// What it is.
    pub kind: EntryKind,
    /// Its number, if it is a row; else that of the next row.
    pub number: u64,
}

// The time of the stamp at a place.
fn time_at(stamps: &[Stamp], place: usize) -> u64
    ensures { result ≡ (first_stamp (drop place stamps.now)).time }
{
    stamp_at(stamps, place).0
}

// Whether a time is before another.
fn is_earlier(time: u64, before: u64) -> bool
    ensures { result ≡ nat_lt time before }
{
    time < before
}

// The first entry of which the time is before that of the entry before it.
fn first_earlier(entries: &[Vec<u8>], stamps: &[Stamp]) -> Option<EarlierEntry>
    ensures { result ≡ earlier_in (batch_of entries.now) stamps.now }
{
    let mut number = 1;
    let mut before = time_at(stamps, 0);
    for place in 1..entries.len() {
        let entry = entries[place].as_slice();
        let kind = kind_of(entry);
        let time = time_at(stamps, place);
        if is_earlier(time, before) {
            return Some(EarlierEntry { kind, number });
        }
        number = row_number_after(number, entry);
        before = time;
    }
    None
}

// What is said of it.
fn earlier_line(alloc: Global, entry: EarlierEntry) -> Result<String, AllocError>
    ensures { IfOk result (λ line. string_bytes line ≡ earlier_line entry) }
{
    let called = kind_text(alloc, entry.kind, entry.number)?;
    let said = called.as_str();
    format!(in alloc;
        "{said} has an earlier time than the entry before it, so another program wrote it: keep the file, and take the last backup\n"
    )
}

/// What is said of the first of a journal's entries of which the time is before that of the entry before it; nothing where times never
/// go back. The stamps are those of the entries, in their order.
pub fn earlier_entry(
    alloc: Global,
    entries: &[Vec<u8>],
    stamps: &[Stamp],
) -> Result<Option<String>, AllocError>
    ensures { IfOk result (λ said. MatchOption said (earlier_in (batch_of entries.now) stamps.now ≡ None)
        (λ line. (entry : EarlierEntryOf) × (earlier_in (batch_of entries.now) stamps.now ≡ Some entry) × (string_bytes line ≡ earlier_line entry))) }
{
    match first_earlier(entries, stamps) {
        None => Ok(None),
        Some(entry) => Ok(Some(earlier_line(alloc, entry)?)),
    }
}
