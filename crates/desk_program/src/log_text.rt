//! An entry as the log's text has it: what it is, when it was kept and by whom, and what it says.
ghost use Rattle.std.specs.Prelude.{◌≡◌, ◌++◌, IfOk, OnOk, string_bytes};
ghost use Rattle.desk_program.specs.LogText.{dated_day, entry_heading, entry_text, indented, kind_text, said_text, utc_time, without_end};

use crate::entry_kind::EntryKind;
use crate::shown::{LineEnds, push_shown};
use court_clock::Day;
use desk_numbers::remark_in;
use reason_texts::push_second;
use std::alloc::{AllocError, Global};

/// A text without the end of its last line.
pub(crate) fn without_end(text: &[u8]) -> &[u8]
    ensures { result.now ≡ without_end text.now }
{
    match text.strip_suffix(b"\n") {
        Some(front) => front,
        None => text,
    }
}

/// Adds a text with two blanks before each of its lines.
pub(crate) fn push_indented(text: &mut Vec<u8>, said: &[u8]) -> Result<(), AllocError>
    ensures { OnOk result (text.new.items ≡ text.old.items ++ indented said.now) }
{
    text.extend_from_slice(b"  ")?;
    push_shown(text, without_end(said), LineEnds::Indented)?;
    text.extend_from_slice(b"\n")
}

/// The day of a second, if it has a date.
pub(crate) fn dated_day(time: u64) -> Option<Day>
    ensures { result ≡ dated_day time }
{
    let number = i32::try_from(time / 86_400).ok()?;
    Day::new(number)
}

// A time, as days and seconds of UTC.
fn utc_time(alloc: Global, time: u64) -> Result<String, AllocError>
    ensures { IfOk result (λ text. string_bytes text ≡ utc_time time) }
{
    match dated_day(time) {
        Some(day) => {
            let mut text = format!(in alloc; "{day} ")?;
            push_second(&mut text, (time % 86_400) as u32)?;
            text.push_str(" UTC")?;
            Ok(text)
        }
        None => format!(in alloc; "second {time} UTC"),
    }
}

/// What an entry is, where a row has this number.
pub(crate) fn kind_text(alloc: Global, kind: EntryKind, number: u64) -> Result<String, AllocError>
    ensures { IfOk result (λ text. string_bytes text ≡ kind_text kind number) }
{
    match kind {
        EntryKind::Row => format!(in alloc; "row {number}"),
        EntryKind::CourtFile => String::from_str(alloc, "court's file"),
        EntryKind::Strike(row) => format!(in alloc; "strike of row {row}"),
        EntryKind::Restore(row) => format!(in alloc; "restore of row {row}"),
    }
}

// Adds the line of an entry.
fn push_entry_heading(
    alloc: Global,
    text: &mut Vec<u8>,
    kind: &str,
    time: u64,
    account: &[u8],
) -> Result<(), AllocError>
    ensures { OnOk result (text.new.items ≡ text.old.items ++ entry_heading kind.now (record { time = time; account = account.now })) }
{
    text.extend_from_slice(kind.as_bytes())?;
    text.extend_from_slice(b"  ")?;
    text.extend_from_slice(utc_time(alloc, time)?.as_bytes())?;
    text.extend_from_slice(b"  ")?;
    push_shown(text, account, LineEnds::Escaped)?;
    text.extend_from_slice(b"\n")
}

// Adds what an entry says.
fn push_said(text: &mut Vec<u8>, kind: EntryKind, entry: &[u8]) -> Result<(), AllocError>
    ensures { OnOk result (text.new.items ≡ text.old.items ++ said_text kind entry.now) }
{
    match kind {
        EntryKind::Row => push_indented(text, entry),
        EntryKind::CourtFile => Ok(()),
        EntryKind::Strike(_) | EntryKind::Restore(_) => push_indented(text, remark_in(entry)),
    }
}

/// Adds what the log says of an entry, where a row has this number.
pub(crate) fn push_entry_text(
    alloc: Global,
    text: &mut Vec<u8>,
    kind: EntryKind,
    number: u64,
    entry: &[u8],
    time: u64,
    account: &[u8],
) -> Result<(), AllocError>
    ensures { OnOk result (text.new.items ≡ text.old.items ++ entry_text kind number entry.now (record { time = time; account = account.now })) }
{
    let said = kind_text(alloc, kind, number)?;
    push_entry_heading(alloc, text, said.as_str(), time, account)?;
    push_said(text, kind, entry)
}
