//! The log of a journal: its entries that are asked for, as text or as JSON.
ghost use Rattle.std.specs.Prelude.{◌≡◌, ◌+◌, ◌++◌, ◌<◌, ◌^◌, ◌||◌, drop, false, length, get_or, IfOk, nat_lt, None, OnOk};
ghost use Rattle.std.specs.Io.KnownBytes.{Appends};
ghost use Rattle.program_streams.specs.Words.{has_failed, watched};
ghost use Rattle.row_forms.specs.Words.{names_of};
ghost use Rattle.desk_journal.specs.Words.{batch_of};
ghost use Rattle.desk_entries.specs.Words.{note_in, row_only};
ghost use Rattle.desk_program.specs.EntryKind.{kind_of};
ghost use Rattle.desk_program.specs.Log.{cases_looked_up, entry_case, entry_log, first_log, first_stamp, is_account_asked, is_case_asked, is_entry_asked, is_from, is_row_asked, is_stamp_asked, is_up_to, log_text, said_of};

use crate::entry_kind::{EntryKind, kind_of};
use crate::faults::OutputFault;
use crate::log_json::push_entry_json;
use crate::log_text::push_entry_text;
use crate::row_case::cases_named;
use crate::rows::{put, put_if_long};
use court_days::Court;
use desk_entries::is_row;
use desk_journal::Stamp;
use program_streams::Watched;
use std::alloc::{AllocError, Global};
use std::io::Write;

/// Which entries are written: those of which all of this holds. And how.
#[derive(Drop)]
pub struct LogChoice {
    /// The row of that number, counted from 1, its strikes and its restores.
    pub row: Option<u32>,
    /// The rows that name the case of that number, their strikes and their restores.
    pub case: Option<u32>,
    /// Those of this account, or of one that begins with this and an `@`.
    pub by: Option<String>,
    /// Those of that second of UTC or a later one, counted from 1970-01-01T00:00:00.
    pub from: Option<u64>,
    /// Those before that second.
    pub to: Option<u64>,
    /// As JSON, an object a line.
    pub json: bool,
}

// Whether an account is asked for.
fn is_account_asked(by: &Option<String>, account: &[u8]) -> bool
    ensures { result ≡ is_account_asked by.now account.now }
{
    let Some(name) = by else {
        return true;
    };
    match account.strip_prefix(name.as_bytes()) {
        Some([]) => true,
        Some([byte, ..]) => *byte == b'@',
        None => false,
    }
}

// Whether the time is that second or a later one.
fn is_from(from: Option<u64>, time: u64) -> bool
    ensures { result ≡ is_from from time }
{
    match from {
        Some(from) => from <= time,
        None => true,
    }
}

// Whether the time is before that second.
fn is_up_to(to: Option<u64>, time: u64) -> bool
    ensures { result ≡ is_up_to to time }
{
    match to {
        Some(to) => time < to,
        None => true,
    }
}

// Whether an entry is of the row that is asked for, where a row has this number.
fn is_row_asked(row: Option<u32>, kind: EntryKind, number: u64) -> bool
    ensures { result ≡ is_row_asked row kind number }
{
    let Some(row) = row else {
        return true;
    };
    match kind {
        EntryKind::Row => number == u64::from(row),
        EntryKind::CourtFile => false,
        EntryKind::Strike(of) | EntryKind::Restore(of) => of == row,
    }
}

// The case of the row of that number, by the cases that rows name.
fn case_at(named: &[Option<u32>], number: u64) -> Option<u32>
    ensures { result ≡ get_or named.now number None }
{
    match named.get(number as usize) {
        Some(case) => *case,
        None => None,
    }
}

// The case of an entry, where a row has this number, by the cases that rows name.
fn entry_case(named: &[Option<u32>], kind: EntryKind, number: u64) -> Option<u32>
    ensures { result ≡ entry_case named.now kind number }
{
    match kind {
        EntryKind::Row => case_at(named, number),
        EntryKind::CourtFile => None,
        EntryKind::Strike(row) | EntryKind::Restore(row) => case_at(named, u64::from(row)),
    }
}

// Whether the case that an entry has is asked for.
fn is_case_asked(asked: Option<u32>, case: Option<u32>) -> bool
    ensures { result ≡ is_case_asked asked case }
{
    match (asked, case) {
        (None, _) => true,
        (Some(asked), Some(case)) => case == asked,
        (Some(_), None) => false,
    }
}

// Whether the stamp of an entry is one that is asked for.
fn is_stamp_asked(choice: &LogChoice, time: u64, account: &[u8]) -> bool
    ensures { result ≡ is_stamp_asked choice.now (record { time = time; account = account.now }) }
{
    is_account_asked(&choice.by, account) && is_from(choice.from, time) && is_up_to(choice.to, time)
}

// Whether an entry is one that is asked for, where a row has this number.
fn is_entry_asked(
    choice: &LogChoice,
    kind: EntryKind,
    number: u64,
    case: Option<u32>,
    time: u64,
    account: &[u8],
) -> bool
    ensures { result ≡ is_entry_asked choice.now kind number case (record { time = time; account = account.now }) }
{
    is_row_asked(choice.row, kind, number)
        && is_case_asked(choice.case, case)
        && is_stamp_asked(choice, time, account)
}

// The time and the account of the stamp at a place.
pub(crate) fn stamp_at(stamps: &[Stamp], place: usize) -> (u64, &[u8])
    ensures time { result.0 ≡ (first_stamp (drop place stamps.now)).time }
    ensures account { result.1.now ≡ (first_stamp (drop place stamps.now)).account }
{
    match stamps.get(place) {
        Some(stamp) => (stamp.time(), stamp.account()),
        None => (0, &[]),
    }
}

// Adds what is said of an entry, where a row has this number.
fn push_said_of(
    alloc: Global,
    json: bool,
    kind: EntryKind,
    number: u64,
    case: Option<u32>,
    entry: &[u8],
    time: u64,
    account: &[u8],
    text: &mut Vec<u8>,
) -> Result<(), AllocError>
    ensures { OnOk result (text.new.items ≡ text.old.items ++ said_of json kind number case entry.now (record { time = time; account = account.now })) }
{
    if json {
        push_entry_json(alloc, text, kind, number, case, entry, time, account)
    } else {
        push_entry_text(alloc, text, kind, number, entry, time, account)
    }
}

// Adds what is written of an entry, where a row has this number.
pub(crate) fn push_entry(
    alloc: Global,
    choice: &LogChoice,
    named: &[Option<u32>],
    kind: EntryKind,
    number: u64,
    entry: &[u8],
    time: u64,
    account: &[u8],
    text: &mut Vec<u8>,
) -> Result<(), AllocError>
    ensures { OnOk result (text.new.items ≡ text.old.items ++ entry_log choice.now named.now kind number entry.now (record { time = time; account = account.now })) }
{
    let case = entry_case(named, kind, number);
    if !is_entry_asked(choice, kind, number, case, time, account) {
        return Ok(());
    }
    push_said_of(
        alloc,
        choice.json,
        kind,
        number,
        case,
        entry,
        time,
        account,
        text,
    )
}

// Adds what is written of the first entry.
fn push_first(
    alloc: Global,
    choice: &LogChoice,
    named: &[Option<u32>],
    entries: &[Vec<u8>],
    time: u64,
    account: &[u8],
    text: &mut Vec<u8>,
) -> Result<(), AllocError>
    ensures { OnOk result (text.new.items ≡ text.old.items ++ first_log choice.now named.now (batch_of entries.now) (record { time = time; account = account.now })) }
{
    match entries {
        [] => Ok(()),
        [first, ..] => push_entry(
            alloc,
            choice,
            named,
            EntryKind::CourtFile,
            0,
            first,
            time,
            account,
            text,
        ),
    }
}

// The number of the next row after an entry, where it has this number if it is a row.
pub(crate) fn row_number_after(number: u64, entry: &[u8]) -> u64
    requires fits { number + 1 < 2 ^ 64 }
    ensures { result ≡ number + length (row_only (note_in entry.now) entry.now) }
{
    if is_row(entry) { number + 1 } else { number }
}

// The cases that rows name, if they have to be known for what is asked.
pub(crate) fn cases_looked_up(
    alloc: Global,
    court: &Court,
    choice: &LogChoice,
    entries: &[Vec<u8>],
) -> Result<Vec<Option<u32>>, AllocError>
    ensures { IfOk result (λ named. named.items ≡ cases_looked_up (names_of court.now) choice.now (batch_of entries.now)) }
{
    if choice.json || choice.case.is_some() {
        cases_named(alloc, court, entries)
    } else {
        Ok(Vec::new(alloc))
    }
}

// Whether there was something before, or there is in this text.
fn has_some(some: bool, text: &[u8]) -> bool
    ensures { result ≡ (some || nat_lt 0 (length text.now)) }
{
    some || !text.is_empty()
}

/// Writes the log of a journal's entries: those that are chosen, each with what it is, when it was kept and by whom, and what it
/// says. Rows are read for that court. The stamps are those of the entries, in their order. It says whether an entry is chosen.
pub fn write_log<W: Write>(
    alloc: Global,
    court: &Court,
    entries: &[Vec<u8>],
    stamps: &[Stamp],
    choice: &LogChoice,
    writer: &mut Watched<W>,
) -> Result<bool, OutputFault>
    requires works { has_failed writer.old ≡ false }
    ensures written { OnOk result (Appends (W.contents (watched writer.old)) (W.contents (watched writer.new)) (log_text (names_of court.now) choice.now (batch_of entries.now) stamps.now)) }
    ensures some { IfOk result (λ some. some ≡ nat_lt 0 (length (log_text (names_of court.now) choice.now (batch_of entries.now) stamps.now))) }
{
    let named = cases_looked_up(alloc, court, choice, entries)?;
    let mut text = Vec::new(alloc);
    let (time, account) = stamp_at(stamps, 0);
    push_first(alloc, choice, &named, entries, time, account, &mut text)?;
    let mut some = has_some(false, &text);
    let mut number = 1;
    for place in 1..entries.len() {
        let entry = entries[place].as_slice();
        let (time, account) = stamp_at(stamps, place);
        let kind = kind_of(entry);
        push_entry(
            alloc, choice, &named, kind, number, entry, time, account, &mut text,
        )?;
        some = has_some(some, &text);
        number = row_number_after(number, entry);
        put_if_long(writer, &mut text)?;
    }
    put(writer, &mut text)?;
    Ok(some)
}
