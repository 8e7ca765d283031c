//! An entry as a line of JSON.
ghost use Rattle.std.specs.Prelude.{◌≡◌, ◌++◌, ◌∷◌, ℕ, List, Option, codes, OnOk};
ghost use Rattle.json.specs.Json.{string};
ghost use Rattle.json.specs.Tree.{json_tokens};
ghost use Rattle.json.specs.Token.{key};
ghost use Rattle.desk_program.specs.LogJson.{Adds, AddsMember, AddsMembers, LogReadsBack, amount_json, bytes_json, case_json, correction_members, entry_json, entry_members, row_answer, row_line, time_json};

use crate::entry_kind::EntryKind;
use crate::log_text::{dated_day, without_end};
use case_numbers::after_name;
use desk_numbers::remark_in;
use json::Writer;
use reason_texts::push_second;
use std::alloc::{AllocError, Global};

// Writes a member whose value is a text.
fn put_text(out: &mut Writer, name: &str, text: &str) -> Result<(), AllocError>
    ensures { OnOk result (AddsMember out.old out.new name.now (string text.now)) }
{
    out.key(name)?;
    out.string(text)
}

// Writes a member whose value is a number.
fn put_number(out: &mut Writer, name: &str, n: u64) -> Result<(), AllocError>
    ensures { OnOk result (AddsMember out.old out.new name.now (amount_json n)) }
{
    out.key(name)?;
    out.u64(n)
}

// Writes a member whose value is a text, or `null` where the bytes are no text.
fn put_bytes(out: &mut Writer, name: &str, bytes: &[u8]) -> Result<(), AllocError>
    ensures { OnOk result (AddsMember out.old out.new name.now (bytes_json bytes.now)) }
{
    out.key(name)?;
    match str::from_utf8(bytes) {
        Ok(text) => out.string(text),
        Err(_) => out.null(),
    }
}

// Writes the case that an entry names, or `null` where it names none.
fn put_case(out: &mut Writer, case: Option<u32>) -> Result<(), AllocError>
    ensures { OnOk result (AddsMember out.old out.new (codes "case") (case_json case)) }
{
    out.key("case")?;
    match case {
        Some(case) => out.u64(u64::from(case)),
        None => out.null(),
    }
}

// Writes when an entry was kept.
fn put_time(alloc: Global, out: &mut Writer, time: u64) -> Result<(), AllocError>
    ensures { OnOk result (AddsMember out.old out.new (codes "time") (time_json time)) }
{
    out.key("time")?;
    match dated_day(time) {
        Some(day) => {
            let mut text = format!(in alloc; "{day}T")?;
            push_second(&mut text, (time % 86_400) as u32)?;
            text.push_str("Z")?;
            out.string(text.as_str())
        }
        None => out.null(),
    }
}

// Writes when an entry was kept, and by which account.
fn put_stamp(alloc: Global, out: &mut Writer, time: u64, account: &[u8]) -> Result<(), AllocError>
    ensures { OnOk result (Adds out.old out.new ((key (codes "time") ∷ json_tokens (time_json time)) ++ key (codes "account") ∷ json_tokens (bytes_json account.now))) }
{
    put_time(alloc, out, time)?;
    put_bytes(out, "account", account)
}

// The line of a row's entry, without its end.
#[tactic(auto, unfolding(desk_numbers::specs::Strikes::Words::remark_in))]
fn row_line(entry: &[u8]) -> &[u8]
    ensures { result.now ≡ row_line entry.now }
{
    let text = after_name(entry);
    let answer = remark_in(text);
    without_end(text.split_at(text.len() - answer.len()).0)
}

// The answer of a row's entry, without the end of its last line.
fn row_answer(entry: &[u8]) -> &[u8]
    ensures { result.now ≡ row_answer entry.now }
{
    without_end(remark_in(after_name(entry)))
}

// Writes the members of a strike or a restore.
fn put_correction(
    alloc: Global,
    out: &mut Writer,
    word: &str,
    row: u32,
    case: Option<u32>,
    entry: &[u8],
    time: u64,
    account: &[u8],
) -> Result<(), AllocError>
    ensures { OnOk result (AddsMembers out.old out.new (correction_members word.now row case entry.now (record { time = time; account = account.now }))) }
{
    put_text(out, "kind", word)?;
    put_number(out, "row", u64::from(row))?;
    put_stamp(alloc, out, time, account)?;
    put_case(out, case)?;
    put_bytes(out, "remark", without_end(remark_in(entry)))
}

// Writes the members of a row.
fn put_row(
    alloc: Global,
    out: &mut Writer,
    number: u64,
    case: Option<u32>,
    entry: &[u8],
    time: u64,
    account: &[u8],
) -> Result<(), AllocError>
    ensures { OnOk result (AddsMembers out.old out.new (entry_members EntryKind.Row number case entry.now (record { time = time; account = account.now }))) }
{
    put_text(out, "kind", "row")?;
    put_number(out, "row", number)?;
    put_stamp(alloc, out, time, account)?;
    put_case(out, case)?;
    put_bytes(out, "line", row_line(entry))?;
    put_bytes(out, "answer", row_answer(entry))
}

// Writes the members of a court's file.
fn put_court(alloc: Global, out: &mut Writer, time: u64, account: &[u8]) -> Result<(), AllocError>
    ensures { (row : ℕ) (case : Option ℕ) (entry : List ℕ) → OnOk result (AddsMembers out.old out.new (entry_members EntryKind.CourtFile row case entry (record { time = time; account = account.now }))) }
{
    put_text(out, "kind", "court")?;
    put_stamp(alloc, out, time, account)
}

// Writes the members of an entry, where a row has this number.
fn put_entry(
    alloc: Global,
    out: &mut Writer,
    kind: EntryKind,
    number: u64,
    case: Option<u32>,
    entry: &[u8],
    time: u64,
    account: &[u8],
) -> Result<(), AllocError>
    ensures { OnOk result (AddsMembers out.old out.new (entry_members kind number case entry.now (record { time = time; account = account.now }))) }
{
    match kind {
        EntryKind::Row => put_row(alloc, out, number, case, entry, time, account),
        EntryKind::CourtFile => put_court(alloc, out, time, account),
        EntryKind::Strike(row) => {
            put_correction(alloc, out, "strike", row, case, entry, time, account)
        }
        EntryKind::Restore(row) => {
            put_correction(alloc, out, "restore", row, case, entry, time, account)
        }
    }
}

/// Adds the line of an entry, where a row has this number and it names this case.
pub(crate) fn push_entry_json(
    alloc: Global,
    text: &mut Vec<u8>,
    kind: EntryKind,
    number: u64,
    case: Option<u32>,
    entry: &[u8],
    time: u64,
    account: &[u8],
) -> Result<(), AllocError>
    ensures { OnOk result (text.new.items ≡ text.old.items ++ entry_json kind number case entry.now (record { time = time; account = account.now })) }
{
    let mut out = Writer::new(Vec::new(alloc));
    out.begin_object()?;
    put_entry(alloc, &mut out, kind, number, case, entry, time, account)?;
    out.end_object()?;
    let line = out.into_inner();
    text.extend_from_slice(&line)?;
    text.push(b'\n')?;
    Ok(())
}

/// A law, the contract of a function that does nothing: each line reads back as the object of its entry.
pub fn the_log_reads_back()
    ensures { LogReadsBack }
{}
