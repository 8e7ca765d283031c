//! The last entries of a journal's log that are asked for.
ghost use Rattle.std.specs.Prelude.{◌≡◌, ◌++◌, ◌-◌, drop, length, IfOk, OnOk};
ghost use Rattle.std.specs.List.{flat_map};
ghost use Rattle.row_forms.specs.Words.{names_of};
ghost use Rattle.desk_journal.specs.Words.{batch_of};
ghost use Rattle.desk_entries.specs.Words.{note_in};
ghost use Rattle.desk_program.specs.EntryKind.{kind_of as kind_in};
ghost use Rattle.desk_program.specs.Log.{entry_log};
ghost use Rattle.desk_program.specs.LogLast.{bytes_in, kept_if_said, last_log_text, later_said};

use crate::entry_kind::kind_of;
use crate::log::{LogChoice, cases_looked_up, push_entry, row_number_after, stamp_at};
use court_days::Court;
use desk_journal::Stamp;
use std::alloc::{AllocError, Global};

// What is written of an entry, where a row has this number.
fn entry_said(
    alloc: Global,
    choice: &LogChoice,
    named: &[Option<u32>],
    number: u64,
    entry: &[u8],
    time: u64,
    account: &[u8],
) -> Result<Vec<u8>, AllocError>
    ensures { IfOk result (λ text. text.items ≡ entry_log choice.now named.now (kind_in (note_in entry.now)) number entry.now (record { time = time; account = account.now })) }
{
    let mut text = Vec::new(alloc);
    let kind = kind_of(entry);
    push_entry(
        alloc, choice, named, kind, number, entry, time, account, &mut text,
    )?;
    Ok(text)
}

// Adds a text, if it says something.
#[tactic(auto, using(crate::proofs::LogLastLemmas::none_more))]
fn push_if_said(texts: &mut Vec<Vec<u8>>, text: Vec<u8>) -> Result<(), AllocError>
    ensures { OnOk result (texts.new.items ≡ texts.old.items ++ kept_if_said text.items text) }
{
    if text.is_empty() {
        return Ok(());
    }
    texts.push(text)?;
    Ok(())
}

// What is written of each entry after the first that is asked for, by the cases that rows name.
fn texts_said(
    alloc: Global,
    choice: &LogChoice,
    named: &[Option<u32>],
    entries: &[Vec<u8>],
    stamps: &[Stamp],
) -> Result<Vec<Vec<u8>>, AllocError>
    ensures { IfOk result (λ texts. batch_of texts.items ≡ later_said choice.now named.now 1 (drop 1 (batch_of entries.now)) (drop 1 stamps.now)) }
{
    let mut texts = Vec::new(alloc);
    let mut number = 1;
    for place in 1..entries.len() {
        let entry = entries[place].as_slice();
        let (time, account) = stamp_at(stamps, place);
        let text = entry_said(alloc, choice, named, number, entry, time, account)?;
        push_if_said(&mut texts, text)?;
        number = row_number_after(number, entry);
    }
    Ok(texts)
}

// The last of some texts, at most that many.
fn last_of(texts: &[Vec<u8>], most: usize) -> &[Vec<u8>]
    ensures { result.now ≡ drop (length texts.now - most) texts.now }
{
    texts.split_at(texts.len().saturating_sub(most)).1
}

// Texts, one after another.
fn joined(alloc: Global, texts: &[Vec<u8>]) -> Result<Vec<u8>, AllocError>
    ensures { IfOk result (λ whole. whole.items ≡ flat_map bytes_in texts.now) }
{
    let mut whole = Vec::new(alloc);
    for text in texts {
        whole.extend_from_slice(text)?;
    }
    Ok(whole)
}

/// What is written of the last entries that are chosen, at most that many, as `write_log` writes them; of the first entry, which is the
/// court's file, nothing. `Err` says that memory ran out.
pub fn last_log(
    alloc: Global,
    court: &Court,
    entries: &[Vec<u8>],
    stamps: &[Stamp],
    choice: &LogChoice,
    most: usize,
) -> Result<Vec<u8>, AllocError>
    ensures { IfOk result (λ text. text.items ≡ last_log_text (names_of court.now) choice.now most (batch_of entries.now) stamps.now) }
{
    let named = cases_looked_up(alloc, court, choice, entries)?;
    let texts = texts_said(alloc, choice, &named, entries, stamps)?;
    joined(alloc, last_of(&texts, most))
}
