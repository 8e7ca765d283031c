//! What is written of the rows whose answers a correction changes.
ghost use Rattle.std.specs.Prelude.{◌≡◌, ◌-◌, ◌++◌, length, map, option_map, string_bytes, IfOk, OnOk};
ghost use Rattle.desk_entries.specs.Words.{change_in};
ghost use Rattle.desk_program.specs.Inside.Changed.{walked};
ghost use Rattle.desk_program.specs.Leave.{asking_of, if_asking, stays_undone};
ghost use Rattle.desk_program.specs.ChangedText.{after_blank, answer_now, answer_text, change_text, changes_text, had_text, is_done, kept_text, mark_of, mark_text, says_done};

use crate::changed::{ChangedRow, answer_in, changed_rows};
use desk_entries::Difference;
use desk_numbers::Corrections;
use std::alloc::{AllocError, Global};

// What comes after the first blank; nothing where there is none.
fn after_blank(text: &[u8]) -> &[u8]
    ensures { result.now ≡ after_blank text.now }
{
    for place in 0..text.len() {
        if text[place] == b' ' {
            return text.split_at(place + 1).1;
        }
    }
    &[]
}

// Whether what follows the two numbers of an answer says that the row was done.
fn says_done(said: &[u8]) -> bool
    ensures { result ≡ says_done said.now }
{
    !said.starts_with(b"refused ") && !said.starts_with(b"fault ")
}

// Whether an answer says that the row of that number was done.
fn is_done(alloc: Global, number: u32, answer: &[u8]) -> Result<bool, AllocError>
    ensures { IfOk result (λ done. done ≡ is_done number answer.now) }
{
    let numbered = format!(in alloc; "{number} ")?;
    if !answer.starts_with(numbered.as_bytes()) {
        return Ok(false);
    }
    Ok(says_done(after_blank(after_blank(answer))))
}

// The line that marks a row which was done and would not be, or the other way round.
fn mark_text(alloc: Global, number: u32, was: bool, is: bool) -> Result<String, AllocError>
    ensures { IfOk result (λ line. string_bytes line ≡ mark_text number was is) }
{
    match (was, is) {
        (true, false) => format!(in alloc; "row {number} was done and would no longer be\n"),
        (false, true) => format!(in alloc; "row {number} was not done and would be\n"),
        (true, true) => Ok(String::new(alloc)),
        (false, false) => Ok(String::new(alloc)),
    }
}

// The answer that a row has now.
fn answer_now<'a>(row: &ChangedRow<'a>) -> &'a [u8]
    ensures { result.now ≡ answer_now row.now }
{
    match row.had {
        Some(had) => had,
        None => answer_in(row.entry),
    }
}

// Adds the entry of the row of that number.
fn push_kept(alloc: Global, text: &mut Vec<u8>, number: u32, entry: &[u8]) -> Result<(), AllocError>
    ensures { OnOk result (text.new.items ≡ text.old.items ++ kept_text number entry.now) }
{
    let line = format!(in alloc; "row {number} is kept as\n")?;
    text.extend_from_slice(line.as_bytes())?;
    text.extend_from_slice(entry)
}

// Adds the answer that the row of that number has now, where that isn't the one that its entry keeps.
fn push_had(
    alloc: Global,
    text: &mut Vec<u8>,
    number: u32,
    had: Option<&[u8]>,
) -> Result<(), AllocError>
    ensures { OnOk result (text.new.items ≡ text.old.items ++ had_text number (option_map (λ h. h.now) had.entry)) }
{
    match had {
        Some(had) => {
            let line = format!(in alloc; "row {number} is answered now\n")?;
            text.extend_from_slice(line.as_bytes())?;
            text.extend_from_slice(had)
        }
        None => Ok(()),
    }
}

// The mark of a row that is done only before, or only after.
fn mark_of(alloc: Global, row: &ChangedRow) -> Result<String, AllocError>
    ensures { IfOk result (λ line. string_bytes line ≡ mark_of row.now) }
{
    let was = is_done(alloc, row.number, answer_now(row))?;
    let is = is_done(alloc, row.number, row.answer)?;
    mark_text(alloc, row.number, was, is)
}

// Adds the answer that a row would get, and its mark.
fn push_answer(text: &mut Vec<u8>, answer: &[u8], mark: &str) -> Result<(), AllocError>
    ensures { OnOk result (text.new.items ≡ text.old.items ++ answer_text answer.now mark.now) }
{
    text.extend_from_slice(b"and would be answered\n")?;
    text.extend_from_slice(answer)?;
    text.extend_from_slice(mark.as_bytes())?;
    Ok(())
}

// Adds what is written of a row that would be answered otherwise than now.
#[tactic(auto, unfolding(crate::specs::ChangedText::change_text))]
fn push_change(alloc: Global, text: &mut Vec<u8>, row: &ChangedRow) -> Result<(), AllocError>
    ensures { OnOk result (text.new.items ≡ text.old.items ++ change_text row.now) }
{
    let mark = mark_of(alloc, row)?;
    push_kept(alloc, text, row.number, row.entry)?;
    push_had(alloc, text, row.number, row.had)?;
    push_answer(text, row.answer, mark.as_str())
}

/// Adds what is written of rows that would be answered otherwise than now. `Err` says that memory ran out.
pub(crate) fn push_changes(
    alloc: Global,
    text: &mut Vec<u8>,
    rows: &[ChangedRow],
) -> Result<(), AllocError>
    ensures { OnOk result (text.new.items ≡ text.old.items ++ changes_text rows.now) }
{
    for row in rows {
        push_change(alloc, text, row)?;
    }
    Ok(())
}

// Whether a row is struck before a correction and would be refused after it: it isn't done before or after.
fn stays_undone(alloc: Global, before: &Corrections, row: &ChangedRow) -> Result<bool, AllocError>
    ensures { IfOk result (λ stays. stays ≡ stays_undone before.now row.now) }
{
    if !before.is_struck(row.number) {
        return Ok(false);
    }
    let done = is_done(alloc, row.number, row.answer)?;
    Ok(!done)
}

// Adds the number of a row, unless it stays undone.
#[tactic(auto, using(crate::proofs::LogLastLemmas::none_more))]
fn push_if_asking(
    alloc: Global,
    numbers: &mut Vec<u32>,
    before: &Corrections,
    row: &ChangedRow,
) -> Result<(), AllocError>
    ensures { OnOk result (numbers.new.items ≡ numbers.old.items ++ if_asking before.now row.now) }
{
    if stays_undone(alloc, before, row)? {
        return Ok(());
    }
    numbers.push(row.number)?;
    Ok(())
}

// The numbers of the rows for which leave is asked.
fn numbers_asking(
    alloc: Global,
    before: &Corrections,
    rows: &[ChangedRow],
) -> Result<Vec<u32>, AllocError>
    ensures { IfOk result (λ numbers. numbers.items ≡ asking_of before.now rows.now) }
{
    let mut numbers = Vec::new(alloc);
    for row in rows {
        push_if_asking(alloc, &mut numbers, before, row)?;
    }
    Ok(numbers)
}

/// Adds what is written of the rows before the next that are answered otherwise after a correction than now, and gives for how many of
/// them leave is asked: what is corrected before it, and after it, and the differences now, and after it. `Err` says that memory ran out.
pub(crate) fn push_changed(
    alloc: Global,
    text: &mut Vec<u8>,
    before: &Corrections,
    corrections: &Corrections,
    had: &[Difference],
    has: &[Difference],
    next: u32,
) -> Result<usize, AllocError>
    ensures text { OnOk result (text.new.items ≡ text.old.items ++ changes_text (walked corrections.now (next - 1) 1 (map change_in had.now) (map change_in has.now))) }
    ensures count { IfOk result (λ count. count ≡ length (asking_of before.now (walked corrections.now (next - 1) 1 (map change_in had.now) (map change_in has.now)))) }
{
    let rows = changed_rows(alloc, corrections, had, has, next)?;
    push_changes(alloc, text, &rows)?;
    let asking = numbers_asking(alloc, before, &rows)?;
    Ok(asking.len())
}
