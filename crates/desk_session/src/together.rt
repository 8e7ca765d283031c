//! Lines that came together: all of them are kept, and then answered.
ghost use Rattle.std.specs.Prelude.{◌≡◌, ◌≢◌, ◌<◌, ◌⊎◌, ◌++◌, [], ℕ, List, None, Ok, Err, drop, length, false, IsTrue, IfErr, IfOk, OnOk, option_map};
ghost use Rattle.desk_journal.specs.Words.{IsKept, KeepsStamps, StampView, batch_of, disk_of, stamp_of};
ghost use Rattle.program_streams.specs.Words.{has_failed, watched};
ghost use Rattle.desk_session.specs.Faults.{StopsBytes};
ghost use Rattle.desk_session.specs.Lines.{lines_of, numbered_lines};
ghost use Rattle.desk_session.specs.Stamped.{IsStampedOn};
ghost use Rattle.desk_session.specs.Stopped.{first_stopped, stopped_as, stopped_in};
ghost use Rattle.desk_session.specs.Served.{IsAllOrNone, IsPromised, IsServed};
ghost use Rattle.desk_session.specs.Taken.{TakesLine, TakesLines, left_by};

use crate::fault::SessionFault;
use crate::gather::MAX_LINE;
use crate::lines::{number_after, split_line};
use crate::publish::publish;
use crate::register::Register;
use desk_journal::Journal;
use program_streams::Watched;
use sqlite_disk::Disk;
use std::alloc::Global;
use std::io::Write;

/// A line at which a list of lines stops that are kept together.
#[derive(Debug, Drop)]
pub struct StoppedLine {
    /// Its number in the input, whose lines are counted from 1 by their line feeds.
    pub number: usize,
    /// Its answer.
    pub answer: Vec<u8>,
    /// Whether it is held back with a warning; otherwise it is refused or has a fault.
    pub held: bool,
}

// A text without this many of its first bytes.
fn bytes_after(text: &[u8], count: usize) -> &[u8]
    ensures { result.now ≡ drop count text.now }
{
    if count <= text.len() {
        text.split_at(count).1
    } else {
        &[]
    }
}

// Takes the line of that number, and gives it if the list stops at it.
fn take_line<O: Register>(
    setup: &O::Setup,
    alloc: Global,
    register: &mut O,
    number: usize,
    line: &[u8],
    keep_refused: bool,
    batch: &mut Vec<Vec<u8>>,
    text: &mut Vec<u8>,
) -> Result<Option<StoppedLine>, SessionFault>
    ensures fault { IfErr result (λ f. (f ≡ SessionFault.OutOfMemory) ⊎ ((f ≡ SessionFault.LongLine) × (65_536 < length line.now))) }
    ensures taken { (kept : List (List ℕ)) → O.stands setup.now register.old kept → OnOk result
        (TakesLine (O.leaves setup.now) (O.answers setup.now) (O.stands setup.now register.new) kept line.now (batch_of batch.old.items) (batch_of batch.new.items) text.old.items text.new.items) }
    ensures stopped { (kept : List (List ℕ)) → O.stands setup.now register.old kept → IfOk result (λ stopped. option_map stopped_in stopped ≡ stopped_as keep_refused (O.outcome setup.now kept line.now) number (O.answers setup.now kept line.now)) }
{
    if line.len() > MAX_LINE {
        return Err(SessionFault::LongLine);
    }
    let before = text.len();
    let outcome = register.take(setup, alloc, line, batch, text)?;
    if !outcome.stops(keep_refused) {
        return Ok(None);
    }
    let answer = Vec::from_slice(alloc, bytes_after(text, before))?;
    Ok(Some(StoppedLine {
        number,
        answer,
        held: outcome.is_held(),
    }))
}

// Takes the lines of an input, up to the one at which the list stops, which is given.
fn take_lines<O: Register>(
    setup: &O::Setup,
    alloc: Global,
    register: &mut O,
    input: &[u8],
    keep_refused: bool,
    batch: &mut Vec<Vec<u8>>,
    text: &mut Vec<u8>,
) -> Result<Option<StoppedLine>, SessionFault>
    ensures fault { IfErr result (StopsBytes false [] input.now) }
    ensures taken { (kept : List (List ℕ)) → O.stands setup.now register.old kept → result ≡ Ok None →
        TakesLines (O.leaves setup.now) (O.answers setup.now) (O.stands setup.now register.new) kept (lines_of input.now) (batch_of batch.old.items) (batch_of batch.new.items) text.old.items text.new.items }
    ensures stopped { (kept : List (List ℕ)) → O.stands setup.now register.old kept → IfOk result (λ stopped. option_map stopped_in stopped ≡ first_stopped (O.leaves setup.now) (O.answers setup.now) (O.outcome setup.now) keep_refused kept (numbered_lines input.now)) }
{
    let mut number = 1usize;
    let mut rest = input;
    while let Some(split) = split_line(rest) {
        let stopped = take_line(
            setup,
            alloc,
            register,
            number,
            split.line,
            keep_refused,
            batch,
            text,
        )?;
        match stopped {
            Some(line) => return Ok(Some(line)),
            None => {}
        }
        number = number_after(number, split.end);
        rest = split.rest;
    }
    Ok(None)
}

/// Keeps the lines of an input together, and then answers them. Whatever a crash leaves has what all of them leave, or nothing
/// of it. A last line that has no end isn't taken. The list stops at the first line that has a fault or is held back or, unless
/// lines that are refused are to be kept too, that is refused: that line is given, and nothing is written to the disk or answered.
pub fn serve_together<D: Disk, O: Register, W: Write>(
    setup: &O::Setup,
    alloc: Global,
    journal: &mut Journal<D>,
    register: &mut O,
    writer: &mut Watched<W>,
    input: &[u8],
    keep_refused: bool,
) -> Result<Option<StoppedLine>, SessionFault>
    requires writer_works { has_failed writer.old ≡ false }
    ensures all_or_none { (kept : List (List ℕ)) → IsKept D.Disk kept journal.old → O.stands setup.now register.old kept →
        IsAllOrNone (O.leaves setup.now) kept (lines_of input.now) (D.Disk.may_leave (disk_of journal.new)) }
    ensures promised { (kept : List (List ℕ)) → IsKept D.Disk kept journal.old → O.stands setup.now register.old kept →
        IsPromised (O.leaves setup.now) (O.answers setup.now) kept (lines_of input.now) (W.contents (watched writer.old)) (W.contents (watched writer.new)) (has_failed writer.new ≡ false) (D.Disk.may_leave (disk_of journal.new)) }
    ensures served { (kept : List (List ℕ)) → IsKept D.Disk kept journal.old → O.stands setup.now register.old kept → result ≡ Ok None →
        IsServed (O.leaves setup.now) (O.answers setup.now) (λ entries. IsKept D.Disk entries journal.new) (O.stands setup.now register.new) kept (lines_of input.now) (W.contents (watched writer.old)) (W.contents (watched writer.new)) }
    ensures stopped { (kept : List (List ℕ)) → O.stands setup.now register.old kept → IfOk result (λ stopped. option_map stopped_in stopped ≡ first_stopped (O.leaves setup.now) (O.answers setup.now) (O.outcome setup.now) keep_refused kept (numbered_lines input.now)) }
    ensures unwritten { (kept : List (List ℕ)) → O.stands setup.now register.old kept → first_stopped (O.leaves setup.now) (O.answers setup.now) (O.outcome setup.now) keep_refused kept (numbered_lines input.now) ≢ None → journal.new ≡ journal.old }
    ensures untold { IfOk result (λ stopped. stopped ≢ None → writer.new ≡ writer.old) }
    ensures long { result ≡ Err SessionFault.LongLine → journal.new ≡ journal.old }
    ensures unanswered { (kept : List (List ℕ)) → IsKept D.Disk kept journal.old → O.stands setup.now register.old kept → result ≡ Err SessionFault.Write →
        IsKept D.Disk (kept ++ left_by (O.leaves setup.now) kept (lines_of input.now)) journal.new }
    // What is kept is of the journal's account, and times never go back.
    ensures stamped { (stamps : List StampView) → KeepsStamps D.Disk stamps journal.old
        → OnOk result (IsStampedOn (stamp_of journal.old).account (λ after. KeepsStamps D.Disk after journal.new) stamps) }
    // Where no wrong answer of the disk was taken as true at the end, none was at the start.
    ensures clean { IsTrue (D.Disk.is_clean (disk_of journal.new)) → IsTrue (D.Disk.is_clean (disk_of journal.old)) }
    ensures fault { IfErr result (StopsBytes (has_failed writer.new) [] input.now) }
{
    let mut batch = Vec::new(alloc);
    let mut text = Vec::new(alloc);
    let stopped = take_lines(
        setup,
        alloc,
        register,
        input,
        keep_refused,
        &mut batch,
        &mut text,
    )?;
    match stopped {
        Some(line) => Ok(Some(line)),
        None => {
            publish(journal, writer, &batch, &text)?;
            Ok(None)
        }
    }
}
