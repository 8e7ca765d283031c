//! Rows that are kept together, or not at all.
ghost use Rattle.std.specs.Prelude.{◌≡◌, ◌≢◌, ◌⊎◌, ◌++◌, [], ℕ, List, None, Ok, length, map, false, true, Err, IsTrue, IfErr, IfOk, OnOk};
ghost use Rattle.std.specs.Io.KnownBytes.{Appends};
ghost use Rattle.desk_journal.specs.Words.{StandsFor};
ghost use Rattle.desk_session.specs.Words.{left_by, lines_of, stopped_in};
ghost use Rattle.desk_entries.specs.Words.{fault_in};
ghost use Rattle.program_streams.specs.Words.{has_failed, watched};
ghost use Rattle.desk_program.specs.Together.{line_fault_text, line_faults_text, stopped_fault, stopped_text, together_fault};

use crate::desk::Desk;
use crate::fault_words::push_cause_words;
use crate::faults::TogetherFault;
use desk_entries::LineFault;
use desk_session::{SessionFault, StoppedLine, is_finished, serve_together};
use program_streams::{Watched, write_all};
use sqlite_disk::Disk;
use std::alloc::{AllocError, Global};
use std::io::Write;

// Adds what is written of a line that has a fault.
fn push_line_fault(alloc: Global, text: &mut Vec<u8>, fault: &LineFault) -> Result<(), AllocError>
    ensures { OnOk result (text.new.items ≡ text.old.items ++ line_fault_text (fault_in fault.now)) }
{
    let number = fault.number;
    let cause = fault.cause;
    let told = format!(in alloc; "line {number} fault {cause}: ")?;
    text.extend_from_slice(told.as_bytes())?;
    push_cause_words(alloc, text, cause, &fault.line)?;
    text.push(b'\n')?;
    Ok(())
}

// What is written of lines that have faults.
fn faults_listed(alloc: Global, faults: &[LineFault]) -> Result<Vec<u8>, AllocError>
    ensures { IfOk result (λ text. text.items ≡ line_faults_text (map fault_in faults.now)) }
{
    let mut text = Vec::new(alloc);
    for fault in faults {
        push_line_fault(alloc, &mut text, fault)?;
    }
    Ok(text)
}

// Writes the faults of lines. `Faults` says that there are some.
fn list_faults<W: Write>(
    alloc: Global,
    faults: &[LineFault],
    writer: &mut Watched<W>,
) -> Result<(), TogetherFault>
    requires { has_failed writer.old ≡ false }
    ensures none { OnOk result ((faults.now ≡ []) × (writer.new ≡ writer.old)) }
    ensures some { (count : ℕ) → result ≡ Err (TogetherFault.Faults count) → (count ≡ length faults.now) × (faults.now ≢ [])
        × Appends (W.contents (watched writer.old)) (W.contents (watched writer.new)) (line_faults_text (map fault_in faults.now)) }
    ensures fault { IfErr result (λ fault. (faults.now ≢ []) × ((fault ≡ TogetherFault.OutOfMemory) ⊎ ((fault ≡ TogetherFault.Unkept SessionFault.Write) ⊎ (fault ≡ TogetherFault.Faults (length faults.now))))) }
{
    if faults.is_empty() {
        return Ok(());
    }
    let text = match faults_listed(alloc, faults) {
        Ok(text) => text,
        Err(_) => return Err(TogetherFault::OutOfMemory),
    };
    if write_all(writer, &text).is_err() {
        return Err(TogetherFault::Unkept(SessionFault::Write));
    }
    Err(TogetherFault::Faults(faults.len()))
}

// What is written of a line at which the list stops.
fn stopped_said(alloc: Global, line: &StoppedLine) -> Result<Vec<u8>, AllocError>
    ensures { IfOk result (λ text. text.items ≡ stopped_text (stopped_in line.now)) }
{
    let number = line.number;
    let said = format!(in alloc; "line {number} would be answered: ")?;
    let mut text = said.into_bytes();
    text.extend_from_slice(&line.answer)?;
    Ok(text)
}

// The fault that says at which line the list stops, and why.
fn stopped_fault(line: &StoppedLine) -> TogetherFault
    ensures { result ≡ stopped_fault (stopped_in line.now) }
{
    if line.held {
        TogetherFault::Held(line.number)
    } else {
        TogetherFault::Refused(line.number)
    }
}

// Writes the answer that a line would have at which the list stops, and gives the fault that says so.
fn tell_stopped<W: Write>(
    alloc: Global,
    line: &StoppedLine,
    writer: &mut Watched<W>,
) -> TogetherFault
    requires { has_failed writer.old ≡ false }
    ensures told { result ≡ stopped_fault (stopped_in line.now)
        → Appends (W.contents (watched writer.old)) (W.contents (watched writer.new)) (stopped_text (stopped_in line.now)) }
    ensures fault { (result ≡ TogetherFault.OutOfMemory) ⊎ ((result ≡ TogetherFault.Unkept SessionFault.Write) ⊎ (result ≡ stopped_fault (stopped_in line.now))) }
{
    match stopped_said(alloc, line) {
        Ok(text) => {
            if write_all(writer, &text).is_err() {
                TogetherFault::Unkept(SessionFault::Write)
            } else {
                stopped_fault(line)
            }
        }
        Err(_) => TogetherFault::OutOfMemory,
    }
}

// Why rows that came together aren't served, as the desk says it.
fn together_fault(fault: SessionFault) -> TogetherFault
    ensures { result ≡ together_fault fault }
{
    match fault {
        SessionFault::LongLine => TogetherFault::Unkept(SessionFault::LongLine),
        _ => TogetherFault::Session(fault),
    }
}

impl<D: Disk> Desk<D> {
    ghost use Rattle.desk_program.specs.Desk.{IsPromisedDocket, KeepsDocket, disk_under, held_at, leaves_at, standing_at};
    ghost use Rattle.desk_program.specs.Together.{IsAtFault, IsDocketAllOrNone, KeepsTogether, RefusesLines, SaysWhatIsKept, StopsList, faults_in, stop_of};

    /// Keeps the rows of an input together, one in a line, and then answers them. If a line has a fault, each fault is written;
    /// then, and where the last line has no end, nothing is kept and the docket is as it was. The list stops at the first row that
    /// is held back or names what isn't found and, unless commands that are refused are to be kept too, at the first command that is refused: its answer is
    /// written, and nothing is kept. The desk is then to be opened anew, since it has decided the rows before it.
    pub fn enter_together<W: Write>(
        &mut self,
        alloc: Global,
        input: &[u8],
        keep_refused: bool,
        writer: &mut Watched<W>,
    ) -> Result<(), TogetherFault>
        requires writer_works { has_failed writer.old ≡ false }
        ensures kept { (kept : List (List ℕ)) → KeepsDocket D.Disk kept self.old → OnOk result
            (KeepsTogether (standing_at self.old) (held_at self.old) keep_refused kept input.now (W.contents (watched writer.old)) (W.contents (watched writer.new)) (λ entries. KeepsDocket D.Disk entries self.new)) }
        ensures refused { (kept : List (List ℕ)) (count : ℕ) → KeepsDocket D.Disk kept self.old → result ≡ Err (TogetherFault.Faults count)
            → RefusesLines (standing_at self.old) (held_at self.old) kept input.now count (W.contents (watched writer.old)) (W.contents (watched writer.new)) }
        ensures stopped { (kept : List (List ℕ)) (number : ℕ) → KeepsDocket D.Disk kept self.old → result ≡ Err (TogetherFault.Refused number)
            → StopsList (standing_at self.old) (held_at self.old) keep_refused kept input.now number false (W.contents (watched writer.old)) (W.contents (watched writer.new)) }
        ensures held { (kept : List (List ℕ)) (number : ℕ) → KeepsDocket D.Disk kept self.old → result ≡ Err (TogetherFault.Held number)
            → StopsList (standing_at self.old) (held_at self.old) keep_refused kept input.now number true (W.contents (watched writer.old)) (W.contents (watched writer.new)) }
        ensures untouched { (kept : List (List ℕ)) → KeepsDocket D.Disk kept self.old → IsAtFault (standing_at self.old) (held_at self.old) kept input.now → self.new ≡ self.old }
        ensures unwritten { (kept : List (List ℕ)) → KeepsDocket D.Disk kept self.old → stop_of (standing_at self.old) (held_at self.old) keep_refused kept input.now ≢ None → disk_under self.new ≡ disk_under self.old }
        ensures says { (kept : List (List ℕ)) → KeepsDocket D.Disk kept self.old → IfErr result (SaysWhatIsKept (disk_under self.new ≡ disk_under self.old)
            ((file : List ℕ) → D.Disk.may_leave (disk_under self.new) file → StandsFor file (kept ++ left_by (leaves_at self.old) kept (lines_of input.now)))) }
        ensures promised { (kept : List (List ℕ)) → KeepsDocket D.Disk kept self.old → faults_in (standing_at self.old) (held_at self.old) kept input.now ≡ [] → stop_of (standing_at self.old) (held_at self.old) keep_refused kept input.now ≡ None
            → IsPromisedDocket (standing_at self.old) (held_at self.old) kept (lines_of input.now) (W.contents (watched writer.old)) (W.contents (watched writer.new)) (has_failed writer.new ≡ false) (D.Disk.may_leave (disk_under self.new)) }
        ensures crash { (kept : List (List ℕ)) → KeepsDocket D.Disk kept self.old
            → IsDocketAllOrNone (standing_at self.old) (held_at self.old) kept (lines_of input.now) (D.Disk.may_leave (disk_under self.new)) }
        ensures clean { IsTrue (D.Disk.is_clean (disk_under self.new)) → IsTrue (D.Disk.is_clean (disk_under self.old)) }
    {
        let marked = self.setup.held_back.are_marked();
        let faults = match self
            .careful
            .register
            .line_faults(alloc, &self.setup.standing, marked, input)
        {
            Ok(faults) => faults,
            Err(_) => return Err(TogetherFault::OutOfMemory),
        };
        match list_faults(alloc, &faults, writer) {
            Ok(()) => {}
            Err(fault) => return Err(fault),
        }
        if !is_finished(input) {
            return Err(TogetherFault::Unkept(SessionFault::Unfinished));
        }
        match serve_together(
            &self.setup,
            alloc,
            &mut self.journal,
            &mut self.careful,
            writer,
            input,
            keep_refused,
        ) {
            Ok(None) => Ok(()),
            Ok(Some(line)) => Err(tell_stopped(alloc, &line, writer)),
            Err(fault) => Err(together_fault(fault)),
        }
    }
}
