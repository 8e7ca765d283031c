//! Rows that are kept at a desk.
ghost use Rattle.std.specs.Prelude.{◌≡◌, ◌≢◌, ◌⊎◌, ℕ, List, None, false, true, IsTrue, IfOk, OnOk};
ghost use Rattle.desk_program.specs.Words.{IsDocketAllOrNone, KeepsDocket, KeepsTogether, answers_at, desk_status, disk_under, held_at, leaves_at, outcome_at, standing_at, stop_of};
ghost use Rattle.desk_session.specs.Words.{IsServed, lines_of, tally_of};
ghost use Rattle.docket.specs.Lines.{is_json};
ghost use Rattle.docket.specs.Sessions.{PromisesSession};
ghost use Rattle.program_streams.specs.Words.{has_failed, watched};

use crate::fault::Fault;
use crate::input::say;
use desk_program::{Desk, DeskFault, TogetherFault, status_of};
use desk_session::{SessionFault, Tally};
use program_streams::{Watched, write_all};
use program_words::{Entering, Keeping, Lines};
use row_input::json_of_said;
use sqlite_disk::Disk;
use std::alloc::Global;
use std::io::Write;
use std::rt::Clock;

// Keeps rows, and answers each.
fn kept_each<D: Disk, C: Clock, W: Write>(
    alloc: Global,
    clock: &C,
    writer: &mut Watched<W>,
    desk: &mut Desk<D>,
    rows: &[u8],
) -> Result<Tally, Fault>
    requires { has_failed writer.old ≡ false }
    ensures tally { (kept : List (List ℕ)) → KeepsDocket D.Disk kept desk.old → IfOk result (λ tally. tally ≡ tally_of (leaves_at desk.old) (outcome_at desk.old) kept (lines_of rows.now)) }
    ensures served { (kept : List (List ℕ)) → KeepsDocket D.Disk kept desk.old → OnOk result
        (IsServed (leaves_at desk.old) (answers_at desk.old) (λ entries. KeepsDocket D.Disk entries desk.new) (λ entries. standing_at desk.new ≡ standing_at desk.old) kept (lines_of rows.now) (W.contents (watched writer.old)) (W.contents (watched writer.new))) }
    ensures promised { PromisesSession D.Disk (held_at desk.old) desk.old desk.new (W.contents (watched writer.old)) (W.contents (watched writer.new)) (has_failed writer.new ≡ false) }
    ensures clean { IsTrue (D.Disk.is_clean (disk_under desk.new)) → IsTrue (D.Disk.is_clean (disk_under desk.old)) }
{
    let mut reader = Watched::new(rows);
    match desk.enter(alloc, clock, &mut reader, writer) {
        Ok(tally) => Ok(tally),
        Err(fault) => Err(Fault::Desk(DeskFault::Session(fault))),
    }
}

// Whether what is said of lines is written as JSON.
fn is_json(lines: Lines) -> bool
    ensures { result ≡ is_json lines }
{
    match lines {
        Lines::Plain(_) => false,
        Lines::AsWritten(style) => style.json,
    }
}

// Says why rows that were to be kept together aren't.
fn told_refusal<E: Write>(
    alloc: Global,
    errors: &mut Watched<E>,
    lines: Lines,
    said: &[u8],
    fault: DeskFault,
) -> Result<Fault, Fault>
    ensures { IfOk result (λ told. (told ≡ Fault.Desk fault) ⊎ ((told ≡ Fault.Told (desk_status fault)) × (is_json lines ≡ true))) }
{
    match str::from_utf8(said) {
        Ok(text) if is_json(lines) && !text.is_empty() => {
            say(errors, &json_of_said(alloc, text)?);
            Ok(Fault::Told(status_of(&fault)))
        }
        _ => {
            say(errors, said);
            Ok(Fault::Desk(fault))
        }
    }
}

// Keeps rows together, and then answers them. What is said of lines that have faults goes to standard error.
fn kept_together<D: Disk, W: Write, E: Write>(
    alloc: Global,
    writer: &mut Watched<W>,
    errors: &mut Watched<E>,
    desk: &mut Desk<D>,
    lines: Lines,
    rows: &[u8],
    keep_refused: bool,
) -> Result<(), Fault>
    requires { has_failed writer.old ≡ false }
    ensures crash { (kept : List (List ℕ)) → KeepsDocket D.Disk kept desk.old
        → IsDocketAllOrNone (standing_at desk.old) (held_at desk.old) kept (lines_of rows.now) (D.Disk.may_leave (disk_under desk.new)) }
    ensures unwritten { (kept : List (List ℕ)) → KeepsDocket D.Disk kept desk.old
        → stop_of (standing_at desk.old) (held_at desk.old) keep_refused kept rows.now ≢ None → disk_under desk.new ≡ disk_under desk.old }
    ensures together { (kept : List (List ℕ)) → KeepsDocket D.Disk kept desk.old → OnOk result
        (KeepsTogether (standing_at desk.old) (held_at desk.old) keep_refused kept rows.now (W.contents (watched writer.old)) (W.contents (watched writer.new)) (λ entries. KeepsDocket D.Disk entries desk.new)) }
    ensures promised { PromisesSession D.Disk (held_at desk.old) desk.old desk.new (W.contents (watched writer.old)) (W.contents (watched writer.new)) (has_failed writer.new ≡ false) }
    ensures clean { IsTrue (D.Disk.is_clean (disk_under desk.new)) → IsTrue (D.Disk.is_clean (disk_under desk.old)) }
{
    let mut said = Watched::new(Vec::new(alloc));
    match desk.enter_together(alloc, rows, keep_refused, &mut said) {
        Ok(()) => {
            if write_all(writer, said.inner()).is_err() {
                return Err(Fault::Desk(DeskFault::Session(SessionFault::Write)));
            }
            Ok(())
        }
        Err(TogetherFault::Unkept(SessionFault::Write)) => {
            Err(Fault::Desk(DeskFault::OutOfMemory))
        }
        Err(fault) => {
            let fault = DeskFault::Together(fault);
            Err(told_refusal(alloc, errors, lines, said.inner(), fault)?)
        }
    }
}

/// Keeps rows, as they are to be, and answers them.
pub fn kept<D: Disk, C: Clock, W: Write, E: Write>(
    alloc: Global,
    clock: &C,
    writer: &mut Watched<W>,
    errors: &mut Watched<E>,
    desk: &mut Desk<D>,
    asked: &Entering,
    rows: &[u8],
) -> Result<Tally, Fault>
    requires { has_failed writer.old ≡ false }
    ensures promised { PromisesSession D.Disk (held_at desk.old) desk.old desk.new (W.contents (watched writer.old)) (W.contents (watched writer.new)) (has_failed writer.new ≡ false) }
    ensures clean { IsTrue (D.Disk.is_clean (disk_under desk.new)) → IsTrue (D.Disk.is_clean (disk_under desk.old)) }
{
    match asked.keeping {
        Keeping::Each => kept_each(alloc, clock, writer, desk, rows),
        Keeping::Together(keep_refused) => {
            kept_together(alloc, writer, errors, desk, asked.lines, rows, keep_refused)?;
            Ok(Tally::new())
        }
    }
}
