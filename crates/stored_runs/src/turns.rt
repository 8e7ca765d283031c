//! Calls of `enter` as turns of one session, on a disk that other calls change between them.

ghost use Rattle.std.specs.Prelude.{◌≡◌, false};
ghost use Rattle.program_streams.specs.Words.{has_failed};

use crate::calls::taken;
use crate::clerk::{FirstClock, stamp};
use desk_program::{Desk, DeskFault, OpenFault, OutputFault, Remembered, Resumed};
use program_runs::refused;
use program_streams::{Watched, write_all};
use program_words::{Entering, Keeping};
use sqlite_disk::Memory;
use std::alloc::Global;

/// How a turn ended, and what it left.
pub type EndedTurn = (Result<(), DeskFault>, Shared);

/// A disk, and what the last turn left of its docket, where it can go on with that.
#[derive(Drop)]
pub struct Shared {
    pub disk: Memory,
    pub left: Option<Remembered>,
}

// The desk of a disk, opened anew.
fn anew(alloc: Global, disk: Memory) -> Result<Desk<Memory>, (OpenFault, Memory)> {
    let Ok(stamp) = stamp(alloc) else {
        return Err((OpenFault::OutOfMemory, disk));
    };
    match Desk::open(alloc, disk, stamp) {
        Ok((desk, _)) => Ok(desk),
        Err(unopened) => Err(unopened),
    }
}

// The desk that a turn left, or that of its disk anew, where others corrected the docket.
fn resumed(
    alloc: Global,
    disk: Memory,
    left: Remembered,
) -> Result<Desk<Memory>, (OpenFault, Memory)> {
    let Ok(stamp) = stamp(alloc) else {
        return Err((OpenFault::OutOfMemory, disk));
    };
    match left.resume(alloc, disk, stamp) {
        Ok(Resumed::Desk(desk)) => Ok(desk),
        Ok(Resumed::Corrected(disk)) => anew(alloc, disk),
        Err(unopened) => Err(unopened),
    }
}

// The desk of a disk for a turn: it goes on where the last one left it, if it can.
fn desk_of(alloc: Global, shared: Shared) -> Result<Desk<Memory>, (OpenFault, Memory)> {
    let Shared { disk, left } = shared;
    match left {
        Some(left) => resumed(alloc, disk, left),
        None => anew(alloc, disk),
    }
}

// What the next turn can go on with: nothing after rows that were to be kept together and weren't, since the desk has decided them.
fn left_after(
    keeping: Keeping,
    ended: &Result<(), DeskFault>,
    left: Remembered,
) -> Option<Remembered> {
    match (keeping, ended) {
        (Keeping::Together(_), Err(_)) => None,
        _ => Some(left),
    }
}

// Keeps rows. What is said of rows that are kept together and then aren't goes to `errors`.
fn entered(
    alloc: Global,
    desk: &mut Desk<Memory>,
    keeping: Keeping,
    input: &[u8],
    writer: &mut Watched<Vec<u8>>,
    errors: &mut Watched<Vec<u8>>,
) -> Result<(), DeskFault>
    requires { has_failed writer.old ≡ false }
{
    match keeping {
        Keeping::Each => {
            let mut reader = Watched::new(input);
            match desk.enter(alloc, &FirstClock, &mut reader, writer) {
                Ok(tally) => taken(tally),
                Err(fault) => Err(DeskFault::Session(fault)),
            }
        }
        Keeping::Together(keep_refused) => {
            let mut said = Watched::new(Vec::new(alloc));
            match desk.enter_together(alloc, input, keep_refused, &mut said) {
                Ok(()) => match write_all(writer, said.inner()) {
                    Ok(()) => Ok(()),
                    Err(_) => Err(DeskFault::Output(OutputFault::Write)),
                },
                Err(fault) => {
                    if let Ok(text) = str::from_utf8(said.inner()) {
                        let _ = refused(errors, text);
                    }
                    Err(DeskFault::Together(fault))
                }
            }
        }
    }
}

/// Keeps rows in a turn.
pub fn kept(
    alloc: Global,
    shared: Shared,
    entering: &Entering,
    input: &[u8],
    writer: &mut Watched<Vec<u8>>,
    errors: &mut Watched<Vec<u8>>,
) -> EndedTurn
    requires { has_failed writer.old ≡ false }
{
    match desk_of(alloc, shared) {
        Ok(mut desk) => {
            desk.hold_back(entering.held_back);
            let ended = entered(alloc, &mut desk, entering.keeping, input, writer, errors);
            let (left, disk) = desk.leave();
            let left = left_after(entering.keeping, &ended, left);
            (ended, Shared { disk, left })
        }
        Err((fault, disk)) => (Err(DeskFault::Open(fault)), Shared { disk, left: None }),
    }
}
