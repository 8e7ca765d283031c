//! A session that enters rows: what it has between its turns, and a turn of it.
ghost use Rattle.std.specs.Prelude.{◌≡◌, OnOk, false, true};
ghost use Rattle.program_streams.specs.Words.{IsGiven, has_failed, watched};

use crate::fault::Fault;
use crate::input::say;
use crate::locked_turn::locked_turn;
use crate::own_rows::OwnRows;
use crate::turn::Told;
use desk_program::{DeskFault, Remembered};
use desk_session::{SessionFault, Tally};
use program_streams::{Watched, write_all};
use program_words::Entering;
use std::alloc::{AllocError, Global};
use std::io::Write;
use std::sync::Wait;
use std::thread::Threads;

/// What a session has between its turns.
#[derive(Drop)]
pub struct Session {
    /// What it keeps of the docket.
    pub left: Remembered,
    /// Who enters.
    pub account: Vec<u8>,
    /// The rows that it kept.
    pub own: OwnRows,
}

// What a turn leaves, once its answers are written.
#[derive(Drop)]
struct Kept {
    left: Remembered,
    entries: Option<Vec<Vec<u8>>>,
    before: u32,
    after: u32,
}

// Writes the answers of a turn. Where there was no memory for all of them, none is written.
fn answered<W: Write>(
    writer: &mut Watched<W>,
    said: &Watched<Vec<u8>>,
    ended: Result<Tally, Fault>,
) -> Result<Tally, Fault>
    requires { has_failed writer.old ≡ false }
    ensures none { has_failed said.now ≡ true → writer.new ≡ writer.old }
    ensures given { has_failed said.now ≡ false → IsGiven W.contents writer.old writer.new (watched said.now).items }
    ensures working { OnOk result (has_failed writer.new ≡ false) }
{
    if said.failed() {
        drop(ended);
        return Err(Fault::Desk(DeskFault::OutOfMemory));
    }
    if write_all(writer, said.inner()).is_err() {
        drop(ended);
        return Err(Fault::Desk(DeskFault::Session(SessionFault::Write)));
    }
    ended
}

// Writes what a turn has to say.
fn written<W: Write, E: Write>(
    writer: &mut Watched<W>,
    errors: &mut Watched<E>,
    told: Told,
) -> Result<(Kept, Tally), Fault>
    requires { has_failed writer.old ≡ false }
    ensures { OnOk result (has_failed writer.new ≡ false) }
{
    let Told {
        left,
        entries,
        before,
        after,
        said,
        errors: faults,
        ended,
    } = told;
    say(errors, faults.inner());
    drop(faults);
    let ended = answered(writer, &said, ended);
    drop(said);
    let kept = Kept {
        left,
        entries,
        before,
        after,
    };
    match ended {
        Ok(tally) => Ok((kept, tally)),
        Err(fault) => {
            drop(kept);
            Err(fault)
        }
    }
}

// Says to a session's clerk what others' corrections made of its rows, and takes up the rows of a turn.
fn take_up<E: Write>(
    alloc: Global,
    errors: &mut Watched<E>,
    own: &mut OwnRows,
    kept: &Kept,
) -> Result<(), AllocError> {
    if let Some(entries) = &kept.entries {
        let text = own.told_of_corrections(alloc, kept.left.standing(), entries)?;
        say(errors, &text);
    }
    own.add(kept.before, kept.after)
}

// What a session has after a turn.
fn after_turn<E: Write>(
    alloc: Global,
    errors: &mut Watched<E>,
    kept: Kept,
    account: Vec<u8>,
    mut own: OwnRows,
) -> Result<Session, Fault> {
    let taken_up = take_up(alloc, errors, &mut own, &kept);
    let Kept { left, entries, .. } = kept;
    drop(entries);
    let session = Session { left, account, own };
    match taken_up {
        Ok(()) => Ok(session),
        Err(error) => {
            drop(session);
            Err(Fault::from(error))
        }
    }
}

/// A turn of a session, which keeps rows and answers them.
pub fn turn<H: Threads + Wait + Sync, W: Write, E: Write>(
    rt: &HostRuntime,
    threads: &H,
    writer: &mut Watched<W>,
    errors: &mut Watched<E>,
    folder: &str,
    asked: &Entering,
    session: Session,
    rows: &[u8],
) -> Result<(Session, Tally), Fault>
    requires { has_failed writer.old ≡ false }
    ensures { OnOk result (has_failed writer.new ≡ false) }
{
    let Session { left, account, own } = session;
    let told = match locked_turn(rt, threads, folder, asked, left, &account, rows) {
        Ok(told) => told,
        Err(fault) => {
            drop(account);
            drop(own);
            return Err(fault);
        }
    };
    match written(writer, errors, told) {
        Ok((kept, tally)) => Ok((after_turn(rt.alloc(), errors, kept, account, own)?, tally)),
        Err(fault) => {
            drop(account);
            drop(own);
            Err(fault)
        }
    }
}
