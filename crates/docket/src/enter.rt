//! A session that enters rows into a folder, beside others that do so: between its turns the folder is theirs.
ghost use Rattle.std.specs.Prelude.{◌≡◌, OnOk, false};
ghost use Rattle.program_streams.specs.Words.{has_failed};

use crate::answered::is_answered;
use crate::clerk::{OfClerk, lines_of};
use crate::fault::{Fault, taken};
use crate::folder::remove_spare;
use crate::input::{rows_of, whole};
use crate::lock::{check_lock, lock_of, take_lock};
use crate::locked_turn::told_of;
use crate::own_rows::OwnRows;
use crate::session::{Session, turn};
use crate::session_mark::{Mark, begin_session, end_session};
use crate::turn::{Told, first_turn};
use desk_program::{DeskFault, Remembered};
use desk_session::{ShortLines, Tally, account_of, read_lines};
use program_streams::Watched;
use program_words::{Entering, Keeping, Lines};
use sqlite_std_file::Wary;
use std::alloc::Global;
use std::io::{Read, Stdin, Write};
use std::sync::Wait;
use std::thread::Threads;

// How many bytes of standard input are asked for at once.
const CHUNK: usize = 65_536;

// A turn for the lines of one read. Where there are none there is no turn.
fn turn_for<H: Threads + Wait + Sync, W: Write, E: Write>(
    rt: &HostRuntime,
    threads: &H,
    writer: &mut Watched<W>,
    errors: &mut Watched<E>,
    folder: &str,
    asked: &Entering,
    session: Session,
    lines: &[u8],
) -> Result<(Session, Tally), Fault>
    requires { has_failed writer.old ≡ false }
    ensures { OnOk result (has_failed writer.new ≡ false) }
{
    if lines.is_empty() {
        return Ok((session, Tally::new()));
    }
    turn(rt, threads, writer, errors, folder, asked, session, lines)
}

// The lines of standard input, and room for what is read of them at once.
fn input_of(
    rt: &HostRuntime,
    lines: Lines,
) -> Result<(Watched<ShortLines<OfClerk<Stdin>>>, Vec<u8>), Fault> {
    let reader = Watched::new(lines_of(rt, lines)?);
    let buffer = vec![in rt.alloc(); 0u8; CHUNK]?;
    Ok((reader, buffer))
}

// Keeps the rows of a reader, those of each read in a turn of their own.
fn kept_from<H: Threads + Wait + Sync, R: Read, W: Write, E: Write>(
    rt: &HostRuntime,
    threads: &H,
    reader: &mut Watched<R>,
    buffer: &mut [u8],
    writer: &mut Watched<W>,
    errors: &mut Watched<E>,
    folder: &str,
    asked: &Entering,
    mut session: Session,
) -> Result<(), Fault>
    requires { has_failed writer.old ≡ false }
{
    let mut begun = Vec::new(rt.alloc());
    let mut tally = Tally::new();
    'turns: for _ in 0..u64::MAX {
        let lines = match read_lines(rt.alloc(), reader, buffer, &mut begun) {
            Ok(Some(lines)) => lines,
            Ok(None) => {
                drop(session);
                return taken(tally);
            }
            Err(fault) => {
                drop(session);
                return Err(Fault::Desk(DeskFault::Session(fault)));
            }
        };
        let (next, more) = turn_for(rt, threads, writer, errors, folder, asked, session, &lines)?;
        session = next;
        tally = tally.with(&more);
    }
    drop(session);
    taken(tally)
}

// Keeps the rows of standard input, those of each read in a turn of their own.
fn kept_by_turns<H: Threads + Wait + Sync, W: Write, E: Write>(
    rt: &HostRuntime,
    threads: &H,
    writer: &mut Watched<W>,
    errors: &mut Watched<E>,
    folder: &str,
    asked: &Entering,
    session: Session,
) -> Result<(), Fault>
    requires { has_failed writer.old ≡ false }
{
    match input_of(rt, asked.lines) {
        Ok((mut reader, mut buffer)) => {
            let room = buffer.as_mut_slice();
            let kept = kept_from(
                rt,
                threads,
                &mut reader,
                room,
                writer,
                errors,
                folder,
                asked,
                session,
            );
            drop(reader);
            kept
        }
        Err(fault) => {
            drop(session);
            Err(fault)
        }
    }
}

// All rows of standard input, which are plain as they come.
fn plain_rows(rt: &HostRuntime, asked: &Entering) -> Result<Vec<u8>, Fault> {
    Ok(whole(rt.alloc(), lines_of(rt, asked.lines)?)?)
}

// Keeps rows in one turn.
fn kept_at_once<H: Threads + Wait + Sync, W: Write, E: Write>(
    rt: &HostRuntime,
    threads: &H,
    writer: &mut Watched<W>,
    errors: &mut Watched<E>,
    folder: &str,
    asked: &Entering,
    session: Session,
    rows: &[u8],
) -> Result<(), Fault>
    requires { has_failed writer.old ≡ false }
{
    match turn(rt, threads, writer, errors, folder, asked, session, rows) {
        Ok((session, tally)) => {
            drop(session);
            taken(tally)
        }
        Err(fault) => Err(fault),
    }
}

// Keeps the rows of standard input, which are plain as they come.
fn plain_entered<H: Threads + Wait + Sync, W: Write, E: Write>(
    rt: &HostRuntime,
    threads: &H,
    writer: &mut Watched<W>,
    errors: &mut Watched<E>,
    folder: &str,
    asked: &Entering,
    session: Session,
) -> Result<(), Fault>
    requires { has_failed writer.old ≡ false }
{
    match asked.keeping {
        Keeping::Each => kept_by_turns(rt, threads, writer, errors, folder, asked, session),
        Keeping::Together(_) => match plain_rows(rt, asked) {
            Ok(rows) => kept_at_once(rt, threads, writer, errors, folder, asked, session, &rows),
            Err(fault) => {
                drop(session);
                Err(fault)
            }
        },
    }
}

// Whether each line is kept by itself: then its rows are kept together, where otherwise all rows of the input are.
fn is_each(keeping: &Keeping) -> bool {
    match keeping {
        Keeping::Each => true,
        Keeping::Together(_) => false,
    }
}

// Keeps the rows of standard input, as they are to be.
fn entered<H: Threads + Wait + Sync, W: Write, E: Write>(
    rt: &HostRuntime,
    threads: &H,
    writer: &mut Watched<W>,
    errors: &mut Watched<E>,
    folder: &str,
    asked: &Entering,
    session: Session,
) -> Result<(), Fault>
    requires { has_failed writer.old ≡ false }
{
    let marked = asked.held_back.are_marked();
    let joined = is_each(&asked.keeping);
    match rows_of(
        rt,
        errors,
        session.left.court(),
        asked.lines,
        marked,
        joined,
    ) {
        Ok(Some(rows)) => kept_at_once(rt, threads, writer, errors, folder, asked, session, &rows),
        Ok(None) => plain_entered(rt, threads, writer, errors, folder, asked, session),
        Err(fault) => {
            drop(session);
            Err(fault)
        }
    }
}

// What a turn left, and after which row.
fn left_of(told: Told) -> (Remembered, u32) {
    let Told { left, after, .. } = told;
    (left, after)
}

// Opens the docket of a folder.
fn first_left<H: Threads + Wait + Sync>(
    rt: &HostRuntime,
    threads: &H,
    folder: &str,
    asked: &Entering,
) -> Result<(Remembered, u32), Fault> {
    let turn = first_turn(rt, threads, folder, asked, b"", Wary)?;
    Ok(left_of(told_of(turn)))
}

// What a session has before its first turn.
fn session_of(alloc: Global, left: Remembered, account: Vec<u8>) -> Session {
    Session {
        left,
        account,
        own: OwnRows::new(alloc),
    }
}

// Opens the docket of a folder for a session, and marks that it begins.
fn begun<H: Threads + Wait + Sync>(
    rt: &HostRuntime,
    threads: &H,
    folder: &str,
    asked: &Entering,
) -> Result<(Session, Option<Mark>), Fault> {
    let lock = lock_of(rt, folder, asked.wait)?;
    check_lock(rt, folder, &lock)?;
    let account = account_of(rt)?;
    let (left, after) = first_left(rt, threads, folder, asked)?;
    let session = session_of(rt.alloc(), left, account);
    let mark = begin_session(rt, folder, &lock, &session.account, after);
    if mark.is_err() {
        remove_spare(rt, folder);
    }
    drop(lock);
    match mark {
        Ok(mark) => Ok((session, mark)),
        Err(fault) => {
            drop(session);
            Err(fault)
        }
    }
}

// Ends a session: its mark is taken away, unless rows are kept that weren't answered.
fn ended(rt: &HostRuntime, folder: &str, mark: Option<Mark>, is_answered: bool) {
    if let Some(mark) = mark {
        if is_answered {
            end_session(rt, mark);
        }
    }
    if let Ok(lock) = take_lock(rt, folder, 0) {
        remove_spare(rt, folder);
        drop(lock);
    }
}

/// Keeps the rows of standard input, as they are to be, and answers them. Where a session before was cut off, standard error says so.
pub fn enter<H: Threads + Wait + Sync, W: Write, E: Write>(
    rt: &HostRuntime,
    threads: &H,
    writer: &mut Watched<W>,
    errors: &mut Watched<E>,
    folder: &str,
    asked: &Entering,
) -> Result<(), Fault>
    requires { has_failed writer.old ≡ false }
{
    let (session, mark) = begun(rt, threads, folder, asked)?;
    let outcome = entered(rt, threads, writer, errors, folder, asked, session);
    ended(rt, folder, mark, is_answered(&outcome));
    outcome
}
