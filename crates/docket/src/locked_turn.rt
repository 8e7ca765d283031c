//! A turn of a session while no other program has the folder.

use crate::fault::Fault;
use crate::journal_file::journal_name;
use crate::lock::{FolderLock, lock_of};
use crate::place::{Place, is_replaced, place_of};
use crate::turn::{Told, Turn, first_turn, next_turn};
use desk_journal::JournalFault;
use desk_program::{DeskFault, FileFault, Remembered, file_fault};
use desk_session::SessionFault;
use program_words::Entering;
use sqlite_disk::Disk;
use sqlite_std_file::{FileFrom, Wary};
use std::sync::Wait;
use std::thread::Threads;

// What a turn holds while it keeps rows: the folder's lock, and the journal by its name.
#[derive(Drop)]
struct Held {
    lock: FolderLock,
    name: String,
    place: Place,
}

// The file to which a journal's name leads.
fn journal_place(rt: &HostRuntime, name: &str) -> Result<Place, FileFault> {
    match place_of(rt, name) {
        Ok(place) => Ok(place),
        Err(error) => Err(file_fault(rt.alloc(), name, error)),
    }
}

// Looks whether a journal's name still leads to the file that was open. Rows that were kept in another file are lost with the name, and
// aren't answered.
fn check_stays(rt: &HostRuntime, name: &str, place: Place) -> Result<(), DeskFault> {
    if is_replaced(rt, name, place) {
        return Err(DeskFault::Session(SessionFault::Journal(JournalFault::Changed)));
    }
    Ok(())
}

// Takes a folder for a turn.
fn hold(rt: &HostRuntime, folder: &str, wait: u32) -> Result<Held, Fault> {
    let name = journal_name(rt.alloc(), folder)?;
    let lock = lock_of(rt, folder, wait)?;
    let place = journal_place(rt, name.as_str())?;
    Ok(Held { lock, name, place })
}

// Gives a folder back after a turn. Nothing of the turn is written before.
fn given_back(rt: &HostRuntime, held: Held, told: Result<Told, Fault>) -> Result<Told, Fault> {
    let stays = check_stays(rt, held.name.as_str(), held.place);
    drop(held);
    match told {
        Ok(told) => match stays {
            Ok(()) => Ok(told),
            Err(fault) => {
                drop(told);
                Err(Fault::Desk(fault))
            }
        },
        Err(fault) => {
            drop(stays);
            Err(fault)
        }
    }
}

// Keeps rows after all that others kept.
fn turn_of<H: Threads + Wait + Sync>(
    rt: &HostRuntime,
    threads: &H,
    folder: &str,
    asked: &Entering,
    left: Remembered,
    account: &[u8],
    rows: &[u8],
) -> Result<Turn<FileFrom<Wary>>, Fault> {
    match next_turn(rt, folder, left, account, asked, rows, Wary)? {
        Some(turn) => Ok(turn),
        None => first_turn(rt, threads, folder, asked, rows, Wary),
    }
}

/// What a turn has to say, once its file is closed.
pub fn told_of<D: Disk + Drop>(turn: Turn<D>) -> Told {
    let Turn { disk, told } = turn;
    drop(disk);
    told
}

// The same, with the file closed.
fn told_turn<H: Threads + Wait + Sync>(
    rt: &HostRuntime,
    threads: &H,
    folder: &str,
    asked: &Entering,
    left: Remembered,
    account: &[u8],
    rows: &[u8],
) -> Result<Told, Fault> {
    Ok(told_of(turn_of(rt, threads, folder, asked, left, account, rows)?))
}

/// Keeps rows after all that others kept, while no other program has the folder.
pub fn locked_turn<H: Threads + Wait + Sync>(
    rt: &HostRuntime,
    threads: &H,
    folder: &str,
    asked: &Entering,
    left: Remembered,
    account: &[u8],
    rows: &[u8],
) -> Result<Told, Fault> {
    match hold(rt, folder, asked.wait) {
        Ok(held) => {
            let told = told_turn(rt, threads, folder, asked, left, account, rows);
            given_back(rt, held, told)
        }
        Err(fault) => {
            drop(left);
            Err(fault)
        }
    }
}
