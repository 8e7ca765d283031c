//! The lock of a folder. A program has it while it has the folder's journal open; the others wait.
ghost use Rattle.std.specs.Prelude.{◌≡◌, string_bytes, IfOk};
ghost use Rattle.docket.specs.Lock.{lock_name, next_name, unlocked_line, waited_line};

use crate::fault::Fault;
use crate::journal_file::{find_own_journal, journal_name};
use crate::place::is_at;
use crate::shared_file::new_file;
use desk_program::{FileFault, file_fault};
use std::alloc::{AllocError, Global};
use std::fs::{File, TryLockError};
use std::io::{self, ErrorKind};
use std::thread;
use std::time::{Duration, Instant};

// How long a program pauses before it asks again: shortly at first, since a turn is short.
const SHORT_PAUSE: u64 = 100;

const LONG_PAUSE: u64 = 1_000;

// How often it pauses shortly.
const SHORT_PAUSES: u64 = 200;

/// The lock of a folder, which this program has until the value is dropped.
#[derive(Drop)]
pub struct FolderLock {
    file: File,
}

// The name of the file whose lock is the folder's.
fn lock_name(alloc: Global, folder: &str) -> Result<String, AllocError>
    ensures { IfOk result (λ name. string_bytes name ≡ lock_name folder.now) }
{
    format!(in alloc; "{folder}/lock")
}

// The name of the file whose lock who is next has.
fn next_name(alloc: Global, folder: &str) -> Result<String, AllocError>
    ensures { IfOk result (λ name. string_bytes name ≡ next_name folder.now) }
{
    format!(in alloc; "{folder}/next")
}

// What is said where the lock didn't come in time.
fn waited_line(alloc: Global, folder: &str, wait: u32) -> Result<String, AllocError>
    ensures { IfOk result (λ line. string_bytes line ≡ waited_line folder.now wait) }
{
    format!(in alloc;
        "other programs had {folder} for {wait} s, so nothing was written: try again, or wait longer with --wait\n"
    )
}

// What is said where the file system keeps no locks.
fn unlocked_line(alloc: Global, folder: &str) -> Result<String, AllocError>
    ensures { IfOk result (λ line. string_bytes line ≡ unlocked_line folder.now) }
{
    format!(in alloc;
        "the file system of {folder} doesn't keep locks apart, so programs can't share the folder: move it to a disk of this machine\n"
    )
}

// The lock's file, open to be locked, unless it was taken away meanwhile.
fn reopened(rt: &HostRuntime, name: &str) -> Result<Option<File>, FileFault> {
    match File::options().read(true).write(true).open(rt, name) {
        Ok(file) => Ok(Some(file)),
        Err(error) if error.kind() == ErrorKind::NotFound => Ok(None),
        Err(error) => Err(file_fault(rt.alloc(), name, error)),
    }
}

// The lock's file, open to be locked, which is made where there is none; nothing where another program makes it now.
fn lock_file(rt: &HostRuntime, folder: &str, name: &str) -> Result<Option<File>, FileFault> {
    match reopened(rt, name)? {
        Some(file) => Ok(Some(file)),
        None => new_file(rt, folder, name),
    }
}

// Whether so many seconds have passed since then; so it is where the clock can't be read.
fn has_passed(rt: &HostRuntime, since: Option<Instant>, wait: u32) -> bool {
    match since {
        Some(since) => match since.elapsed(rt) {
            Ok(elapsed) => elapsed.as_secs() >= u64::from(wait),
            Err(_) => true,
        },
        None => true,
    }
}

// How long the pause after so many is.
fn pause_after(pauses: u64) -> Duration {
    if pauses < SHORT_PAUSES {
        Duration::from_micros(SHORT_PAUSE)
    } else {
        Duration::from_micros(LONG_PAUSE)
    }
}

// Whether the lock of a file that is open comes within so many seconds.
fn comes(rt: &HostRuntime, file: &File, since: Option<Instant>, wait: u32) -> io::Result<bool> {
    for pauses in 0..u64::MAX {
        match file.try_lock() {
            Ok(()) => return Ok(true),
            Err(TryLockError::WouldBlock) => {}
            Err(TryLockError::Error(error)) => return Err(error),
        }
        if has_passed(rt, since, wait) {
            break;
        }
        thread::sleep(rt, pause_after(pauses));
    }
    Ok(false)
}

// What came of waiting for a lock.
#[derive(Drop)]
enum Waited {
    Taken(FolderLock),
    // The lock's file was made or taken away by another program meanwhile.
    Again,
    TooLong,
}

// Waits for the lock of a folder, so many seconds from then on.
fn wait_for(
    rt: &HostRuntime,
    folder: &str,
    name: &str,
    since: Option<Instant>,
    wait: u32,
) -> Result<Waited, FileFault> {
    let Some(file) = lock_file(rt, folder, name)? else {
        return Ok(Waited::Again);
    };
    match comes(rt, &file, since, wait) {
        Ok(true) if is_at(rt, name, &file) => Ok(Waited::Taken(FolderLock { file })),
        Ok(true) => Ok(Waited::Again),
        Ok(false) => Ok(Waited::TooLong),
        Err(error) => Err(file_fault(rt.alloc(), name, error)),
    }
}

// Takes the lock of that name, or the fault says that others have it for so many seconds from then on.
fn taken(
    rt: &HostRuntime,
    folder: &str,
    name: &str,
    since: Option<Instant>,
    wait: u32,
) -> Result<FolderLock, Fault> {
    for _ in 0..u64::MAX {
        match wait_for(rt, folder, name, since, wait)? {
            Waited::Taken(lock) => return Ok(lock),
            Waited::Again => {}
            Waited::TooLong => break,
        }
    }
    Err(Fault::Waited(waited_line(rt.alloc(), folder, wait)?))
}

/// Takes the lock of a folder. Where other programs have it for so many seconds, it isn't taken, and the fault says so. Who waits for it has
/// a lock of its own first, that of who is next: so a program that lets the folder go doesn't have it again before one that waits.
pub fn take_lock(rt: &HostRuntime, folder: &str, wait: u32) -> Result<FolderLock, Fault> {
    let since = Instant::now(rt).ok();
    let next = next_name(rt.alloc(), folder)?;
    let name = lock_name(rt.alloc(), folder)?;
    let turn = taken(rt, folder, next.as_str(), since, wait)?;
    let lock = taken(rt, folder, name.as_str(), since, wait)?;
    drop(turn);
    Ok(lock)
}

/// Takes the lock of a folder that has a journal, as above.
pub fn lock_of(rt: &HostRuntime, folder: &str, wait: u32) -> Result<FolderLock, Fault> {
    let name = journal_name(rt.alloc(), folder)?;
    find_own_journal(rt, name.as_str())?;
    take_lock(rt, folder, wait)
}

/// Looks whether a second program would be kept from a lock that this one has. Where it wouldn't, the file system keeps no locks, and the
/// folder can't be shared.
pub fn check_lock(rt: &HostRuntime, folder: &str, _lock: &FolderLock) -> Result<(), Fault> {
    let name = lock_name(rt.alloc(), folder)?;
    match wait_for(rt, folder, name.as_str(), None, 0)? {
        Waited::Taken(_) => Err(Fault::Unusable(unlocked_line(rt.alloc(), folder)?)),
        _ => Ok(()),
    }
}
