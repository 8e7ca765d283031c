//! The marks of a folder: a file for each session that enters rows there, which has the session's account as its text, and which the
//! session holds locked until it ends and takes it away. One that nobody holds says that its session was cut off, so that its last rows
//! may be kept and not answered.
ghost use Rattle.std.specs.Prelude.{◌≡◌, string_bytes, IfOk};
ghost use Rattle.docket.specs.SessionMark.{cut_off_line, mark_name};

use crate::fault::Fault;
use crate::lock::FolderLock;
use crate::place::is_at;
use crate::shared_file::new_file;
use desk_program::lines_shown;
use program_runs::refused;
use program_streams::Watched;
use std::alloc::{AllocError, Global};
use std::fs::{self, File};
use std::io::{Read, Write};

// How many marks a folder may have. A session more has none.
const MOST_MARKS: u32 = 64;

// How many bytes of a mark are read: an account has fewer.
const MOST_READ: usize = 256;

/// The mark of a session that is on.
#[derive(Drop)]
pub struct Mark {
    name: String,
    file: File,
}

// The name of a mark of a folder.
fn mark_name(alloc: Global, folder: &str, number: u32) -> Result<String, AllocError>
    ensures { IfOk result (λ name. string_bytes name ≡ mark_name folder.now number) }
{
    format!(in alloc; "{folder}/entering-{number}")
}

// What is said of a session of that account that was cut off, after which so many rows are kept.
fn cut_off_line(alloc: Global, folder: &str, account: &str, rows: u32) -> Result<String, AllocError>
    ensures { IfOk result (λ line. string_bytes line ≡ cut_off_line folder.now account.now rows) }
{
    format!(in alloc;
        "docket: a session of {account} was cut off; the last row that is kept is row {rows}: see 'docket log {folder} --row {rows}'\n"
    )
}

// The mark of a session that was cut off: there is the file, and nobody holds it. One that was taken away meanwhile is none.
fn left_mark(rt: &HostRuntime, name: &str) -> Option<File> {
    match File::options().read(true).write(true).open(rt, name) {
        Ok(file) if file.try_lock().is_ok() && is_at(rt, name, &file) => Some(file),
        _ => None,
    }
}

// The account that a mark says, as far as it can be read.
fn account_in(alloc: Global, mut mark: File) -> Result<Vec<u8>, AllocError> {
    let mut account = vec![in alloc; 0u8; MOST_READ]?;
    let count = mark.read(account.as_mut_slice()).unwrap_or(0);
    account.truncate(count);
    Ok(account)
}

// Says that the session of a mark was cut off, where a row is kept.
fn tell_left(rt: &HostRuntime, folder: &str, mark: File, rows: u32) -> Result<(), Fault> {
    if rows == 0 {
        return Ok(());
    }
    let account = lines_shown(rt.alloc(), &account_in(rt.alloc(), mark)?)?;
    let account = str::from_utf8(&account).unwrap_or("an account");
    let line = cut_off_line(rt.alloc(), folder, account, rows)?;
    let _ = refused(&mut Watched::new(rt.stderr()), line.as_str());
    Ok(())
}

// Takes a mark away that a session left which was cut off, and says so.
fn clear_mark(rt: &HostRuntime, folder: &str, number: u32, rows: u32) -> Result<(), Fault> {
    let name = mark_name(rt.alloc(), folder, number)?;
    if let Some(mark) = left_mark(rt, name.as_str()) {
        let _ = fs::remove_file(rt, name.as_str());
        tell_left(rt, folder, mark, rows)?;
    }
    Ok(())
}

// Makes a mark for that account, if there is none of this number. One that can't be made or written is none.
fn made_mark(
    rt: &HostRuntime,
    folder: &str,
    number: u32,
    account: &[u8],
) -> Result<Option<Mark>, AllocError> {
    let name = mark_name(rt.alloc(), folder, number)?;
    match new_file(rt, folder, name.as_str()) {
        Ok(Some(mut file)) => {
            if file.try_lock().is_err() || file.write_all(account).is_err() {
                let _ = fs::remove_file(rt, name.as_str());
                return Ok(None);
            }
            Ok(Some(Mark { name, file }))
        }
        _ => Ok(None),
    }
}

/// Marks that a session of that account begins, after which so many rows are kept. Of each session before it that was cut off, standard
/// error says so, where a row is kept. Where there is no mark more the session has none. The folder's lock keeps others from doing the
/// same now.
pub fn begin_session(
    rt: &HostRuntime,
    folder: &str,
    _lock: &FolderLock,
    account: &[u8],
    rows: u32,
) -> Result<Option<Mark>, Fault> {
    for number in 1..MOST_MARKS + 1 {
        clear_mark(rt, folder, number, rows)?;
    }
    for number in 1..MOST_MARKS + 1 {
        if let Some(mark) = made_mark(rt, folder, number, account)? {
            return Ok(Some(mark));
        }
    }
    Ok(None)
}

/// Takes the mark of a session away that has ended, as far as it can be.
pub fn end_session(rt: &HostRuntime, mark: Mark) {
    let Mark { name, file } = mark;
    let _ = fs::remove_file(rt, name.as_str());
    drop(file);
}
