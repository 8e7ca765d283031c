//! What a crash left of a journal after its last entry: it is saved in a file of its own before the opening cuts it off.
ghost use Rattle.std.specs.Prelude.{◌≡◌, string_bytes, IfOk, OnOk};
ghost use Rattle.std.specs.Io.KnownBytes.{Appends};
ghost use Rattle.docket.specs.Saved.{cut_name, day_at, many_line, one_line, saved_line};

use crate::folder::{read_file, sync_folder};
use crate::shared_file::new_file;
use court_clock::Day;
use desk_journal::{JournalEnd, JournalFault, tail_after, tail_in};
use desk_program::{FileFault, file_fault};
use desk_session::second_of;
use program_runs::refused;
use program_streams::Watched;
use std::alloc::{AllocError, Global};
use std::fs::{self, File};
use std::io::{self, ErrorKind, Write};
use std::os::unix::fs::FileExt;

// How many files there may be of what was cut off on one day.
const MOST_CUT: u32 = 1_000;

// The seconds of a day.
const DAY: u64 = 86_400;

// The last number that a day may have.
const LAST_DAY: u64 = 110_000;

// The day of UTC in which a second is.
fn day_at(second: u64) -> Day
    ensures { result ≡ day_at second }
{
    match Day::new((second / DAY).min(LAST_DAY) as i32) {
        Some(day) => day,
        None => unreachable!(),
    }
}

// The name of a file of a folder for what is cut off on that day.
fn cut_name(alloc: Global, folder: &str, day: Day, number: u32) -> Result<String, AllocError>
    ensures { IfOk result (λ name. string_bytes name ≡ cut_name folder.now day number) }
{
    format!(in alloc; "{folder}/cut-{day}-{number}")
}

// What is said of bytes, which are saved in the file of that name.
fn many_line(alloc: Global, count: usize, name: &str) -> Result<String, AllocError>
    ensures { IfOk result (λ line. string_bytes line ≡ many_line count name.now) }
{
    format!(in alloc;
        "docket: a crash left {count} bytes after the last entry: they are saved in {name} and cut off\n"
    )
}

// The same of a single byte.
fn one_line(alloc: Global, name: &str) -> Result<String, AllocError>
    ensures { IfOk result (λ line. string_bytes line ≡ one_line name.now) }
{
    format!(in alloc;
        "docket: a crash left 1 byte after the last entry: it is saved in {name} and cut off\n"
    )
}

// What is said of so many bytes, which are saved in the file of that name.
fn saved_line(alloc: Global, count: usize, name: &str) -> Result<String, AllocError>
    ensures { IfOk result (λ line. string_bytes line ≡ saved_line count name.now) }
{
    if count == 1 {
        one_line(alloc, name)
    } else {
        many_line(alloc, count, name)
    }
}

// A new file for what is cut off on that day, and its name: that of the first number of which there is none.
fn cut_file(rt: &HostRuntime, folder: &str, day: Day) -> Result<(String, File), FileFault> {
    for number in 1..MOST_CUT {
        let name = cut_name(rt.alloc(), folder, day, number)?;
        if let Some(file) = new_file(rt, folder, name.as_str())? {
            return Ok((name, file));
        }
    }
    let name = cut_name(rt.alloc(), folder, day, MOST_CUT)?;
    match new_file(rt, folder, name.as_str())? {
        Some(file) => Ok((name, file)),
        None => {
            let error = io::Error::from(ErrorKind::AlreadyExists);
            Err(file_fault(rt.alloc(), name.as_str(), error))
        }
    }
}

// Writes what is cut off, in full.
fn put_tail<W: Write>(writer: &mut W, tail: &[u8]) -> io::Result<()>
    ensures { OnOk result (Appends (W.contents writer.old) (W.contents writer.new) tail.now) }
{
    writer.write_all(tail)
}

// Saves what is cut off in a new file of the folder, through a crash, and gives the file's name. A file that can't be written in full
// is taken away again.
fn saved(rt: &HostRuntime, folder: &str, tail: &[u8]) -> Result<String, FileFault> {
    let (name, mut file) = cut_file(rt, folder, day_at(second_of(rt)))?;
    let ended = match put_tail(&mut file, tail) {
        Ok(()) => file.sync_all(),
        Err(error) => Err(error),
    };
    match ended {
        Ok(()) => {
            sync_folder(rt, folder)?;
            Ok(name)
        }
        Err(error) => {
            let _ = fs::remove_file(rt, name.as_str());
            Err(file_fault(rt.alloc(), name.as_str(), error))
        }
    }
}

// Saves what is cut off, if there is something, and says so on standard error.
fn save(rt: &HostRuntime, folder: &str, tail: &[u8]) -> Result<(), FileFault> {
    if tail.is_empty() {
        return Ok(());
    }
    let name = saved(rt, folder, tail)?;
    let line = saved_line(rt.alloc(), tail.len(), name.as_str())?;
    let _ = refused(&mut Watched::new(rt.stderr()), line.as_str());
    Ok(())
}

/// Saves what a crash left after the last entry of a folder's journal, of which this is the name, and says so on standard error.
/// The journal's file has to be open, so that no other program writes to it. Of a journal that is damaged, or has no entries, nothing is
/// saved, since nothing of it is cut off.
pub fn save_tail(rt: &HostRuntime, folder: &str, journal: &str) -> Result<(), FileFault> {
    let bytes = read_file(rt, journal)?;
    match tail_in(&bytes) {
        Ok(tail) => save(rt, folder, tail),
        Err(_) => Ok(()),
    }
}

// The bytes of a file from a place on.
fn bytes_from(rt: &HostRuntime, name: &str, place: usize) -> io::Result<Vec<u8>> {
    let file = File::open(rt, name)?;
    let length = file.metadata()?.len() as usize;
    let mut bytes = vec![in rt.alloc(); 0u8; length.saturating_sub(place)]?;
    file.read_exact_at(bytes.as_mut_slice(), place as u64)?;
    Ok(bytes)
}

/// The same of a journal that was left at this end: only what comes after it is read.
pub fn save_tail_after(
    rt: &HostRuntime,
    folder: &str,
    journal: &str,
    end: &JournalEnd,
) -> Result<(), FileFault> {
    let bytes = match bytes_from(rt, journal, end.place()) {
        Ok(bytes) => bytes,
        Err(error) => return Err(file_fault(rt.alloc(), journal, error)),
    };
    match tail_after(rt.alloc(), &bytes, end) {
        Ok(tail) => save(rt, folder, tail),
        Err(JournalFault::OutOfMemory) => Err(FileFault::OutOfMemory),
        Err(_) => Ok(()),
    }
}
