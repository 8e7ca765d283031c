//! A file that a crash may have left, opened again.
use crate::clerk::stamp;
use crate::crash::{Crashed, FILLS, crash_of};
use crate::session::Device;
use anyhow::Result;
use desk_journal::{Journal, JournalFault, tail_in};
use sqlite_disk::{Disk, Fuse, Memory};
use std::alloc::Global;

/// More calls than the opening of a journal makes.
const CALLS: u64 = 20;

/// A disk whose file has these bytes, all of them durable, and that passes this many calls on.
pub fn disk_with(alloc: Global, file: &[u8], calls: u64) -> Result<Device> {
    let mut memory = Memory::new(alloc);
    memory.write_at(0, file)?;
    memory.sync()?;
    Ok(Fuse::new(memory, calls))
}

// The entries of a disk's journal, and the disk after its opening: none where the journal is damaged. A file without entries isn't
// opened, and is as it was.
fn reopened(alloc: Global, disk: Device) -> Result<Option<(Device, Vec<Vec<u8>>)>> {
    match Journal::open(alloc, disk, stamp(alloc)?) {
        Ok((journal, entries)) => Ok(Some((journal.into_disk(), entries))),
        Err((JournalFault::NoEntries, disk)) => Ok(Some((disk, Vec::new(alloc)))),
        Err((JournalFault::Damaged(_), _)) | Err((JournalFault::Full, _)) => Ok(None),
        Err((fault, _)) => Err(fault.into()),
    }
}

// Whether the opening has cut just what `tail_in` gives off the file.
fn is_cut(file: &[u8], disk: &mut Device) -> Result<bool> {
    if !disk.may_be_used() {
        return Ok(false);
    }
    let tail = tail_in(file)?;
    Ok(file.len().checked_sub(tail.len()) == Some(disk.len()?))
}

/// How many entries the file's journal has, where they are the first of those expected, and no others when it is opened once
/// more: none where it isn't so.
pub fn count_kept(alloc: Global, expected: &[Vec<u8>], file: &[u8]) -> Result<Option<usize>> {
    let disk = disk_with(alloc, file, u64::MAX)?;
    let Some((mut disk, entries)) = reopened(alloc, disk)? else {
        return Ok(None);
    };
    if !is_cut(file, &mut disk)? {
        return Ok(None);
    }
    let Some((_, again)) = reopened(alloc, disk)? else {
        return Ok(None);
    };
    if are_first(expected, &entries)
        && are_first(&entries, &again)
        && entries.len() == again.len()
    {
        Ok(Some(entries.len()))
    } else {
        Ok(None)
    }
}

/// Whether the entries are the first of those expected.
pub fn are_first(expected: &[Vec<u8>], entries: &[Vec<u8>]) -> bool {
    let mut both = expected.iter().zip(entries.iter());
    entries.len() <= expected.len() && both.all(|(one, other)| one == other)
}

// The disk at which the opening of its journal is stopped: none where it isn't stopped.
fn stopped_opening(alloc: Global, disk: Device) -> Result<Option<Device>> {
    match Journal::open(alloc, disk, stamp(alloc)?) {
        Ok(_journal) => Ok(None),
        Err((_fault, disk)) => Ok(Some(disk)),
    }
}

// The same of the beginning of a journal.
fn stopped_beginning(alloc: Global, disk: Device) -> Result<Option<Device>> {
    match Journal::begin(alloc, disk, stamp(alloc)?) {
        Ok(_journal) => Ok(None),
        Err((_fault, disk)) => Ok(Some(disk)),
    }
}

// The disk at which the opening of its journal is stopped, or the beginning of one where it has no entries.
fn stopped(alloc: Global, disk: Device, count: usize) -> Result<Option<Device>> {
    if count == 0 {
        stopped_beginning(alloc, disk)
    } else {
        stopped_opening(alloc, disk)
    }
}

/// Opens the file, or begins a journal in it if it has no entries, on disks that pass no call on, then one, and so on. Whether each file
/// that a crash leaves meanwhile has so many entries too.
pub fn lasts(alloc: Global, expected: &[Vec<u8>], file: &[u8], count: usize) -> Result<bool> {
    for calls in 0..CALLS {
        match stopped(alloc, disk_with(alloc, file, calls)?, count)? {
            None => return Ok(true),
            Some(mut disk) => {
                let crash = crash_of(alloc, &mut disk)?;
                if !keeps(alloc, expected, &crash, count)? {
                    return Ok(false);
                }
            }
        }
    }
    Ok(false)
}

// Whether what this crash may leave has this many entries.
fn keeps(alloc: Global, expected: &[Vec<u8>], crash: &Crashed, count: usize) -> Result<bool> {
    for fill in FILLS {
        let file = crash.left(alloc, crash.certain(), fill)?;
        if count_kept(alloc, expected, &file)? != Some(count) {
            return Ok(false);
        }
    }
    Ok(true)
}
