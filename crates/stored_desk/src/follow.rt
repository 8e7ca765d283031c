//! A file that a crash may have left, with which a session goes on that knows its first entry alone.
use crate::clerk::stamp;
use crate::files::{are_first, disk_with};
use anyhow::Result;
use desk_journal::{Journal, JournalEnd};
use sqlite_disk::Memory;
use std::alloc::Global;

// Where a journal ends that has this entry alone.
fn end_of_first(alloc: Global, first: &[u8]) -> Result<JournalEnd> {
    match Journal::begin(alloc, Memory::new(alloc), stamp(alloc)?) {
        Ok(mut journal) => {
            let mut batch = Vec::new(alloc);
            batch.push(Vec::from_slice(alloc, first)?)?;
            journal.append(&batch)?;
            let (end, _disk) = journal.leave();
            Ok(end)
        }
        Err((fault, _disk)) => Err(fault.into()),
    }
}

/// Whether a session that left the journal after the first of these entries finds just the others in the file.
pub fn finds_others(alloc: Global, entries: &[Vec<u8>], file: &[u8]) -> Result<bool> {
    let Some((first, others)) = entries.split_first() else {
        return Ok(true);
    };
    let end = end_of_first(alloc, first)?;
    let disk = disk_with(alloc, file, u64::MAX)?;
    match Journal::resume(alloc, disk, &end, stamp(alloc)?) {
        Ok((_journal, more)) => Ok(more.len() == others.len() && are_first(others, &more)),
        Err(_) => Ok(false),
    }
}
