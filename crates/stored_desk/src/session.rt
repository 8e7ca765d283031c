//! A session of the desk on a disk that fails.
use crate::clerk::{OneSecond, stamp};
use crate::expected::docket_of;
use anyhow::Result;
use desk_entries::Docketed;
use desk_journal::Journal;
use desk_session::serve;
use program_streams::Watched;
use sqlite_disk::{Fuse, Memory};
use std::alloc::Global;

/// A file in memory that passes this many calls on, and fails each one after.
pub type Device = Fuse<Memory>;

/// A session that has ended, or was stopped by its disk.
#[derive(Drop)]
pub struct Stopped {
    pub disk: Device,
    pub answers: Vec<u8>,
    /// How many of its steps were done: the court's file is kept, and then each batch is kept and answered.
    pub done: usize,
}

/// Begins a journal on an empty disk, and then keeps a court's file and rows, batch by batch.
pub fn session(alloc: Global, file: &[u8], rows: &str, calls: u64) -> Result<Stopped> {
    let mut answers = Vec::new(alloc);
    let disk = Fuse::new(Memory::new(alloc), calls);
    match Journal::begin(alloc, disk, stamp(alloc)?) {
        Err((_, disk)) => Ok(Stopped {
            disk,
            answers,
            done: 0,
        }),
        Ok(mut journal) => {
            let done = keep_all(alloc, &mut journal, file, rows, &mut answers)?;
            Ok(Stopped {
                disk: journal.into_disk(),
                answers,
                done,
            })
        }
    }
}

// Keeps a court's file and rows as far as the disk lets it, and says how many steps were done.
fn keep_all(
    alloc: Global,
    journal: &mut Journal<Device>,
    file: &[u8],
    rows: &str,
    answers: &mut Vec<u8>,
) -> Result<usize> {
    let mut first = Vec::new(alloc);
    first.push(Vec::from_slice(alloc, file)?)?;
    if journal.append(&first).is_err() {
        return Ok(0);
    }
    keep_rows(alloc, journal, &first, rows, answers)
}

// Keeps rows after the first entry.
fn keep_rows(
    alloc: Global,
    journal: &mut Journal<Device>,
    first: &[Vec<u8>],
    rows: &str,
    answers: &mut Vec<u8>,
) -> Result<usize> {
    let mut docketed = docket_of(alloc, first)?;
    keep_batches(alloc, journal, &mut docketed, rows, answers)
}

// Keeps rows batch by batch, after the court's file.
fn keep_batches(
    alloc: Global,
    journal: &mut Journal<Device>,
    docketed: &mut Docketed,
    rows: &str,
    answers: &mut Vec<u8>,
) -> Result<usize> {
    let mut done = 1usize;
    for batch in rows.split("--\n") {
        if !keep_batch(alloc, journal, docketed, batch, answers)? {
            return Ok(done);
        }
        done = done.saturating_add(1);
    }
    Ok(done)
}

// Keeps the rows of a batch, and says whether the disk let it.
fn keep_batch(
    alloc: Global,
    journal: &mut Journal<Device>,
    docketed: &mut Docketed,
    batch: &str,
    answers: &mut Vec<u8>,
) -> Result<bool> {
    let mut reader = Watched::new(batch.as_bytes());
    let mut writer = Watched::new(Vec::new(alloc));
    let ended = serve(
        &docketed.standing,
        alloc,
        &OneSecond,
        journal,
        &mut docketed.register,
        &mut reader,
        &mut writer,
    );
    answers.extend_from_slice(writer.inner())?;
    Ok(ended.is_ok())
}
