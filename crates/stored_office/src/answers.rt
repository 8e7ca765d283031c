//! The text of what the calls of a seat are answered. A call that finds no memory is made once more.
use anyhow::Result;
use clerk_seats::{CommitError, Done, NamesOffice, PerformError, Seat};
use court_clock::Clock;
use court_days::Court;
use docket_rows::{Command, PartId, Query};
use office_texts::{push_answer, push_number, push_view};
use std::alloc::{AllocError, Global};
use std::sync::Wait;

/// Prepares the command, and adds that.
pub fn push_prepared<L: NamesOffice>(
    alloc: Global,
    text: &mut String,
    seat: &mut Seat<L>,
    command: &Command,
) -> Result<()> {
    if seat.prepare(alloc, *command).is_err() {
        text.push_str("out of memory\n")?;
        seat.prepare(alloc, *command)?;
    }
    text.push_str("prepared\n")?;
    Ok(())
}

/// Commits the seat's draft, and adds what that was answered.
pub fn push_committed<L: NamesOffice, R: Wait>(
    rt: &R,
    alloc: Global,
    text: &mut String,
    court: &Court,
    seat: &mut Seat<L>,
) -> Result<()> {
    let mut result = seat.commit(rt, alloc);
    if let Err(CommitError::OutOfMemory) = result {
        text.push_str("out of memory\n")?;
        result = seat.commit(rt, alloc);
    }
    match result {
        Ok(done) => push_done(text, court.clock(), &done)?,
        Err(CommitError::NothingPrepared) => text.push_str("nothing prepared")?,
        Err(CommitError::JournalFull) => text.push_str("journal full")?,
        Err(CommitError::Stale(part, version)) => push_stale(text, part, version)?,
        Err(CommitError::OutOfMemory) => text.push_str("out of memory")?,
    }
    text.push_str("\n")?;
    Ok(())
}

/// Performs the command, and adds what that was answered.
pub fn push_performed<L: NamesOffice, R: Wait>(
    rt: &R,
    alloc: Global,
    text: &mut String,
    court: &Court,
    seat: &mut Seat<L>,
    command: &Command,
    tries: u32,
) -> Result<()> {
    let mut result = seat.perform(rt, alloc, *command, tries);
    if let Err(PerformError::OutOfMemory) = result {
        text.push_str("out of memory\n")?;
        result = seat.perform(rt, alloc, *command, tries);
    }
    match result {
        Ok(done) => push_done(text, court.clock(), &done)?,
        Err(PerformError::JournalFull) => text.push_str("journal full")?,
        Err(PerformError::OutOfMemory) => text.push_str("out of memory")?,
    }
    text.push_str("\n")?;
    Ok(())
}

/// Adds what the query shows.
pub fn push_shown<L: NamesOffice>(
    alloc: Global,
    text: &mut String,
    court: &Court,
    seat: &mut Seat<L>,
    query: &Query,
) -> Result<()> {
    let view = match seat.show(alloc, query) {
        Ok(view) => view,
        Err(_) => {
            text.push_str("out of memory\n")?;
            seat.show(alloc, query)?
        }
    };
    push_view(text, court, &view)?;
    Ok(())
}

/// Adds the place of a finished command, and its answer.
pub fn push_done(text: &mut String, clock: &Clock, done: &Done) -> Result<(), AllocError> {
    text.push_str("finished ")?;
    push_number(text, done.place)?;
    text.push_str(" ")?;
    push_answer(text, clock, &done.answer)
}

/// Adds which part was touched, and its version.
fn push_stale(text: &mut String, part: PartId, version: u64) -> Result<(), AllocError> {
    text.push_str("stale ")?;
    push_part(text, part)?;
    text.push_str(" at ")?;
    push_number(text, version)
}

/// Adds the name of a part.
fn push_part(text: &mut String, part: PartId) -> Result<(), AllocError> {
    let (kind, number) = match part {
        PartId::Court => return text.push_str("court"),
        PartId::Judge(judge) => ("judge ", u32::from(judge)),
        PartId::Room(room) => ("room ", u32::from(room)),
        PartId::Case(case) => ("case ", case),
    };
    text.push_str(kind)?;
    push_number(text, u64::from(number))
}
