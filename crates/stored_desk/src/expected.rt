//! What a journal must hold, from its rows alone: they are taken one after another, with no journal and no disk.
use anyhow::{Result, bail};
use desk_entries::{Docketed, HistoryFault};
use desk_session::Register;
use std::alloc::Global;

/// How many entries there are, and how many bytes of answers, once some batches are kept and answered.
#[derive(Clone, Copy)]
pub struct State {
    pub entries: usize,
    pub answered: usize,
}

/// All entries and answers of a journal, and its states: before the court's file, after it, and after each batch of rows.
#[derive(Drop)]
pub struct Expected {
    pub entries: Vec<Vec<u8>>,
    pub answers: Vec<u8>,
    pub states: Vec<State>,
}

/// What these rows leave and are answered after a court's file, batch by batch.
pub fn expected_of(alloc: Global, file: &[u8], rows: &str) -> Result<Expected> {
    let mut expected = Expected {
        entries: Vec::new(alloc),
        answers: Vec::new(alloc),
        states: first_states(alloc)?,
    };
    expected.entries.push(Vec::from_slice(alloc, file)?)?;
    fill(alloc, &mut expected, rows)?;
    Ok(expected)
}

// Adds what the rows of all batches leave and are answered.
fn fill(alloc: Global, expected: &mut Expected, rows: &str) -> Result<()> {
    let mut docketed = docket_of(alloc, &expected.entries)?;
    take_batches(alloc, &mut docketed, rows, expected)
}

// The states before the court's file and after it.
fn first_states(alloc: Global) -> Result<Vec<State>> {
    let mut states = Vec::new(alloc);
    states.push(State {
        entries: 0,
        answered: 0,
    })?;
    states.push(State {
        entries: 1,
        answered: 0,
    })?;
    Ok(states)
}

// Takes the rows of all batches.
fn take_batches(
    alloc: Global,
    docketed: &mut Docketed,
    rows: &str,
    expected: &mut Expected,
) -> Result<()> {
    for batch in rows.split("--\n") {
        take_lines(alloc, docketed, batch, expected)?;
        expected.states.push(State {
            entries: expected.entries.len(),
            answered: expected.answers.len(),
        })?;
    }
    Ok(())
}

// Takes the rows of a batch.
fn take_lines(
    alloc: Global,
    docketed: &mut Docketed,
    batch: &str,
    expected: &mut Expected,
) -> Result<()> {
    for line in batch.lines() {
        docketed.register.take(
            &docketed.standing,
            alloc,
            line.as_bytes(),
            &mut expected.entries,
            &mut expected.answers,
        )?;
    }
    Ok(())
}

/// What stands, and the docket of entries. An error says that they make none, or that memory ran out.
pub fn docket_of(alloc: Global, entries: &[Vec<u8>]) -> Result<Docketed> {
    if entries.len() > 1000 {
        bail!("more than 1000 entries");
    }
    match Docketed::of(alloc, entries) {
        Ok(docketed) => Ok(docketed),
        Err(HistoryFault::OutOfMemory) => bail!("out of memory"),
        Err(_) => bail!("the entries make no docket"),
    }
}
