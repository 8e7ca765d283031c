//! All journals of an input.
use crate::damage::check_damage;
use crate::expected::{Expected, expected_of};
use crate::moments::check_stopped;
use crate::session::session;
use crate::tally::Tally;
use anyhow::{Context, Result, bail};
use std::alloc::Global;

/// More calls than a session of these journals makes of its disk.
const CALLS: u64 = 1000;

/// For each journal of the input what was counted. An error says what is wrong with the input, or that memory ran out.
pub fn run_all(alloc: Global, input: &str) -> Result<String> {
    let (file, journals) = input
        .split_once("\n%%\n")
        .context("no line %% after the court's file")?;
    let mut text = String::new(alloc);
    for rows in journals.split("%%\n") {
        let expected = expected_of(alloc, file.as_bytes(), rows)?;
        let mut tally = Tally::new();
        fill_again(alloc, file.as_bytes(), rows, &expected, &mut tally)?;
        push_tally(alloc, &mut text, &expected, &tally)?;
    }
    Ok(text)
}

// Fills a journal on disks that pass no call on, then one, and so on, until one isn't stopped.
fn fill_again(
    alloc: Global,
    file: &[u8],
    rows: &str,
    expected: &Expected,
    tally: &mut Tally,
) -> Result<()> {
    for calls in 0..CALLS {
        let mut stopped = session(alloc, file, rows, calls)?;
        check_stopped(alloc, expected, &mut stopped, tally)?;
        tally.count_session();
        if stopped.done.saturating_add(1) == expected.states.len() {
            return check_damage(alloc, expected, stopped.disk.inner().bytes(), tally);
        }
    }
    bail!("a session makes more than {CALLS} calls")
}

// Adds what was counted.
fn push_tally(alloc: Global, text: &mut String, expected: &Expected, tally: &Tally) -> Result<()> {
    let Tally {
        sessions,
        files,
        newer,
        openings,
        found,
        harmless,
        wrong,
    } = tally;
    let entries = expected.entries.len();
    let steps = expected.states.len().saturating_sub(1);
    let lines = format!(in alloc;
        "entries {entries}, kept in {steps} steps\nsessions {sessions}, the last of them whole\nfiles {files}, of which {newer} have the batch that was being kept\nopened on disks that fail: {openings}\nbytes changed: {found} found, {harmless} change nothing\n"
    )?;
    text.push_str(&lines)?;
    match wrong {
        None => text.push_str("all as it must be\n\n")?,
        Some(what) => {
            text.push_str(what)?;
            text.push_str("\n\n")?;
        }
    }
    Ok(())
}
