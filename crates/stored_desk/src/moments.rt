//! What a session left that its disk has stopped.
use crate::crash::{Crashed, FILLS, Fill, crash_of};
use crate::expected::{Expected, State};
use crate::files::{count_kept, lasts};
use crate::follow::finds_others;
use crate::session::Stopped;
use crate::tally::Tally;
use anyhow::{Context, Result};
use std::alloc::Global;

/// Of how many files one is also opened on disks that fail, and gone on with by a session that left its journal before.
const EACH: u64 = 4;

// The states between which a session was stopped after this many steps.
#[derive(Clone, Copy)]
struct Bounds {
    before: State,
    after: State,
}

fn bounds_of(expected: &Expected, done: usize) -> Result<Bounds> {
    let before = *expected.states.get(done).context("too many steps")?;
    let after = match expected.states.get(done.saturating_add(1)) {
        Some(state) => *state,
        None => before,
    };
    Ok(Bounds { before, after })
}

/// Checks a session that was stopped: it has answered the batches that it kept, and each file that a crash leaves has their
/// entries, and all of the next batch or none of it.
pub fn check_stopped(
    alloc: Global,
    expected: &Expected,
    stopped: &mut Stopped,
    tally: &mut Tally,
) -> Result<()> {
    let states = bounds_of(expected, stopped.done)?;
    if expected.answers.get(..states.before.answered) != Some(stopped.answers.as_slice()) {
        tally.note(alloc, "it has answered otherwise")?;
    }
    let crash = crash_of(alloc, &mut stopped.disk)?;
    for written in crash.certain()..=crash.longest() {
        check_torn(alloc, expected, states, &crash, written, tally)?;
    }
    Ok(())
}

// Checks the files with this number of bytes as they were written.
fn check_torn(
    alloc: Global,
    expected: &Expected,
    states: Bounds,
    crash: &Crashed,
    written: usize,
    tally: &mut Tally,
) -> Result<()> {
    for fill in FILLS {
        let file = crash.left(alloc, written, fill)?;
        if !is_good(alloc, expected, states, &file, tally)? {
            let text = format!(in alloc; "{written} bytes as written, and then {fill:?}")?;
            tally.note(alloc, &text)?;
        }
    }
    Ok(())
}

// Whether the file has the entries of one of the two states, also through crashes while it is opened.
fn is_good(
    alloc: Global,
    expected: &Expected,
    states: Bounds,
    file: &[u8],
    tally: &mut Tally,
) -> Result<bool> {
    let Some(count) = count_kept(alloc, &expected.entries, file)? else {
        return Ok(false);
    };
    if count != states.before.entries && count != states.after.entries {
        return Ok(false);
    }
    tally.count_file(count != states.before.entries);
    if tally.files % EACH != 0 {
        return Ok(true);
    }
    tally.count_opening();
    let entries = expected.entries.get(..count).context("too many entries")?;
    if !finds_others(alloc, entries, file)? {
        return Ok(false);
    }
    lasts(alloc, &expected.entries, file, count)
}
