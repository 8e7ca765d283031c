//! The motions whose hearings some changes set or took off.

ghost use Rattle.std.specs.Prelude.{◌≡◌, ℕ, IfOk, OnOk};
ghost use Rattle.docket_selection.specs.Changes.Named.{NotesMotions, and_motion_of, motions_noted, with_named};

use crate::changes::change::{Change, RowChange};
use std::alloc::{AllocError, Global};
use std::collections::HashMap;

/// The motions of each case, by the case's number, each once.
pub(crate) type CaseMotions = HashMap<u32, Vec<u32>>;

/// The motions of each case that the changes name, in the order in which they name them first.
pub(crate) fn motions_by(alloc: Global, changes: &[RowChange]) -> Result<CaseMotions, AllocError>
    ensures { IfOk result (NotesMotions changes.now) }
{
    let mut motions = HashMap::new(alloc);
    for change in changes {
        note_motion(alloc, &mut motions, &change.change)?;
    }
    Ok(motions)
}

/// Notes the motion of one change more.
fn note_motion(alloc: Global, motions: &mut CaseMotions, change: &Change) -> Result<(), AllocError>
    ensures { OnOk result ((case : ℕ) → motions_noted case motions.new ≡ with_named case (motions_noted case motions.old) change.now) }
{
    match change {
        Change::Hearing(hearing) => note_named(alloc, motions, hearing.case, hearing.motion),
        _ => Ok(()),
    }
}

/// Notes a motion of a case, unless it is noted already.
fn note_named(
    alloc: Global,
    motions: &mut CaseMotions,
    case: u32,
    motion: u32,
) -> Result<(), AllocError>
    ensures { OnOk result ((other : ℕ) → motions_noted other motions.new ≡ and_motion_of other case motion (motions_noted other motions.old)) }
{
    let before = motions_of(motions, case);
    if before.contains(&motion) {
        return Ok(());
    }
    let mut after = Vec::from_slice(alloc, before)?;
    after.push(motion)?;
    motions.insert(case, after)?;
    Ok(())
}

/// The motions that are noted for a case.
pub(crate) fn motions_of(motions: &CaseMotions, case: u32) -> &[u32]
    ensures { result.now ≡ motions_noted case motions.now }
{
    match motions.get(&case) {
        Some(list) => list.as_slice(),
        None => &[],
    }
}
