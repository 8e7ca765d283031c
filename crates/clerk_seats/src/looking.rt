//! How a seat reads what is published.

ghost use Rattle.std.specs.Prelude.{◌≡◌, IfNone, IfOk, IfSome, MatchBool, None, Some};
ghost use mathlib.Core.List.{IsPrefix};
ghost use Rattle.left_right.specs.Sides.{view};
ghost use Rattle.docket_rows.specs.Words.{view_of};
ghost use Rattle.versioned_steps.specs.Words.{copies_of, decided};
ghost use Rattle.shared_docket.specs.Words.{docket_rules, rows_of};
ghost use Rattle.published_docket.specs.Words.{HasRead, IsShown};
ghost use Rattle.clerk_seats.specs.Seen.{HasSeen, Looks};

use crate::names_office::NamesOffice;
use docket_rows::{Command, Query, View};
use published_docket::{Board, DocketReader, Trail, enter, read_all, show};
use shared_docket::DocketParts;
use std::alloc::{AllocError, Global};
use versioned_steps::Draft;

// Notes how far the history has gone, and says whether that goes on from what was seen before. Where it doesn't, nothing is
// noted.
fn is_noted(shown: &Board, trail: &mut Trail) -> bool
    requires { shown.now.trail.book ≡ trail.old.book }
    ensures { MatchBool result (IsPrefix trail.old.log shown.now.trail.log × (trail.new ≡ shown.now.trail)) (trail.new ≡ trail.old) }
{
    if !trail.begins(shown.trail()) {
        return false;
    }
    *trail = shown.trail().again();
    true
}

// Notes how far the history has gone, and makes a draft of the command at this moment. None where what is seen is older than
// what was seen before.
fn read_at(
    alloc: Global,
    shown: &Board,
    trail: &mut Trail,
    clerk: u32,
    command: &Command,
) -> Option<Result<Draft<DocketParts>, AllocError>>
    requires shown { IsShown shown.now }
    requires book { shown.now.trail.book ≡ trail.old.book }
    ensures older { IfNone result (trail.new ≡ trail.old) }
    ensures later { IfSome result (λ _. IsPrefix trail.old.log shown.now.trail.log) }
    ensures trail { IfSome result (λ _. trail.new ≡ shown.now.trail) }
    ensures clerk { IfSome result (λ r. IfOk r (λ d. d.clerk ≡ clerk)) }
    ensures command { IfSome result (λ r. IfOk r (λ d. d.command ≡ command.now)) }
    ensures read { IfSome result (λ r. IfOk r (HasRead shown.now.parts shown.now.trail.log)) }
{
    if !is_noted(shown, trail) {
        return None;
    }
    Some(read_all(alloc, shown, clerk, command))
}

/// Decides a draft that has read all. `Err` says that memory ran out.
pub(crate) fn decide(
    alloc: Global,
    parts: &DocketParts,
    draft: Draft<DocketParts>,
) -> Result<Draft<DocketParts>, AllocError>
    requires { (docket_rules parts.now).next_part draft.command (copies_of draft.reads) ≡ None }
    ensures { IfOk result (λ d. d ≡ record draft { decision = Some (decided (docket_rules parts.now) draft.command draft.reads) }) }
{
    let mut draft = draft;
    draft.settle(alloc, parts)?;
    Ok(draft)
}

/// A draft of the clerk's command, all of it read at one moment, up to which the seat has then seen the history. It isn't
/// decided yet. None where readers aren't shown yet what the seat has seen.
pub(crate) fn looked<L: NamesOffice>(
    alloc: Global,
    reader: DocketReader,
    trail: &mut Trail,
    clerk: u32,
    command: &Command,
) -> (DocketReader, Option<Result<Draft<DocketParts>, AllocError>>)
    requires { HasSeen L.setup trail.old (view reader.place) }
    ensures looks { Looks L.setup trail.old trail.new (view result.0.place) }
    ensures clerk { IfSome result.1 (λ r. IfOk r (λ d. d.clerk ≡ clerk)) }
    ensures command { IfSome result.1 (λ r. IfOk r (λ d. d.command ≡ command.now)) }
    ensures read { IfSome result.1 (λ r. IfOk r (HasRead L.setup trail.new.log)) }
{
    match enter(reader) {
        Ok(reading) => {
            let draft = read_at(alloc, reading.get(), trail, clerk, command);
            (reading.leave(), draft)
        }
        Err(reader) => (reader, None),
    }
}

// Notes how far the history has gone, and what the query shows at this moment. None where what is seen is older than what
// was seen before.
fn show_at(
    alloc: Global,
    shown: &Board,
    trail: &mut Trail,
    query: &Query,
) -> Option<Result<View, AllocError>>
    requires shown { IsShown shown.now }
    requires book { shown.now.trail.book ≡ trail.old.book }
    ensures older { IfNone result (trail.new ≡ trail.old) }
    ensures later { IfSome result (λ _. IsPrefix trail.old.log shown.now.trail.log) }
    ensures trail { IfSome result (λ _. trail.new ≡ shown.now.trail) }
    ensures view { IfSome result (λ r. IfOk r (λ view. view ≡ view_of shown.now.parts (rows_of shown.now.parts shown.now.trail.log) query.now)) }
{
    if !is_noted(shown, trail) {
        return None;
    }
    Some(show(alloc, shown, query))
}

/// What the query shows at one moment, up to which the seat has then seen the history. None where readers aren't shown yet
/// what the seat has seen.
pub(crate) fn showed<L: NamesOffice>(
    alloc: Global,
    reader: DocketReader,
    trail: &mut Trail,
    query: &Query,
) -> (DocketReader, Option<Result<View, AllocError>>)
    requires { HasSeen L.setup trail.old (view reader.place) }
    ensures looks { Looks L.setup trail.old trail.new (view result.0.place) }
    ensures view { IfSome result.1 (λ r. IfOk r (λ view. view ≡ view_of L.setup (rows_of L.setup trail.new.log) query.now)) }
{
    match enter(reader) {
        Ok(reading) => {
            let view = show_at(alloc, reading.get(), trail, query);
            (reading.leave(), view)
        }
        Err(reader) => (reader, None),
    }
}
