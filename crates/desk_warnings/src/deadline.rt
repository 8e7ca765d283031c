//! What a clerk is warned of an act, and of an extension, before it is recorded.

ghost use Rattle.std.specs.Prelude.{◌≡◌, ◌++◌, None, OnOk, string_bytes, true};
ghost use Rattle.rule_periods.specs.Words.{is_grant_length, shown_of, with_grant};
ghost use Rattle.docket_rows.specs.Words.{deadline_in, extend_refusal, setup_of};
ghost use Rattle.reason_notes.specs.Warnings.Words.{extension_notes};
ghost use Rattle.docket_core.specs.Words.{parts_held};
ghost use Rattle.desk_warnings.specs.Sheet.{sheet_deadlines};
ghost use Rattle.desk_warnings.specs.Warnings.{on_act, on_request};

use crate::appeal::push_moves;
use court_clock::Clock;
use court_days::{Court, Days};
use desk_numbers::MovedNumbers;
use docket_core::Docket;
use reason_notes::{push_extension_notes, push_notes_of_act};
use rule_periods::{DeadlineRow, Request, may_extend, runs_from, shown_with};
use rule6::Filing;
use std::alloc::{AllocError, Global};

/// Adds what a clerk is warned of an act of a deadline that the docket has.
pub(crate) fn push_act(
    alloc: Global,
    text: &mut String,
    moved: &MovedNumbers,
    docket: &Docket,
    case: u32,
    deadline: u32,
    filing: &Filing,
) -> Result<(), AllocError>
    ensures { OnOk result (string_bytes text.new ≡ string_bytes text.old ++ on_act moved.now case (sheet_deadlines docket.now.setup (parts_held docket.now) case) (deadline_in (parts_held docket.now) case deadline) filing.now) }
{
    let Some(row) = docket.deadline(case, deadline) else {
        return Ok(());
    };
    let row = row.row();
    push_notes_of_act(text, row.period(), runs_from(row), Some(*filing))?;
    push_moves(alloc, text, moved, docket, case, row, filing)
}

/// Adds what a clerk is warned of an extension that isn't refused.
#[tactic(auto, unfolding(docket_rows::specs::Words::extend_refusal))]
pub(crate) fn push_request(
    text: &mut String,
    court: &Court,
    docket: &Docket,
    case: u32,
    deadline: u32,
    request: &Request,
) -> Result<(), AllocError>
    ensures { docket.now.setup ≡ setup_of court.now → extend_refusal (setup_of court.now) (parts_held docket.now) case deadline request.now ≡ None → OnOk result (string_bytes text.new ≡ string_bytes text.old ++ on_request court.now (parts_held docket.now) (deadline_in (parts_held docket.now) case deadline) request.now) }
{
    let Some(row) = docket.deadline(case, deadline) else {
        return Ok(());
    };
    let row = row.row();
    if may_extend(docket.days(), court.clock(), row, request).is_err() {
        return Ok(());
    }
    push_granted(text, docket.days(), court.clock(), row, request)
}

/// Adds the notes on an extension of a deadline that is granted.
fn push_granted(
    text: &mut String,
    days: &Days,
    clock: &Clock,
    row: &DeadlineRow,
    request: &Request,
) -> Result<(), AllocError>
    requires length { is_grant_length request.now.grant ≡ true }
    ensures { OnOk result (string_bytes text.new ≡ string_bytes text.old ++ extension_notes clock.now row.now (shown_of days.now clock.now (with_grant row.now request.now.grant)) request.now) }
{
    let shown = shown_with(days, clock, row, request.grant);
    push_extension_notes(text, clock, row, &shown, request)
}
