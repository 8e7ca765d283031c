//! What a folder says of its docket beside what it has now.

ghost use Rattle.std.specs.Prelude.{◌≡◌, ◌++◌, option_to_list, OnOk};
ghost use Rattle.std.specs.List.{filter_map, flat_map};
ghost use Rattle.report_program.specs.Lost.{lost_by};
ghost use Rattle.report_program.specs.Past.{PastView, change_asked, changes_since, later_by, lost_since, no_past, undone, undone_change};

use crate::docket::{Came, ChangeTypes};
use crate::lost::lost_by;
use desk_numbers::Given;
use docket_rows::Answer;
use docket_selection::{Change, DueItem, DueTypes, HearingChange, RowChange, change_made};
use report_ics::push_if;
use row_forms::{NumberedRow, Work};
use std::alloc::{AllocError, Global};
use std::marker::Model;

/// What a folder says of its docket beside what it has now. A calendar program goes by it, so that what it shows never goes back: an
/// event's revision never falls, and a hearing or a deadline whose row is struck, or refused now, is cancelled.
#[derive(Debug, Drop)]
pub struct Past<'a> {
    struck: Vec<NumberedRow>,
    refused: Vec<NumberedRow>,
    given: &'a [Option<Given>],
    rows_before: u64,
    corrections: u64,
}

impl<'a> Model for Past<'a> {
    ghost Value = { PastView };

    ghost view = { λ p. record { struck = p.struck.items; refused = p.refused.items; given = p.given.now; rows_before = p.rows_before; corrections = p.corrections } };
}

impl<'a> Past<'a> {
    /// Of these rows that are struck, and of those that were done once and are refused now, each with its number; by row of what it
    /// gave to a deadline or a motion, which it keeps; of how many rows there were when a row was struck, or another court's file was
    /// taken, last, which is 0 where neither was done; and of how often that was done.
    pub fn of(
        struck: Vec<NumberedRow>,
        refused: Vec<NumberedRow>,
        given: &'a [Option<Given>],
        rows_before: u64,
        corrections: u64,
    ) -> Past<'a>
        ensures { result ≡ record { struck = struck.items; refused = refused.items; given = given.now; rows_before = rows_before; corrections = corrections } }
    {
        Past {
            struck,
            refused,
            given,
            rows_before,
            corrections,
        }
    }

    /// Of an input, in which nothing is struck.
    pub(crate) fn none(alloc: Global) -> Past<'a>
        ensures { result ≡ no_past }
    {
        Past {
            struck: Vec::new(alloc),
            refused: Vec::new(alloc),
            given: &[],
            rows_before: 0,
            corrections: 0,
        }
    }

    /// By row, what it gave.
    pub(crate) fn given(&self) -> &[Option<Given>]
        ensures { result.now ≡ self.now.given }
    {
        self.given
    }

    /// How many corrections there were.
    pub(crate) fn corrections(&self) -> u64
        ensures { result ≡ self.now.corrections }
    {
        self.corrections
    }
}

/// What a row asked for, as if it had been done.
fn change_asked(row: &NumberedRow) -> Option<RowChange>
    ensures { result ≡ change_asked row.now.number row.now.row.work }
{
    match &row.row.work {
        Work::Command(command) => change_made(row.number, command, &Answer::Booked),
        Work::Query(_) => None,
    }
}

/// What undoes a change of a hearing: that it is off. Nothing else that a row changed is undone here.
fn undone(change: &RowChange) -> Option<RowChange>
    ensures { option_to_list result ≡ undone change.now.row change.now.change }
{
    match &change.change {
        Change::Days | Change::Deadline(_) | Change::Judges(_, _, _) => None,
        Change::Hearing(hearing) => Some(RowChange {
            row: change.row,
            change: Change::Hearing(HearingChange {
                case: hearing.case,
                motion: hearing.motion,
                hearing: None,
            }),
        }),
    }
}

/// Adds what a row did that is undone by now.
fn push_undone(changes: &mut Vec<RowChange>, row: &NumberedRow) -> Result<(), AllocError>
    ensures { OnOk result (changes.new.items ≡ changes.old.items ++ undone_change row.now) }
{
    let _types: ChangeTypes = None;
    let Some(asked) = change_asked(row) else {
        return Ok(());
    };
    changes.push(asked)?;
    if let Some(off) = undone(&asked) {
        changes.push(off)?;
    }
    Ok(())
}

/// Adds what rows did that are undone by now.
fn push_all_undone(changes: &mut Vec<RowChange>, rows: &[NumberedRow]) -> Result<(), AllocError>
    ensures { OnOk result (changes.new.items ≡ changes.old.items ++ flat_map undone_change rows.now) }
{
    for row in rows {
        push_undone(changes, row)?;
    }
    Ok(())
}

/// Adds the deadlines that rows started which are struck now.
fn push_lost(
    lost: &mut Vec<DueItem>,
    given: &[Option<Given>],
    struck: &[NumberedRow],
) -> Result<(), AllocError>
    ensures { OnOk result (lost.new.items ≡ lost.old.items ++ filter_map (lost_by given.now) struck.now) }
{
    let _types: DueTypes = None;
    for row in struck {
        push_if(lost, lost_by(given, row))?;
    }
    Ok(())
}

/// Adds what came of corrections. `Err` says that memory ran out.
pub(crate) fn push_since(came: &mut Came, past: &Past<'_>) -> Result<(), AllocError>
    ensures changes { OnOk result (came.new.changes.items ≡ came.old.changes.items ++ changes_since past.now) }
    ensures lost { OnOk result (came.new.lost.items ≡ came.old.lost.items ++ lost_since past.now) }
{
    let _types: ChangeTypes = None;
    push_all_undone(&mut came.changes, &past.struck)?;
    push_all_undone(&mut came.changes, &past.refused)?;
    came.changes.push(RowChange {
        row: past.rows_before,
        change: Change::Days,
    })?;
    push_lost(&mut came.lost, past.given, &past.struck)
}

/// A revision plus the number of corrections.
pub(crate) fn later_by(corrections: u64, revision: u64) -> u64
    ensures { result ≡ later_by corrections revision }
{
    match revision.checked_add(corrections) {
        Some(later) => later,
        None => revision,
    }
}
