//! The deadlines that would be due on the chosen days, by the ends that are shown, if they weren't ended and their cases weren't closed.

ghost use Rattle.std.specs.Prelude.{◌≡◌, ◌++◌, IfOk, OnOk};
ghost use Rattle.std.specs.List.{filter_map, flat_map};
ghost use Rattle.docket_rows.specs.Words.{Rows, setup_of};
ghost use Rattle.docket_core.specs.Words.{StandsFor};
ghost use Rattle.docket_selection.specs.LeftOut.{all_left_out, is_left_out, left_out_deadline, left_out_in, left_out_only};

use crate::choice::{Choice, is_before, is_case_chosen, is_day_chosen};
use crate::due::is_matter_chosen;
use crate::item::{DueItem, DueTypes, deadline_item, is_ended, is_met};
use crate::lists::push_if;
use crate::sheets::sheets_of;
use court_clock::Clock;
use court_days::Court;
use docket_core::Docket;
use docket_rows::{Sheet, SheetDeadline};
use std::alloc::{AllocError, Global};

/// The deadlines that would be due on the chosen days, by the ends that are shown, if they weren't ended and their cases weren't closed: by
/// case and number. `Err` says that memory ran out.
pub fn deadlines_left_out(
    alloc: Global,
    court: &Court,
    docket: &Docket,
    choice: &Choice,
) -> Result<Vec<DueItem>, AllocError>
    requires court { docket.now.setup ≡ setup_of court.now }
    ensures { (docketed : Rows) → StandsFor docket.now docketed → IfOk result (λ list. list.items ≡ all_left_out (setup_of court.now) docketed choice.now) }
{
    let _types: DueTypes = None;
    let sheets = sheets_of(alloc, docket)?;
    left_out_among(alloc, court.clock(), &sheets, choice)
}

/// Those of the cases of these sheets.
fn left_out_among(
    alloc: Global,
    clock: &Clock,
    sheets: &[Sheet],
    choice: &Choice,
) -> Result<Vec<DueItem>, AllocError>
    ensures { IfOk result (λ list. list.items ≡ flat_map (left_out_in clock.now choice.now) sheets.now) }
{
    let _types: DueTypes = None;
    let mut list = Vec::new(alloc);
    for sheet in sheets {
        push_left_out_in(&mut list, clock, sheet, choice)?;
    }
    Ok(list)
}

/// Adds those of the case of a sheet.
#[tactic(auto, unfolding(crate::specs::LeftOut::left_out_in))]
fn push_left_out_in(
    list: &mut Vec<DueItem>,
    clock: &Clock,
    sheet: &Sheet,
    choice: &Choice,
) -> Result<(), AllocError>
    ensures { OnOk result (list.new.items ≡ list.old.items ++ left_out_in clock.now choice.now sheet.now) }
{
    let _types: DueTypes = None;
    let before = is_before(choice, &sheet.assigned, sheet.motions.as_slice());
    push_deadlines(
        list,
        clock,
        sheet.case,
        sheet.deadlines.as_slice(),
        choice,
        before,
        sheet.closed.is_some(),
    )
}

/// Adds the deadlines that are left out.
fn push_deadlines(
    list: &mut Vec<DueItem>,
    clock: &Clock,
    case: u32,
    deadlines: &[SheetDeadline],
    choice: &Choice,
    before: bool,
    closed: bool,
) -> Result<(), AllocError>
    ensures { OnOk result (list.new.items ≡ list.old.items ++ filter_map (left_out_deadline clock.now case choice.now before closed) deadlines.now) }
{
    let _types: DueTypes = None;
    for deadline in deadlines {
        let left = left_out_only(choice, before, closed, deadline_item(clock, case, deadline));
        push_if(list, left)?;
    }
    Ok(())
}

/// The item, if there is one and it is left out.
fn left_out_only(
    choice: &Choice,
    before: bool,
    closed: bool,
    item: Option<DueItem>,
) -> Option<DueItem>
    ensures { result ≡ left_out_only choice.now before closed item }
{
    let item = item?;
    if is_left_out(choice, before, closed, &item) {
        Some(item)
    } else {
        None
    }
}

/// Whether an item is chosen, and isn't due since it was ended or its case is closed.
fn is_left_out(choice: &Choice, before: bool, closed: bool, item: &DueItem) -> bool
    ensures { result ≡ is_left_out choice.now before closed item.now }
{
    is_day_chosen(choice, item.day)
        && is_case_chosen(choice, item.case)
        && is_matter_chosen(choice, before, &item.matter)
        && !is_met(&item.matter)
        && (is_ended(&item.matter) || closed)
}
