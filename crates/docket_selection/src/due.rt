//! What is due within the chosen days.

ghost use Rattle.std.specs.Prelude.{◌≡◌, ◌++◌, IfOk, OnOk};
ghost use Rattle.std.specs.List.{filter_map, flat_map};
ghost use Rattle.docket_rows.specs.Words.{Rows, setup_of};
ghost use Rattle.docket_core.specs.Words.{StandsFor};
ghost use Rattle.docket_selection.specs.Choice.{are_deadlines_chosen, is_before};
ghost use Rattle.docket_selection.specs.Due.{AreInOrder, IsDue, due_by_either, due_deadline, due_hearing, due_in, due_only, is_due, is_due_any_day, is_due_by_either, is_matter_chosen, is_other_chosen};

use crate::choice::{
    Choice, are_deadlines_chosen, is_before, is_case_chosen, is_day_chosen, is_end_chosen,
    is_panel_chosen,
};
use crate::item::{
    DueItem, DueTypes, Matter, deadline_item, hearing_item, is_ended, is_met, is_pending, time_of,
    with_other,
};
use crate::lists::push_if;
use crate::sheets::sheets_of;
use court_clock::{Clock, Day};
use court_days::Court;
use docket_core::Docket;
use docket_rows::{Sheet, SheetDeadline, SheetMotion};
use reason_notes::{DaysByReading, other_end};
use std::alloc::{AllocError, Global};

/// The deadlines that end within the chosen days, those with no timely act that weren't ended and whose case isn't closed, or all, and the
/// hearings within them, by time. Each deadline has its end by another reading, where these days are doubtful. One whose other end alone is within the chosen
/// days is there too, in the place of the end that is shown. `Err` says that memory ran out.
pub fn due_of(
    alloc: Global,
    court: &Court,
    docket: &Docket,
    doubtful: &[Day],
    choice: &Choice,
) -> Result<Vec<DueItem>, AllocError>
    requires court { docket.now.setup ≡ setup_of court.now }
    ensures { (docketed : Rows) → StandsFor docket.now docketed → IfOk result (λ list. IsDue (setup_of court.now) docketed doubtful.now choice.now list.items) }
{
    let _types: DueTypes = None;
    let sheets = sheets_of(alloc, docket)?;
    let days = DaysByReading::new(alloc, docket.days(), doubtful)?;
    let items = due_among(alloc, &days, court.clock(), &sheets, choice)?;
    in_order(items)
}

/// The items put in order of their times.
fn in_order(items: Vec<DueItem>) -> Result<Vec<DueItem>, AllocError>
    ensures { IfOk result (λ list. AreInOrder items.items list.items) }
{
    let mut list = items;
    list.sort_by_key(|item| time_of(item))?;
    Ok(list)
}

/// What is due of the cases of these sheets.
fn due_among(
    alloc: Global,
    days: &DaysByReading,
    clock: &Clock,
    sheets: &[Sheet],
    choice: &Choice,
) -> Result<Vec<DueItem>, AllocError>
    ensures { IfOk result (λ list. list.items ≡ flat_map (due_in days.now clock.now choice.now) sheets.now) }
{
    let _types: DueTypes = None;
    let mut list = Vec::new(alloc);
    for sheet in sheets {
        push_due_in(alloc, &mut list, days, clock, sheet, choice)?;
    }
    Ok(list)
}

/// Adds what is due of the case of a sheet.
#[tactic(auto, unfolding(crate::specs::Due::due_in))]
fn push_due_in(
    alloc: Global,
    list: &mut Vec<DueItem>,
    days: &DaysByReading,
    clock: &Clock,
    sheet: &Sheet,
    choice: &Choice,
) -> Result<(), AllocError>
    ensures { OnOk result (list.new.items ≡ list.old.items ++ due_in days.now clock.now choice.now sheet.now) }
{
    let _types: DueTypes = None;
    let before = is_before(choice, &sheet.assigned, sheet.motions.as_slice());
    let chosen = are_deadlines_chosen(choice, &sheet.closed, before);
    push_deadlines(
        alloc,
        list,
        days,
        clock,
        sheet.case,
        sheet.deadlines.as_slice(),
        choice,
        chosen,
    )?;
    push_hearings(list, sheet.case, sheet.motions.as_slice(), choice, before)
}

/// Adds the deadlines that are due.
fn push_deadlines(
    alloc: Global,
    list: &mut Vec<DueItem>,
    days: &DaysByReading,
    clock: &Clock,
    case: u32,
    deadlines: &[SheetDeadline],
    choice: &Choice,
    before: bool,
) -> Result<(), AllocError>
    ensures { OnOk result (list.new.items ≡ list.old.items ++ filter_map (due_deadline days.now clock.now case choice.now before) deadlines.now) }
{
    let _types: DueTypes = None;
    for deadline in deadlines {
        let due = due_deadline(alloc, days, clock, case, deadline, choice, before)?;
        push_if(list, due)?;
    }
    Ok(())
}

/// The item of a deadline with the end by another reading, where it is due by either end.
fn due_deadline(
    alloc: Global,
    days: &DaysByReading,
    clock: &Clock,
    case: u32,
    deadline: &SheetDeadline,
    choice: &Choice,
    before: bool,
) -> Result<Option<DueItem>, AllocError>
    ensures { IfOk result (λ item. item ≡ due_deadline days.now clock.now case choice.now before deadline.now) }
{
    let Some(item) = deadline_item(clock, case, deadline) else {
        return Ok(None);
    };
    if !is_due_any_day(choice, before, &item) {
        return Ok(None);
    }
    let other = other_end(alloc, days, clock, &deadline.row)?;
    let item = with_other(item, other);
    if is_due_by_either(clock, choice, before, &item) {
        Ok(Some(item))
    } else {
        Ok(None)
    }
}

/// Adds the hearings that are due.
fn push_hearings(
    list: &mut Vec<DueItem>,
    case: u32,
    motions: &[SheetMotion],
    choice: &Choice,
    before: bool,
) -> Result<(), AllocError>
    ensures { OnOk result (list.new.items ≡ list.old.items ++ filter_map (due_hearing case choice.now before) motions.now) }
{
    let _types: DueTypes = None;
    for motion in motions {
        let due = due_only(choice, before, hearing_item(case, motion));
        push_if(list, due)?;
    }
    Ok(())
}

/// The item, if there is one and it is due.
fn due_only(choice: &Choice, before: bool, item: Option<DueItem>) -> Option<DueItem>
    ensures { result ≡ due_only choice.now before item }
{
    let item = item?;
    if is_due(choice, before, &item) {
        Some(item)
    } else {
        None
    }
}

/// Whether an item is chosen and due on its own day. `before` says whether the deadlines of its case are chosen.
pub fn is_due(choice: &Choice, before: bool, item: &DueItem) -> bool
    ensures { result ≡ is_due choice.now before item.now }
{
    is_day_chosen(choice, item.day) && is_due_any_day(choice, before, item)
}

/// Whether an item is chosen and due, on its own day or on that of its deadline's end by another reading.
fn is_due_by_either(clock: &Clock, choice: &Choice, before: bool, item: &DueItem) -> bool
    ensures { result ≡ is_due_by_either clock.now choice.now before item.now }
{
    (is_day_chosen(choice, item.day) || is_other_chosen(clock, choice, &item.matter))
        && is_due_any_day(choice, before, item)
}

/// Whether an item is chosen and due, whatever its day.
fn is_due_any_day(choice: &Choice, before: bool, item: &DueItem) -> bool
    ensures { result ≡ is_due_any_day choice.now before item.now }
{
    is_case_chosen(choice, item.case)
        && (choice.met || !(is_met(&item.matter) || is_ended(&item.matter)))
        && is_matter_chosen(choice, before, &item.matter)
}

/// Whether the day is chosen on which the time of a deadline ends by another reading.
fn is_other_chosen(clock: &Clock, choice: &Choice, matter: &Matter) -> bool
    ensures { result ≡ is_other_chosen clock.now choice.now matter.now }
{
    match matter {
        Matter::Deadline(deadline) => {
            !choice.overdue && is_end_chosen(clock, choice, deadline.other)
        }
        Matter::Hearing(_) => false,
    }
}

/// Whether a hearing is before the chosen judge, or a deadline in a case whose deadlines are chosen. Where only what is overdue is chosen, no hearing is,
/// and no deadline of which an act is recorded.
pub(crate) fn is_matter_chosen(choice: &Choice, before: bool, matter: &Matter) -> bool
    ensures { result ≡ is_matter_chosen choice.now before matter.now }
{
    match matter {
        Matter::Deadline(deadline) => before && (!choice.overdue || is_pending(deadline.state)),
        Matter::Hearing(set) => !choice.overdue && is_panel_chosen(choice, &set.hearing.judges),
    }
}
