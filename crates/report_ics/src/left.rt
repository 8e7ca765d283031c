//! Deadlines of cases that were before a judge, and aren't any more.

ghost use Rattle.std.specs.Prelude.{◌≡◌, ◌++◌, option_to_list, IfOk, OnOk};
ghost use Rattle.std.specs.List.{flat_map};
ghost use Rattle.docket_selection.specs.Changes.Words.{history_of};
ghost use Rattle.report_ics.specs.Appointments.{has_left, histories_of_case, off_deadlines, off_item, was_before};

use crate::appointment::{Appointment, AppointmentTypes};
use crate::lists::push_if;
use docket_rows::Hearing;
use docket_selection::{DueItem, HearingHistories, HearingHistory, Matter};
use hearing_slots::Panel;
use std::alloc::{AllocError, Global};

/// Adds the deadlines among these items, whose cases aren't before the judge of the histories, of those cases that were.
pub(crate) fn push_off_deadlines(
    alloc: Global,
    list: &mut Vec<Appointment>,
    histories: &HearingHistories,
    others: &[DueItem],
) -> Result<(), AllocError>
    ensures { OnOk result (list.new.items ≡ list.old.items ++ off_deadlines histories.now others.now) }
{
    let _types: AppointmentTypes = None;
    for item in others {
        let off = off_item(alloc, histories, item)?;
        push_if(list, off)?;
    }
    Ok(())
}

/// The item, if it is a deadline of such a case.
fn off_item(
    alloc: Global,
    histories: &HearingHistories,
    item: &DueItem,
) -> Result<Option<Appointment>, AllocError>
    ensures { IfOk result (λ off. off ≡ off_item histories.now item.now) }
{
    match item.matter {
        Matter::Deadline(_) => {
            if has_left(alloc, histories, item.case)? {
                return Ok(Some(Appointment {
                    item: *item,
                    revision: histories.revision(item.case),
                    cancelled: true,
                }));
            }
            Ok(None)
        }
        Matter::Hearing(_) => Ok(None),
    }
}

/// Whether a judge is followed, and the case was before that judge.
fn has_left(alloc: Global, histories: &HearingHistories, case: u32) -> Result<bool, AllocError>
    ensures { IfOk result (λ left. left ≡ has_left histories.now case) }
{
    if histories.judge().is_none() {
        return Ok(false);
    }
    was_before(alloc, histories, case)
}

/// Whether the case was assigned or referred to the judge, or the judge had a hearing in it. `Err` says that memory ran out.
pub(crate) fn was_before(
    alloc: Global,
    histories: &HearingHistories,
    case: u32,
) -> Result<bool, AllocError>
    ensures { IfOk result (λ was. was ≡ was_before histories.now case) }
{
    if histories.was_assigned(case) {
        return Ok(true);
    }
    let had = histories_of(alloc, histories, case)?;
    Ok(!had.is_empty())
}

/// The hearings that the judge had in a case, also of motions that are none any more.
#[tactic(auto, unfolding(crate::specs::Appointments::histories_of_case))]
fn histories_of(
    alloc: Global,
    histories: &HearingHistories,
    case: u32,
) -> Result<Vec<HearingHistory>, AllocError>
    ensures { IfOk result (λ list. list.items ≡ histories_of_case histories.now case) }
{
    histories_each(alloc, histories, case, histories.motions(case))
}

/// The hearings that the judge had of some motions of a case.
fn histories_each(
    alloc: Global,
    histories: &HearingHistories,
    case: u32,
    motions: &[u32],
) -> Result<Vec<HearingHistory>, AllocError>
    ensures { IfOk result (λ list. list.items ≡ flat_map (λ number. option_to_list (history_of histories.now.judge case number histories.now.changes)) motions.now) }
{
    let _types: Option<(Hearing, Panel)> = None;
    let mut list = Vec::new(alloc);
    for motion in motions {
        push_if(&mut list, histories.of(case, *motion))?;
    }
    Ok(list)
}
