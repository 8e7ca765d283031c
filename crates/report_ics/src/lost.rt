//! Deadlines that no row starts any more.

ghost use Rattle.std.specs.Prelude.{◌≡◌, ◌++◌, IfOk, OnOk};
ghost use Rattle.report_ics.specs.Appointments.{has_had, lost_deadlines, lost_only, of_day};

use crate::appointment::{Appointment, AppointmentTypes};
use crate::left::was_before;
use crate::lists::push_if;
use court_clock::Day;
use docket_selection::{Choice, DueItem, HearingHistories, is_due};
use std::alloc::{AllocError, Global};

/// Adds those of the deadlines whose case is chosen and which the judge of the histories may have had.
pub(crate) fn push_lost(
    alloc: Global,
    list: &mut Vec<Appointment>,
    choice: &Choice,
    histories: &HearingHistories,
    lost: &[DueItem],
) -> Result<(), AllocError>
    ensures { OnOk result (list.new.items ≡ list.old.items ++ lost_deadlines choice.now histories.now lost.now) }
{
    let _types: AppointmentTypes = None;
    for item in lost {
        let off = lost_only(alloc, choice, histories, item)?;
        push_if(list, off)?;
    }
    Ok(())
}

/// The deadline, if it is one of those.
fn lost_only(
    alloc: Global,
    choice: &Choice,
    histories: &HearingHistories,
    item: &DueItem,
) -> Result<Option<Appointment>, AllocError>
    ensures { IfOk result (λ off. off ≡ lost_only choice.now histories.now item.now) }
{
    if is_due(&of_day(choice, item.day), true, item) && has_had(alloc, histories, item.case)? {
        return Ok(Some(Appointment {
            item: *item,
            revision: histories.revision(item.case),
            cancelled: true,
        }));
    }
    Ok(None)
}

/// The same choice, of that day alone.
fn of_day(choice: &Choice, day: Day) -> Choice
    ensures { result ≡ of_day choice.now day }
{
    let mut of_day = *choice;
    of_day.from = day;
    of_day.to = day;
    of_day
}

/// Whether any judge is followed, or the case was before the one who is.
fn has_had(alloc: Global, histories: &HearingHistories, case: u32) -> Result<bool, AllocError>
    ensures { IfOk result (λ had. had ≡ has_had histories.now case) }
{
    if histories.judge().is_none() {
        return Ok(true);
    }
    was_before(alloc, histories, case)
}
