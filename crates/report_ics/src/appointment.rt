//! What a calendar program shows.

ghost use Rattle.std.specs.Prelude.{◌≡◌, ◌++◌, map, IfOk, OnOk};
ghost use Rattle.report_ics.specs.Appointments.{appointment_of, appointments_of};

use crate::cancelled::push_off;
use crate::left::push_off_deadlines;
use crate::lost::push_lost;
use court_clock::{Day, Instant};
use docket_rows::Hearing;
use docket_selection::{Choice, DueItem, DueTypes, HearingHistories, is_ended};
use hearing_slots::Panel;
use std::alloc::{AllocError, Global};

/// A deadline or a hearing, as an event of a calendar.
#[derive(Clone, Copy, Debug, PartialEq, Eq)]
pub struct Appointment {
    /// The deadline or the hearing; a hearing that is off as it was set last, and a deadline that no row starts any more with the day
    /// from which it ran and an end beyond all days.
    pub item: DueItem,
    /// The number of the last row that changed its case or the court's days.
    pub revision: u64,
    /// Whether it is off the calendar.
    pub cancelled: bool,
}

/// The types inside an appointment. The checker finds them only where they have names, so a function that has a `Vec` of
/// appointments has a variable of this type.
pub(crate) type AppointmentTypes = Option<(DueTypes, DueItem, Hearing, Panel, Day, Instant)>;

/// The items; then the deadlines, among what is due in the cases that aren't before the chosen judge, of those that were; the chosen
/// hearings that are off, by case and motion; and those of the deadlines that no row starts any more which that judge may have had. The
/// histories are as that judge saw them. `Err` says that memory ran out.
#[tactic(auto, unfolding(crate::specs::Appointments::appointments_of))]
pub fn appointments_of(
    alloc: Global,
    choice: &Choice,
    histories: &HearingHistories,
    items: &[DueItem],
    others: &[DueItem],
    lost: &[DueItem],
) -> Result<Vec<Appointment>, AllocError>
    ensures { IfOk result (λ list. list.items ≡ appointments_of choice.now histories.now items.now others.now lost.now) }
{
    let _types: DueTypes = None;
    let mut list = Vec::new(alloc);
    push_items(&mut list, histories, items)?;
    push_off_deadlines(alloc, &mut list, histories, others)?;
    push_off(&mut list, choice, histories)?;
    push_lost(alloc, &mut list, choice, histories, lost)?;
    Ok(list)
}

/// Adds the items as they are set.
fn push_items(
    list: &mut Vec<Appointment>,
    histories: &HearingHistories,
    items: &[DueItem],
) -> Result<(), AllocError>
    ensures { OnOk result (list.new.items ≡ list.old.items ++ map (appointment_of histories.now) items.now) }
{
    let _types: DueTypes = None;
    for item in items {
        list.push(appointment_of(histories, item))?;
    }
    Ok(())
}

/// The item, as it is set; a deadline that was ended is off.
fn appointment_of(histories: &HearingHistories, item: &DueItem) -> Appointment
    ensures { result ≡ appointment_of histories.now item.now }
{
    Appointment {
        item: *item,
        revision: histories.revision(item.case),
        cancelled: is_ended(&item.matter),
    }
}
