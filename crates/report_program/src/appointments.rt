//! Events of a calendar, with the numbers of their deadlines and motions, and with their revisions.

ghost use Rattle.std.specs.Prelude.{◌≡◌, map, IfOk};
ghost use Rattle.report_ics.specs.Words.{appointments_of};
ghost use Rattle.report_program.specs.Appointments.{is_lost, numbered_appointment, numbered_by_place};

use crate::past::later_by;
use desk_numbers::{MovedNumbers, is_apart, place_apart};
use docket_selection::{Choice, DueItem, DueTypes, HearingHistories, Matter};
use report_ics::{Appointment, appointments_of};
use report_texts::{Labels, number_item};
use rule6::Shown;
use std::alloc::{AllocError, Global};

/// Whether it is a deadline that no row starts any more, whose number is known.
fn is_lost(matter: &Matter) -> bool
    ensures { result ≡ is_lost matter.now }
{
    match matter {
        Matter::Deadline(due) => matches!(due.shown, Shown::Beyond),
        Matter::Hearing(_) => false,
    }
}

/// Gives an item, which has the place of its deadline or its motion, the number of that. A motion that is none any more has a place
/// apart.
fn number_by_place(moved: &MovedNumbers, item: &mut DueItem)
    ensures { item.new ≡ numbered_by_place moved.now item.old }
{
    if is_apart(item.number) {
        item.number = place_apart(item.number);
    } else {
        number_item(moved, item);
    }
}

/// Gives an event, which has the place of its deadline or its motion, the number of that, and counts corrections in its revision.
fn number_appointment(moved: &MovedNumbers, corrections: u64, appointment: &mut Appointment)
    ensures { appointment.new ≡ numbered_appointment moved.now corrections appointment.old }
{
    if !is_lost(&appointment.item.matter) {
        number_by_place(moved, &mut appointment.item);
    }
    appointment.revision = later_by(corrections, appointment.revision);
}

/// Gives events, which have the places of their deadlines and motions, the numbers of those.
fn number_appointments(moved: &MovedNumbers, corrections: u64, appointments: &mut [Appointment])
    ensures { appointments.new ≡ map (numbered_appointment moved.now corrections) appointments.old }
{
    let _types: DueTypes = None;
    'list: for appointment in appointments.iter_mut() {
        number_appointment(moved, corrections, appointment);
    }
}

/// The events of these items, of the deadlines among the others and the chosen hearings that are off, and of the deadlines that are
/// lost, with the numbers of deadlines and motions. A hearing's history is found by the place of its motion. `Err` says that memory ran out.
pub(crate) fn numbered_appointments(
    alloc: Global,
    labels: &Labels<'_>,
    corrections: u64,
    choice: &Choice,
    histories: &HearingHistories,
    items: &[DueItem],
    others: &[DueItem],
    lost: &[DueItem],
) -> Result<Vec<Appointment>, AllocError>
    ensures { IfOk result (λ list. list.items ≡ map (numbered_appointment labels.now.moved corrections) (appointments_of choice.now histories.now items.now others.now lost.now)) }
{
    let _types: DueTypes = None;
    let mut list = appointments_of(alloc, choice, histories, items, others, lost)?;
    number_appointments(labels.moved, corrections, &mut list);
    Ok(list)
}
