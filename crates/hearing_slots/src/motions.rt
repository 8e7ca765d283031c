//! The booking of each motion.

ghost use Rattle.std.specs.Prelude.{◌≡◌, ◌+◌, ◌<◌, ◌≤◌, Some, None, IfOk, AllPairs, false};
ghost use Rattle.std.specs.HashMap.{spare};
ghost use Rattle.hearing_slots.specs.Booking.{is_of};
ghost use Rattle.hearing_slots.specs.Motions.{NotesBookings, NotesOnly, noted};

use crate::booking::Booking;
use std::alloc::{AllocError, Global};
use std::collections::HashMap;

/// The booking of each motion, by case and motion.
pub(crate) type Motions = HashMap<(u32, u32), Booking>;

/// The bookings by case and motion, each of which is among them once.
pub(crate) fn noted_motions(alloc: Global, bookings: &[Booking]) -> Result<Motions, AllocError>
    requires { AllPairs (λ a b. is_of a.case a.motion b ≡ false) bookings.now }
    ensures { IfOk result (NotesBookings bookings.now) }
{
    let mut motions = HashMap::with_capacity(alloc, bookings.len())?;
    for booking in bookings {
        note(&mut motions, booking);
    }
    Ok(motions)
}

/// Notes the booking of its motion.
pub(crate) fn note(motions: &mut Motions, booking: &Booking)
    requires { 0 < spare motions.old }
    ensures rest { NotesOnly motions.old motions.new booking.now.case booking.now.motion (Some booking.now) }
    ensures room { spare motions.old ≤ spare motions.new + 1 }
{
    // There is room, so this takes no memory.
    let noted: Result<_, _> = motions.insert((booking.case, booking.motion), *booking);
    let _older = noted.unwrap();
}

/// Takes the motion's booking out, and gives it.
pub(crate) fn forget(motions: &mut Motions, case: u32, motion: u32) -> Option<Booking>
    ensures gone { result ≡ noted case motion motions.old }
    ensures rest { NotesOnly motions.old motions.new case motion None }
    ensures room { spare motions.old ≤ spare motions.new }
{
    motions.remove(&(case, motion))
}
