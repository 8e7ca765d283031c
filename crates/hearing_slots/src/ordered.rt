//! Lists of bookings in order: a day of them, and one booking more or less.

ghost use Rattle.std.specs.Prelude.{◌≡◌, ◌+◌, ◌<◌, ◌≤◌, ℤ, Some, true, false, All, AllPairs, Contains, find, length, vec_len, vec_capacity};
ghost use Rattle.std.specs.List.Sorted.{IsPartitionPoint};
ghost use Rattle.hearing_slots.specs.Booking.{begins_before, is_of, IsWithinDay, SharesSlot};
ghost use Rattle.hearing_slots.specs.Calendar.{IsCalendar, on_day, in_place, without_motion, conflicts};
ghost use Rattle.hearing_slots.specs.Slots.{slots_taken};

use crate::booking::Booking;
use crate::day_slots::slots_from;
use court_clock::Day;

/// The bookings of the day.
pub(crate) fn part_of_day(bookings: &[Booking], day: Day) -> &[Booking]
    requires { AllPairs (λ a b. begins_before a b ≡ true) bookings.now }
    ensures { result.now ≡ on_day day bookings.now }
{
    let number = day.number();
    let earlier = bookings.partition_point(|booking| booking.day.number() < number);
    let rest = &bookings[earlier..];
    let taken = rest.partition_point(|booking| booking.day.number() <= number);
    &rest[..taken]
}

/// The first of the bookings that conflicts with the span.
pub(crate) fn first_of(
    bookings: &[Booking],
    day: Day,
    first: u8,
    count: u8,
    except: Option<(u32, u32)>,
) -> Option<Booking>
    requires { first + count ≤ 96 }
    ensures { result ≡ find (conflicts day first count except) bookings.now }
{
    bookings
        .iter()
        .copied()
        .find(|booking| booking.conflicts(day, first, count, except))
}

/// The slots that the bookings take.
fn slots_of(bookings: &[Booking]) -> u128
    requires { All IsWithinDay bookings.now }
    ensures { result ≡ slots_taken bookings.now }
{
    let mut taken = 0;
    for booking in bookings {
        taken |= slots_from(booking.first, booking.count);
    }
    taken
}

/// The slots that the bookings of the day take.
pub(crate) fn slots_on(bookings: &[Booking], day: Day) -> u128
    requires { IsCalendar bookings.now }
    ensures { result ≡ slots_taken (on_day day bookings.now) }
{
    slots_of(part_of_day(bookings, day))
}

/// How many of the bookings begin before the booking.
fn place_of(bookings: &[Booking], booking: &Booking) -> usize
    requires { AllPairs (λ a b. begins_before a b ≡ true) bookings.now }
    ensures bound { result ≤ length bookings.now }
    ensures point { IsPartitionPoint (λ a. begins_before a booking.now ≡ true) (λ a. begins_before a booking.now ≡ false) bookings.now result }
{
    bookings.partition_point(|other| other.begins_before(booking))
}

/// Takes out the booking, which is one of them.
pub(crate) fn take_out(bookings: &mut Vec<Booking>, gone: Booking)
    requires calendar { IsCalendar bookings.old.items }
    requires stands { find (is_of gone.case gone.motion) bookings.old.items ≡ Some gone }
    ensures items { bookings.new.items ≡ without_motion gone.case gone.motion bookings.old.items }
    ensures room { (vec_len bookings.new ≤ vec_len bookings.old) × (vec_capacity bookings.new ≡ vec_capacity bookings.old) }
{
    let place = place_of(bookings, &gone);
    bookings.remove(place);
}

/// The booking of the case and motion; each booking is looked at.
fn booking_of(bookings: &[Booking], case: u32, motion: u32) -> Option<Booking>
    ensures { result ≡ find (is_of case motion) bookings.now }
{
    bookings
        .iter()
        .copied()
        .find(|booking| booking.is_of(case, motion))
}

/// Takes out the booking of the case and motion, if there is one; each booking is looked at.
pub(crate) fn take_out_of(bookings: &mut Vec<Booking>, case: u32, motion: u32)
    requires { IsCalendar bookings.old.items }
    ensures items { bookings.new.items ≡ without_motion case motion bookings.old.items }
    ensures calendar { IsCalendar bookings.new.items }
{
    let Some(gone) = booking_of(bookings, case, motion) else {
        return;
    };
    take_out(bookings, gone);
}

/// Puts the booking in its place, where none is of its case and motion and none shares a slot with it.
pub(crate) fn place_in(bookings: &mut Vec<Booking>, booking: Booking)
    requires calendar { IsCalendar bookings.old.items }
    requires within_day { IsWithinDay booking }
    requires free { All (λ b. SharesSlot b booking.day booking.first booking.count → ⊥) bookings.old.items }
    requires only { All (λ b. is_of booking.case booking.motion b ≡ false) bookings.old.items }
    requires room { vec_len bookings.old < vec_capacity bookings.old }
    ensures items { bookings.new.items ≡ in_place booking bookings.old.items }
    ensures calendar { IsCalendar bookings.new.items }
    ensures here { Contains (on_day booking.day bookings.new.items) booking }
    ensures other_days { (day : ℤ) → (booking.day ≡ day → ⊥) → on_day day bookings.new.items ≡ on_day day bookings.old.items }
{
    let place = place_of(bookings, &booking);
    // There is room, so this takes no memory.
    bookings.insert(place, booking).unwrap();
}
