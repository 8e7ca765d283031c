//! Laws of bookings and calendars, for the definitions that rest on them.

ghost use Rattle.std.specs.Prelude.{◌≡◌};
ghost use Rattle.hearing_slots.specs.declared.booking.TheConstants.{SLOTS_PER_DAY, MINUTES_PER_SLOT};
ghost use Rattle.hearing_slots.specs.Booking.{slots_per_day, minutes_per_slot};
ghost use Rattle.hearing_slots.specs.Laws.{OverlapIsASharedSlot, BookingKeepsCalendar, RemovalKeepsCalendar, SameBookingsSameCalendar, OrderHoldsTheSame, PartsStandInOrder, BookingIsPutLast};

/// A day has 96 slots of 15 minutes.
pub fn slots_of_a_day()
    ensures slots { SLOTS_PER_DAY ≡ slots_per_day }
    ensures minutes { MINUTES_PER_SLOT ≡ minutes_per_slot }
{}

/// Two spans of slots overlap exactly where some slot lies in both.
pub fn overlap_is_a_shared_slot()
    ensures { OverlapIsASharedSlot }
{}

/// No two bookings share a slot after one is put in that conflicts with no other.
pub fn booking_keeps_calendar()
    ensures { BookingKeepsCalendar }
{}

/// Nor after one is taken out.
pub fn removal_keeps_calendar()
    ensures { RemovalKeepsCalendar }
{}

/// Calendars that hold the same bookings are the same.
pub fn same_bookings_same_calendar()
    ensures { SameBookingsSameCalendar }
{}

/// Bookings that are put in order are all there, and no others.
pub fn order_holds_the_same()
    ensures { OrderHoldsTheSame }
{}

/// A part of the bookings has the same order as among all of them.
pub fn parts_stand_in_order()
    ensures { PartsStandInOrder }
{}

/// A booking that takes the place of an older one of its motion is the last that is put in order.
pub fn booking_is_put_last()
    ensures { BookingIsPutLast }
{}
