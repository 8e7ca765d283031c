//! Which slots are taken on each day.

ghost use Rattle.std.specs.Prelude.{◌≡◌, ◌+◌, ◌<◌, ◌≤◌, IfOk, IfErr, vec_len, vec_capacity};
ghost use Rattle.hearing_slots.specs.Slots.{AreMasks, MarksOnly, IsDayAt, IsGapForDay, marked, slots_from};

use court_clock::Day;

/// The slots that are taken on one day.
#[derive(Clone, Copy, Debug)]
pub(crate) struct DaySlots {
    /// The day.
    pub(crate) day: Day,
    /// Bit s is set where slot s is taken.
    pub(crate) taken: u128,
}

/// The slots of the span of `count` slots from `first` on.
pub(crate) fn slots_from(first: u8, count: u8) -> u128
    requires { first + count ≤ 96 }
    ensures { result ≡ slots_from first count }
{
    (1u128 << (first + count)) - (1u128 << first)
}

/// Where the entry of the day is, or where it would go.
fn search(days: &[DaySlots], day: Day) -> Result<usize, usize>
    requires { AreMasks days.now }
    ensures found { IfOk result (IsDayAt days.now day) }
    ensures absent { IfErr result (IsGapForDay days.now day) }
{
    let number = day.number();
    let place = days.partition_point(|entry| entry.day.number() < number);
    if place == days.len() {
        return Err(place);
    }
    if days[place].day.number() != number {
        return Err(place);
    }
    Ok(place)
}

/// The slots that are taken on the day.
pub(crate) fn taken_on(days: &[DaySlots], day: Day) -> u128
    requires { AreMasks days.now }
    ensures { result ≡ marked day days.now }
{
    match search(days, day) {
        Ok(place) => days[place].taken,
        Err(_) => 0,
    }
}

/// Sets the slots of the day, of which there is one at least.
pub(crate) fn mark(days: &mut Vec<DaySlots>, day: Day, taken: u128)
    requires masks { AreMasks days.old.items }
    requires room { vec_len days.old < vec_capacity days.old }
    requires some { 0 < taken }
    ensures { MarksOnly days.old.items days.new.items day taken }
{
    match search(days, day) {
        Ok(place) => days[place] = DaySlots { day, taken },
        // There is room, so this takes no memory.
        Err(place) => days.insert(place, DaySlots { day, taken }).unwrap(),
    }
}

/// Sets the slots of a day on which there may be fewer now, and drops the entry where there are none.
pub(crate) fn lower(days: &mut Vec<DaySlots>, day: Day, taken: u128)
    requires masks { AreMasks days.old.items }
    requires fewer { marked day days.old.items ≡ 0 → taken ≡ 0 }
    ensures marks { MarksOnly days.old.items days.new.items day taken }
    ensures room { (vec_len days.new ≤ vec_len days.old) × (vec_capacity days.new ≡ vec_capacity days.old) }
{
    let Ok(place) = search(days, day) else {
        return;
    };
    if taken == 0 {
        days.remove(place);
    } else {
        days[place] = DaySlots { day, taken };
    }
}
