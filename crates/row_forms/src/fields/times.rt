//! Days and times of day.

ghost use Rattle.std.specs.Prelude.{◌≡◌, ◌≤◌, ◌<◌, IfSome};
ghost use Rattle.row_forms.specs.Fields.Times.{day_if_given, ending_minute, minute_or_midnight, slot_at};

use court_clock::{Day, minute_from_text};

/// The day that a field says; an empty field says none.
#[tactic(auto, unfolding(crate::specs::Fields::Times::day_if_given))]
pub fn day_if_given(field: &str) -> Option<Option<Day>>
    ensures { result ≡ day_if_given field.now }
{
    if field.is_empty() {
        return Some(None);
    }
    Some(Some(Day::from_text(field)?))
}

/// The minute that a field says, counted from midnight; an empty field says 00:00.
#[tactic(auto, unfolding(crate::specs::Fields::Times::minute_or_midnight))]
pub fn minute_or_midnight(field: &str) -> Option<u16>
    ensures value { result ≡ minute_or_midnight field.now }
    ensures in_the_day { IfSome result (λ minute. minute < 1440) }
{
    if field.is_empty() {
        Some(0)
    } else {
        minute_from_text(field)
    }
}

/// The minute at which something ends, counted from midnight: at the latest `24:00`, the end of the day.
#[tactic(auto, unfolding(crate::specs::Fields::Times::ending_minute))]
pub fn ending_minute(field: &str) -> Option<u16>
    ensures { result ≡ ending_minute field.now }
{
    if field == "24:00" {
        Some(1440)
    } else {
        minute_from_text(field)
    }
}

/// The slot that begins at a time: slot s begins at minute 15·s of the day.
#[tactic(auto, unfolding(crate::specs::Fields::Times::slot_at))]
pub fn slot_at(field: &str) -> Option<u8>
    ensures { result ≡ slot_at field.now }
{
    let minute = minute_from_text(field)?;
    if minute % 15 == 0 {
        Some((minute / 15) as u8)
    } else {
        None
    }
}
