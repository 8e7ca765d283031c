//! Extensions, ends that orders set, and the notice that a motion needs.

ghost use Rattle.std.specs.Prelude.{◌≡◌};
ghost use Rattle.row_forms.specs.Fields.Grants.{grant_of, more_time, need_of, order_dated, reset_to};

use crate::fields::numbers::{count_of, number_of};
use court_clock::Day;
use hearing_slots::Need;
use rule_periods::{Event, Grant, Request};

/// An extension: `+` and a number of days or hours, as `+14d`, or a date.
#[tactic(auto, unfolding(crate::specs::Fields::Grants::grant_of))]
pub fn grant_of(text: &str) -> Option<Grant>
    ensures { result ≡ grant_of text.now }
{
    match text.strip_prefix('+') {
        Some(length) => more_time(length),
        None => Some(Grant::Until(Day::from_text(text)?)),
    }
}

// So much more time: a number of days followed by `d`, or of hours followed by `h`.
#[tactic(auto, unfolding(crate::specs::Fields::Grants::more_time))]
fn more_time(text: &str) -> Option<Grant>
    ensures { result ≡ more_time text.now }
{
    match count_of(text, 'd') {
        Some(days) => Some(Grant::ByDays(days)),
        None => Some(Grant::ByHours(count_of(text, 'h')?)),
    }
}

/// Another end that an order sets: a day, or where the field says a time that minute of it.
#[tactic(auto, unfolding(crate::specs::Fields::Grants::reset_to))]
pub fn reset_to(time: &str, event: Event) -> Grant
    ensures { result ≡ reset_to time.now event }
{
    if time.is_empty() {
        Grant::Reset(event.day())
    } else {
        Grant::ResetAt(event)
    }
}

/// What an order of that day grants: nothing was asked for, and nothing has to be found.
pub fn order_dated(dated: Day, grant: Grant) -> Request
    ensures { result ≡ order_dated dated grant }
{
    Request {
        grant,
        asked: Event::new(dated, 0),
        motion: false,
        cause: false,
        neglect: false,
    }
}

/// The notice that a motion needs: a number of days, or `exparte`.
#[tactic(auto, unfolding(crate::specs::Fields::Grants::need_of))]
pub fn need_of(text: &str) -> Option<Need>
    ensures { result ≡ need_of text.now }
{
    if text == "exparte" {
        return Some(Need::ExParte);
    }
    Some(Need::Days(number_of(text)?))
}
