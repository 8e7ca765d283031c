//! The court's time zone from its text.

ghost use Rattle.std.specs.Prelude.{◌≡◌, true, ◌<◌, ◌*◌, pos, neg_ℤ, IfSome, option_map};
ghost use Rattle.jiff.specs.Words.{plain_zone, IsOffsetSeconds};
ghost use Rattle.court_clock.specs.Clock.{is_ruled};
ghost use Rattle.court_clock.specs.Clock.Zone.{zone_of_text, zone_of_rule, zone_view, offset_minutes, offset};

use crate::clock::minute::minute_from_bytes;
use jiff::tz::{Offset, TimeZone};

/// The zone that a text names: `+hh:mm` or `-hh:mm` with `hh` from 00 to 14, east of Greenwich positive, or else
/// a POSIX rule. None for any other text.
pub fn zone_from_text(text: &str) -> Option<TimeZone<'static>>
    ensures value { option_map (λ z. zone_view (plain_zone z)) result ≡ zone_of_text text.now }
    ensures ruled { IfSome result (λ z. is_ruled (plain_zone z) ≡ true) }
{
    match text.as_bytes() {
        [b'+', rest @ ..] => {
            let minutes = offset_minutes(rest)?;
            Some(east(minutes))
        }
        [b'-', rest @ ..] => {
            let minutes = offset_minutes(rest)?;
            Some(west(minutes))
        }
        _ => posix(text),
    }
}

/// The minutes of an offset from 00:00 to 14:59.
fn offset_minutes(text: &[u8]) -> Option<u16>
    ensures value { result ≡ offset_minutes text.now }
    ensures bound { IfSome result (λ m. m < 900) }
{
    let minutes = minute_from_bytes(text)?;
    if minutes < 900 { Some(minutes) } else { None }
}

fn posix(text: &str) -> Option<TimeZone<'static>>
    ensures value { option_map (λ z. zone_view (plain_zone z)) result ≡ zone_of_rule text.now }
    ensures ruled { IfSome result (λ z. is_ruled (plain_zone z) ≡ true) }
{
    match TimeZone::posix(text) {
        Ok(zone) => Some(zone),
        Err(_) => None,
    }
}

/// The zone whose clock is always that many minutes ahead of UTC.
fn east(minutes: u16) -> TimeZone<'static>
    requires { minutes < 900 }
    ensures value { zone_view (plain_zone result) ≡ offset (pos (60 * minutes)) }
    ensures ruled { is_ruled (plain_zone result) ≡ true }
{
    fixed(60 * i32::from(minutes))
}

/// The zone whose clock is always that many minutes behind UTC.
fn west(minutes: u16) -> TimeZone<'static>
    requires { minutes < 900 }
    ensures value { zone_view (plain_zone result) ≡ offset (neg_ℤ (pos (60 * minutes))) }
    ensures ruled { is_ruled (plain_zone result) ≡ true }
{
    let seconds = 60 * i32::from(minutes);
    fixed(-seconds)
}

/// The zone whose clock is always that many seconds ahead of UTC.
fn fixed(seconds: i32) -> TimeZone<'static>
    requires { IsOffsetSeconds seconds }
    ensures value { zone_view (plain_zone result) ≡ offset seconds }
    ensures ruled { is_ruled (plain_zone result) ≡ true }
{
    match Offset::from_seconds(seconds) {
        Ok(offset) => TimeZone::fixed(offset),
        Err(_) => unreachable!(),
    }
}
