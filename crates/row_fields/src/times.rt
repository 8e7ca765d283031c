//! Times of day.

ghost use Rattle.std.specs.Prelude.{◌≡◌, ◌<◌, IfOk, IfSome};
ghost use Rattle.court_clock.specs.Words.{minute_at, two_digits};
ghost use Rattle.row_fields.specs.Times.{bare_said, hour_said, in_half, minute_said, time_said};

use crate::letters::bare;
use std::alloc::{AllocError, Global};

/// The half of a day.
#[derive(Clone, Copy, Debug, PartialEq, Eq)]
pub enum Half {
    /// Before noon.
    Morning,
    /// From noon on.
    Afternoon,
}

// The number that two digits spell.
fn two_digits(tens: u8, units: u8) -> Option<u16>
    ensures { result ≡ two_digits tens units }
{
    if tens.is_ascii_digit() && units.is_ascii_digit() {
        Some(u16::from(10 * (tens - b'0') + (units - b'0')))
    } else {
        None
    }
}

// The minute of the day at an hour and a minute.
fn minute_at(hour: Option<u16>, minute: Option<u16>) -> Option<u16>
    ensures value { result ≡ minute_at hour minute }
    ensures in_the_day { IfSome result (λ m. m < 1440) }
{
    let (hour, minute) = (hour?, minute?);
    if hour < 24 && minute < 60 {
        Some(60 * hour + minute)
    } else {
        None
    }
}

// The minute of the day that `9:30` and `09:30` say.
fn minute_said(text: &[u8]) -> Option<u16>
    ensures value { result ≡ minute_said text.now }
    ensures in_the_day { IfSome result (λ m. m < 1440) }
{
    match text {
        [h, b':', m, n] => minute_at(two_digits(b'0', *h), two_digits(*m, *n)),
        [g, h, b':', m, n] => minute_at(two_digits(*g, *h), two_digits(*m, *n)),
        _ => None,
    }
}

// The minute of the day that `9` and `09` say before `am` or `pm`.
fn hour_said(text: &[u8]) -> Option<u16>
    ensures value { result ≡ hour_said text.now }
    ensures in_the_day { IfSome result (λ m. m < 1440) }
{
    match text {
        [h] => minute_at(two_digits(b'0', *h), Some(0)),
        [g, h] => minute_at(two_digits(*g, *h), Some(0)),
        _ => minute_said(text),
    }
}

// The minute of the day in that half of it: its clock goes from 12:00 to 12:59, and from 1:00 to 11:59.
fn in_half(half: Half, minute: Option<u16>) -> Option<u16>
    ensures value { result ≡ in_half half minute }
    ensures in_the_day { IfSome result (λ m. m < 1440) }
{
    let minute = minute?;
    if minute < 60 || minute >= 780 {
        return None;
    }
    match half {
        Half::Morning => Some(minute % 720),
        Half::Afternoon => Some(minute % 720 + 720),
    }
}

// The minute of the day that a text in small letters says, without blanks and dots.
fn bare_said(text: &[u8]) -> Option<u16>
    ensures value { result ≡ bare_said text.now }
    ensures in_the_day { IfSome result (λ m. m < 1440) }
{
    if text.ends_with(b"am") {
        return in_half(Half::Morning, hour_said(text.split_at(text.len() - 2).0));
    }
    if text.ends_with(b"pm") {
        return in_half(Half::Afternoon, hour_said(text.split_at(text.len() - 2).0));
    }
    minute_said(text)
}

/// The minute of the day that a text says, counted from midnight.
#[tactic(auto, unfolding(crate::specs::Times::time_said))]
pub fn time_said(alloc: Global, text: &str) -> Result<Option<u16>, AllocError>
    ensures value { IfOk result (λ said. said ≡ time_said text.now) }
    ensures in_the_day { IfOk result (λ said. IfSome said (λ m. m < 1440)) }
{
    let text = bare(alloc, text)?;
    Ok(bare_said(text.as_bytes()))
}
