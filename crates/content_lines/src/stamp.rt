//! The text of an instant, read.

ghost use Rattle.std.specs.Prelude.{◌≡◌, ◌<◌, IfSome, IsUtf8};
ghost use Rattle.std.specs.Char.{is_ascii_digit};
ghost use Rattle.std.specs.List.{list_all};
ghost use Rattle.court_clock.specs.Words.{day_of_text, two_digits};
ghost use Rattle.content_lines.specs.Stamp.{instant_at, second_at, stamp_of_text};

use court_clock::{Day, Instant};

/// The instant that a text names as `20250901T120000Z`, in UTC, of the years 1900 to 2199. None for any other text.
#[tactic(auto, unfolding(crate::specs::Stamp::stamp_of_text), using(crate::proofs::StampLemmas::date_utf8))]
pub fn stamp_of_text(text: &str) -> Option<Instant>
    ensures { result ≡ stamp_of_text text.now }
{
    let b = text.as_bytes();
    if b.len() != 16 || b[8] != b'T' || b[15] != b'Z' {
        return None;
    }
    let digits = [b[0], b[1], b[2], b[3], b[4], b[5], b[6], b[7]];
    if !are_digits(&digits) {
        return None;
    }
    let date = [b[0], b[1], b[2], b[3], b'-', b[4], b[5], b'-', b[6], b[7]];
    let hour = two_digits(b[9], b[10]);
    let minute = two_digits(b[11], b[12]);
    let second = two_digits(b[13], b[14]);
    instant_at(day_of(&date), second_at(hour, minute, second))
}

/// Whether all of the bytes are digits.
fn are_digits(bytes: &[u8]) -> bool
    ensures { result ≡ list_all is_ascii_digit bytes.now }
{
    bytes.iter().all(|b| b.is_ascii_digit())
}

/// The day that a text of those bytes names.
fn day_of(date: &[u8]) -> Option<Day>
    requires { IsUtf8 date.now }
    ensures { result ≡ day_of_text date.now }
{
    match std::str::from_utf8(date) {
        Ok(text) => Day::from_text(text),
        Err(_) => None,
    }
}

/// The instant of a second of a day of UTC.
fn instant_at(day: Option<Day>, second: Option<u32>) -> Option<Instant>
    requires { IfSome second (λ s. s < 86_400) }
    ensures { result ≡ instant_at day second }
{
    let day = day?;
    let second = second?;
    Instant::new(i64::from(day.number()) * 86_400 + i64::from(second))
}

/// The second of the day at an hour below 24, and a minute and a second below 60.
fn second_at(hour: Option<u32>, minute: Option<u32>, second: Option<u32>) -> Option<u32>
    ensures value { result ≡ second_at hour minute second }
    ensures within { IfSome result (λ s. s < 86_400) }
{
    let hour = hour?;
    let minute = minute?;
    let second = second?;
    if hour < 24 && minute < 60 && second < 60 {
        Some(3600 * hour + 60 * minute + second)
    } else {
        None
    }
}

/// The number that two decimal digits spell.
fn two_digits(tens: u8, units: u8) -> Option<u32>
    ensures { result ≡ two_digits tens units }
{
    if tens.is_ascii_digit() && units.is_ascii_digit() {
        Some(10 * u32::from(tens - b'0') + u32::from(units - b'0'))
    } else {
        None
    }
}
