//! Minutes of a day, counted from midnight.

ghost use Rattle.std.specs.Prelude.{◌≡◌, ◌<◌, IfSome};
ghost use Rattle.court_clock.specs.Clock.Minute.{minute_of_text, minute_at, two_digits};

/// The minute of the day that `text` names as `HH:MM`, from 00:00 to 23:59, counted from midnight.
/// None for any other text.
pub fn minute_from_text(text: &str) -> Option<u16>
    ensures value { result ≡ minute_of_text text.now }
    ensures in_the_day { IfSome result (λ minute. minute < 1440) }
{
    minute_from_bytes(text.as_bytes())
}

/// The minute of the day that the bytes name as `HH:MM`.
pub(crate) fn minute_from_bytes(text: &[u8]) -> Option<u16>
    ensures value { result ≡ minute_of_text text.now }
    ensures in_the_day { IfSome result (λ minute. minute < 1440) }
{
    match text {
        [h, hh, b':', m, mm] => minute_at(two_digits(*h, *hh), two_digits(*m, *mm)),
        _ => None,
    }
}

fn minute_at(hour: Option<u16>, minute: Option<u16>) -> Option<u16>
    ensures value { result ≡ minute_at hour minute }
    ensures in_the_day { IfSome result (λ minute. minute < 1440) }
{
    let hour = hour?;
    let minute = minute?;
    if hour < 24 && minute < 60 {
        Some(60 * hour + minute)
    } else {
        None
    }
}

/// The number that two decimal digits spell.
fn two_digits(tens: u8, units: u8) -> Option<u16>
    ensures { result ≡ two_digits tens units }
{
    if tens.is_ascii_digit() && units.is_ascii_digit() {
        Some(10 * u16::from(tens - b'0') + u16::from(units - b'0'))
    } else {
        None
    }
}
