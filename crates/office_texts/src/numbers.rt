//! Numbers and times of day.

ghost use Rattle.std.specs.Prelude.{◌<◌, OnOk};
ghost use Rattle.std.specs.Fmt.{decimal};
ghost use Rattle.court_clock.specs.Words.{minute_text};
ghost use Rattle.jiff_fmt.specs.Text.{pad2};
ghost use Rattle.office_texts.specs.Added.{AddsText};

use itoa::Buffer;
use std::alloc::AllocError;

/// Adds the digits of a number.
pub fn push_number(text: &mut String, number: u64) -> Result<(), AllocError>
    ensures { OnOk result (AddsText text.old text.new (decimal number)) }
{
    text.push_str(Buffer::new().format(number))
}

/// Adds the minute of a day, counted from midnight, as hours and minutes.
pub(crate) fn push_minute(text: &mut String, minute: u16) -> Result<(), AllocError>
    requires { minute < 6_000 }
    ensures { OnOk result (AddsText text.old text.new (minute_text minute)) }
{
    push_two_digits(text, minute / 60)?;
    text.push_str(":")?;
    push_two_digits(text, minute % 60)
}

/// Adds a number below 100 as two digits.
fn push_two_digits(text: &mut String, number: u16) -> Result<(), AllocError>
    requires { number < 100 }
    ensures { OnOk result (AddsText text.old text.new (pad2 number)) }
{
    push_number(text, u64::from(number / 10))?;
    push_number(text, u64::from(number % 10))
}
