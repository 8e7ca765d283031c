//! What is shown of a deadline.

ghost use Rattle.std.specs.Prelude.{◌≡◌, ◌<◌, OnOk, None};
ghost use Rattle.jiff_fmt.specs.Text.{time_text as jiff_time_text};
ghost use Rattle.court_clock.specs.Words.{civil_of};
ghost use Rattle.office_texts.specs.Added.{AddsText};
ghost use Rattle.office_texts.specs.Shown.{end_text, shown_text, time_text};

use court_clock::{Clock, Instant};
use jiff::civil::Time;
use rule6::Shown;
use std::alloc::AllocError;
use std::fmt::Write;

/// Adds what is shown of a deadline's end. `Err` says that memory ran out.
pub fn push_shown(text: &mut String, clock: &Clock, shown: &Shown) -> Result<(), AllocError>
    ensures { OnOk result (AddsText text.old text.new (shown_text clock.now shown.now)) }
{
    match *shown {
        Shown::Last { day, act: _ } => write!(text, "last {day}"),
        Shown::Until(end) => push_end(text, clock, end),
        Shown::Beyond => text.push_str("beyond"),
    }
}

/// Adds the end of hours, as the court's clock shows it.
fn push_end(text: &mut String, clock: &Clock, end: Instant) -> Result<(), AllocError>
    ensures { OnOk result (AddsText text.old text.new (end_text (civil_of clock.now.zone end))) }
{
    match clock.civil_of(end) {
        Some((day, second)) => {
            let time = time_at(second);
            write!(text, "until {day} {time}")
        }
        None => text.push_str("beyond"),
    }
}

/// The time of day at a second counted from midnight.
fn time_at(second: u32) -> Time
    requires { second < 86_400 }
    ensures { jiff_time_text None result ≡ time_text second }
{
    let (hour, minute, second) = (second / 3600, second / 60 % 60, second % 60);
    match Time::new(hour as i8, minute as i8, second as i8, 0) {
        Ok(time) => time,
        Err(_) => unreachable!(),
    }
}
