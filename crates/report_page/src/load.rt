//! The load of a week, with a bar.

ghost use Rattle.std.specs.Prelude.{◌≡◌, ◌++◌, OnOk, string_bytes};
ghost use Rattle.report_page.specs.Load.{bar_width, capped, is_same_week, load_after, load_head, load_words, percent, percent_words, week_load};

use court_clock::Day;
use docket_selection::week_start;
use hearing_slots::Booking;
use office_texts::push_number;
use page_markup::{Page, Tag};
use std::alloc::AllocError;

/// The quarters of an hour that these bookings take in a day's week; at most 672, which are a week.
#[tactic(auto, unfolding(crate::specs::Load::week_load))]
pub(crate) fn week_load(day: Day, bookings: &[Booking]) -> u16
    ensures { result ≡ week_load day bookings.now }
{
    let mut quarters = 0;
    for booking in bookings {
        quarters = load_after(day, quarters, booking);
    }
    quarters
}

/// The same after one booking more.
fn load_after(day: Day, quarters: u16, booking: &Booking) -> u16
    ensures { result ≡ load_after day quarters booking.now }
{
    if is_same_week(booking.day, day) {
        capped(u32::from(quarters) + u32::from(booking.count))
    } else {
        quarters
    }
}

/// Whether the two days are of one week.
fn is_same_week(x: Day, y: Day) -> bool
    ensures { result ≡ is_same_week x y }
{
    week_start(x) == week_start(y)
}

/// So many quarters of an hour, but no more than a week has.
fn capped(quarters: u32) -> u16
    ensures { result ≡ capped quarters }
{
    if 672 < quarters { 672 } else { quarters as u16 }
}

/// Adds the load of a week as the head of its row.
#[tactic(auto, unfolding(crate::specs::Load::load_head))]
pub(crate) fn push_load(page: &mut Page, line: &mut String, quarters: u16) -> Result<(), AllocError>
    ensures { OnOk result (page.new ≡ page.old ++ load_head quarters) }
{
    page.open(Tag::LoadHead)?;
    set_load(line, quarters)?;
    page.text_in(Tag::Line, line)?;
    set_percent(line, quarters)?;
    page.text_in(Tag::Bar(bar_width(quarters)), line)?;
    page.close(Tag::LoadHead)
}

/// Makes the line a load in hours and minutes.
#[tactic(auto, unfolding(crate::specs::Load::load_words))]
fn set_load(line: &mut String, quarters: u16) -> Result<(), AllocError>
    ensures { OnOk result (string_bytes line.new ≡ load_words quarters) }
{
    line.clear();
    push_number(line, u64::from(quarters) / 4)?;
    line.push_str(" h ")?;
    push_number(line, 15 * (u64::from(quarters) % 4))?;
    line.push_str(" min")
}

/// Makes the line a load in hundredths of 40 hours.
#[tactic(auto, unfolding(crate::specs::Load::percent_words))]
fn set_percent(line: &mut String, quarters: u16) -> Result<(), AllocError>
    ensures { OnOk result (string_bytes line.new ≡ percent_words quarters) }
{
    line.clear();
    push_number(line, u64::from(percent(quarters)))?;
    line.push_str("%")
}

/// A load in hundredths of 40 hours.
fn percent(quarters: u16) -> u32
    ensures { result ≡ percent quarters }
{
    u32::from(quarters) * 5 / 8
}

/// How wide its bar is.
fn bar_width(quarters: u16) -> u32
    ensures { result ≡ bar_width quarters }
{
    let whole = percent(quarters);
    if 100 < whole { 100 } else { whole }
}
