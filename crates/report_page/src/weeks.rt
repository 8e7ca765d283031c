//! The weeks of a month: the load of each, its days, and a block for each hearing.

ghost use Rattle.std.specs.Prelude.{◌≡◌, ◌++◌, ◌*◌, ◌+ℤ◌, pos, codes, OnOk, string_bytes};
ghost use Rattle.std.specs.Fmt.{decimal};
ghost use Rattle.std.specs.List.{flat_map};
ghost use Rattle.report_texts.specs.Words.{span_words};
ghost use Rattle.report_page.specs.Weeks.{block, block_if_on, date_tag, day_cell, is_month_of, month_weeks, week_if_in, week_on, week_row};

use crate::load::{push_load, week_load};
use crate::phrases::set_motion;
use crate::tables::push_case_link;
use court_clock::Day;
use docket_selection::{day_numbered, week_days, week_start};
use hearing_slots::Booking;
use office_texts::push_number;
use page_markup::{Page, Tag};
use report_texts::{Labels, push_span};
use std::alloc::{AllocError, Global};

/// Whether the two days are of one month.
pub(crate) fn is_month_of(x: Day, y: Day) -> bool
    ensures { result ≡ is_month_of x y }
{
    x.month_after(0) == y.month_after(0)
}

/// Adds a number of weeks, from that on in which the month begins.
pub(crate) fn push_weeks(
    alloc: Global,
    page: &mut Page,
    line: &mut String,
    labels: &Labels<'_>,
    bookings: &[Booking],
    first: Day,
    count: u8,
) -> Result<(), AllocError>
    ensures { OnOk result (page.new ≡ page.old ++ month_weeks labels.now bookings.now first 0 count) }
{
    for week in 0..count {
        push_week_if_in(alloc, page, line, labels, bookings, first, week)?;
    }
    Ok(())
}

/// Adds the week that is so many after it, if it is one of the month.
#[tactic(auto, unfolding(crate::specs::Weeks::week_if_in))]
fn push_week_if_in(
    alloc: Global,
    page: &mut Page,
    line: &mut String,
    labels: &Labels<'_>,
    bookings: &[Booking],
    first: Day,
    week: u8,
) -> Result<(), AllocError>
    ensures { OnOk result (page.new ≡ page.old ++ week_if_in labels.now bookings.now first week) }
{
    let day = day_numbered(week_number(first, week));
    push_week_on(alloc, page, line, labels, bookings, first, week, day)
}

/// The number of the day that is so many weeks after the first.
fn week_number(first: Day, week: u8) -> i32
    ensures { result ≡ first +ℤ pos (7 * week) }
{
    first.number() + i32::from(7 * u16::from(week))
}

/// Adds the week of a day, if there is one and its Monday is of the month, or it is the first.
fn push_week_on(
    alloc: Global,
    page: &mut Page,
    line: &mut String,
    labels: &Labels<'_>,
    bookings: &[Booking],
    first: Day,
    week: u8,
    day: Option<Day>,
) -> Result<(), AllocError>
    ensures { OnOk result (page.new ≡ page.old ++ week_on labels.now bookings.now first week day) }
{
    let Some(day) = day else {
        return Ok(());
    };
    if week == 0 || is_month_of(first, week_start(day)) {
        push_week(alloc, page, line, labels, bookings, first, day)
    } else {
        Ok(())
    }
}

/// Adds the week of a day: its load, and its days.
#[tactic(auto, unfolding(crate::specs::Weeks::week_row))]
fn push_week(
    alloc: Global,
    page: &mut Page,
    line: &mut String,
    labels: &Labels<'_>,
    bookings: &[Booking],
    first: Day,
    day: Day,
) -> Result<(), AllocError>
    ensures { OnOk result (page.new ≡ page.old ++ week_row labels.now bookings.now first day) }
{
    let days = week_days(alloc, day)?;
    page.open(Tag::Row)?;
    push_load(page, line, week_load(day, bookings))?;
    push_days(page, line, labels, bookings, first, &days)?;
    page.close(Tag::Row)
}

/// Adds the cell of each day.
fn push_days(
    page: &mut Page,
    line: &mut String,
    labels: &Labels<'_>,
    bookings: &[Booking],
    first: Day,
    days: &[Day],
) -> Result<(), AllocError>
    ensures { OnOk result (page.new ≡ page.old ++ flat_map (day_cell labels.now bookings.now first) days.now) }
{
    for day in days {
        push_day(page, line, labels, bookings, first, *day)?;
    }
    Ok(())
}

/// Adds the cell of a day: its number, and a block for each hearing on it.
#[tactic(auto, unfolding(crate::specs::Weeks::day_cell))]
fn push_day(
    page: &mut Page,
    line: &mut String,
    labels: &Labels<'_>,
    bookings: &[Booking],
    first: Day,
    day: Day,
) -> Result<(), AllocError>
    ensures { OnOk result (page.new ≡ page.old ++ day_cell labels.now bookings.now first day) }
{
    let tag = date_tag(is_month_of(first, day));
    page.open(tag)?;
    set_number(line, day.day_in_month())?;
    page.text(line)?;
    push_blocks(page, line, labels, bookings, day)?;
    page.close(tag)
}

/// The cell of a day of the month, or of another.
fn date_tag(of_month: bool) -> Tag
    ensures { result ≡ date_tag of_month }
{
    if of_month {
        Tag::DateCell
    } else {
        Tag::OutCell
    }
}

/// Makes the line a number.
fn set_number(line: &mut String, number: u8) -> Result<(), AllocError>
    ensures { OnOk result (string_bytes line.new ≡ decimal number) }
{
    line.clear();
    push_number(line, u64::from(number))
}

/// Adds a block for each of the bookings that is on the day.
fn push_blocks(
    page: &mut Page,
    line: &mut String,
    labels: &Labels<'_>,
    bookings: &[Booking],
    day: Day,
) -> Result<(), AllocError>
    ensures { OnOk result (page.new ≡ page.old ++ flat_map (block_if_on labels.now day) bookings.now) }
{
    for booking in bookings {
        push_block_if_on(page, line, labels, day, booking)?;
    }
    Ok(())
}

/// Adds a block for a booking, if it is on the day.
#[tactic(auto, unfolding(crate::specs::Weeks::block_if_on))]
fn push_block_if_on(
    page: &mut Page,
    line: &mut String,
    labels: &Labels<'_>,
    day: Day,
    booking: &Booking,
) -> Result<(), AllocError>
    ensures { OnOk result (page.new ≡ page.old ++ block_if_on labels.now day booking.now) }
{
    if booking.day == day {
        push_block(page, line, labels, booking)
    } else {
        Ok(())
    }
}

/// Adds a block: when it is, and what is heard.
#[tactic(auto, unfolding(crate::specs::Weeks::block))]
fn push_block(
    page: &mut Page,
    line: &mut String,
    labels: &Labels<'_>,
    booking: &Booking,
) -> Result<(), AllocError>
    ensures { OnOk result (page.new ≡ page.old ++ block labels.now booking.now) }
{
    page.open(Tag::Block)?;
    set_span(line, booking.first, booking.count)?;
    page.text(line)?;
    push_case_link(page, line, labels, booking.case)?;
    set_motion(line, booking.motion)?;
    page.text(line)?;
    page.close(Tag::Block)
}

/// Makes the line when a hearing is, with a blank after it.
fn set_span(line: &mut String, first: u8, count: u8) -> Result<(), AllocError>
    ensures { OnOk result (string_bytes line.new ≡ span_words first count ++ codes " ") }
{
    line.clear();
    push_span(line, first, count)?;
    line.push_str(" ")
}
