//! The grid of a judge's week: its days side by side, and a row for each quarter of an hour, of which the half hours are
//! labelled.

ghost use Rattle.std.specs.Prelude.{◌≡◌, ◌+◌, ◌-◌, ◌≤◌, ◌<◌, OnOk};
ghost use Rattle.std.specs.List.{flat_map, range_with_len};
ghost use Rattle.office_texts.specs.Words.{AddsText};
ghost use Rattle.report_texts.specs.Grid.{cell, cell_words, day_cell, day_name_cell, end_row, first_row, grid, header, is_taken_at, label, rule, slot_row, taken_at};

use crate::days::push_short_day;
use court_clock::Clock;
use docket_selection::DayBookings;
use hearing_slots::Booking;
use office_texts::push_number;
use reason_texts::{push_minute, push_spaces};
use std::alloc::{AllocError, Global};

/// How wide a day is.
const WIDTH: usize = 9;

/// Adds the grid, from the half hour in which the clerk's office opens to that in which it closes.
#[tactic(auto, unfolding(crate::specs::Grid::grid))]
pub(crate) fn push_grid(
    alloc: Global,
    text: &mut String,
    clock: &Clock,
    week: &[DayBookings],
) -> Result<(), AllocError>
    ensures { OnOk result (AddsText text.old text.new (grid clock.now week.now)) }
{
    push_header(alloc, text, week)?;
    push_rule(text)?;
    push_rows(text, first_row(clock), end_row(clock), week)
}

/// The slot with which the half hour begins in which the clerk's office opens.
fn first_row(clock: &Clock) -> u32
    ensures { result ≡ first_row clock.now }
{
    u32::from(clock.opens()) / 30 * 2
}

/// The slot with which the half hour ends in which the clerk's office closes.
fn end_row(clock: &Clock) -> u32
    ensures value { result ≡ end_row clock.now }
    ensures few { result ≤ 96 }
{
    (u32::from(clock.closes()) + 29) / 30 * 2
}

/// Adds the line of the days.
#[tactic(auto, unfolding(crate::specs::Grid::header))]
fn push_header(alloc: Global, text: &mut String, week: &[DayBookings]) -> Result<(), AllocError>
    ensures { OnOk result (AddsText text.old text.new (header week.now)) }
{
    text.push_str("     ")?;
    push_day_names(alloc, text, week)?;
    text.push_str("|\n")
}

/// Adds the name of each day.
fn push_day_names(alloc: Global, text: &mut String, week: &[DayBookings]) -> Result<(), AllocError>
    ensures { OnOk result (AddsText text.old text.new (flat_map day_name_cell week.now)) }
{
    for day in week {
        push_day_name(alloc, text, day)?;
    }
    Ok(())
}

/// Adds the name of a day.
fn push_day_name(alloc: Global, text: &mut String, day: &DayBookings) -> Result<(), AllocError>
    ensures { OnOk result (AddsText text.old text.new (day_name_cell day.now)) }
{
    text.push_str("|")?;
    push_short_day(alloc, text, day.day)
}

/// Adds the line below seven days.
#[tactic(auto, unfolding(crate::specs::Grid::rule))]
fn push_rule(text: &mut String) -> Result<(), AllocError>
    ensures { OnOk result (AddsText text.old text.new rule) }
{
    text.push_str("-----+---------+---------+---------+---------+---------+---------+---------+\n")
}

/// Adds a row for each slot from the first up to the end.
fn push_rows(
    text: &mut String,
    first: u32,
    end: u32,
    week: &[DayBookings],
) -> Result<(), AllocError>
    requires few { end ≤ 96 }
    ensures { OnOk result (AddsText text.old text.new (flat_map (slot_row week.now) (range_with_len first (end - first)))) }
{
    for slot in first..end {
        push_row(text, slot, week)?;
    }
    Ok(())
}

/// Adds the row of a slot.
#[tactic(auto, unfolding(crate::specs::Grid::slot_row))]
fn push_row(text: &mut String, slot: u32, week: &[DayBookings]) -> Result<(), AllocError>
    requires few { slot < 96 }
    ensures { OnOk result (AddsText text.old text.new (slot_row week.now slot)) }
{
    push_label(text, slot)?;
    push_cells(text, slot, week)?;
    text.push_str("|\n")
}

/// Adds the time of a half hour, or as many spaces.
fn push_label(text: &mut String, slot: u32) -> Result<(), AllocError>
    requires few { slot < 96 }
    ensures { OnOk result (AddsText text.old text.new (label slot)) }
{
    if slot % 2 == 0 {
        push_minute(text, 15 * slot as u16)
    } else {
        text.push_str("     ")
    }
}

/// Adds what each day has at a slot.
fn push_cells(text: &mut String, slot: u32, week: &[DayBookings]) -> Result<(), AllocError>
    ensures { OnOk result (AddsText text.old text.new (flat_map (day_cell slot) week.now)) }
{
    for day in week {
        push_day_cell(text, slot, day.bookings.as_slice())?;
    }
    Ok(())
}

/// Adds what the bookings of a day have at a slot.
#[tactic(auto, unfolding(crate::specs::Grid::cell), using(crate::proofs::GridLemmas::length_after))]
fn push_day_cell(text: &mut String, slot: u32, bookings: &[Booking]) -> Result<(), AllocError>
    ensures { OnOk result (AddsText text.old text.new (cell slot bookings.now)) }
{
    text.push_str("|")?;
    let before = text.len();
    push_cell_words(text, slot, taken_at(slot, bookings))?;
    let written = text.len() - before;
    push_spaces(text, WIDTH.saturating_sub(written))
}

/// The booking that takes the slot.
fn taken_at(slot: u32, bookings: &[Booking]) -> Option<Booking>
    ensures { result ≡ taken_at slot bookings.now }
{
    bookings
        .iter()
        .copied()
        .find(|booking| is_taken_at(slot, booking))
}

/// Whether the booking takes the slot.
fn is_taken_at(slot: u32, booking: &Booking) -> bool
    ensures { result ≡ is_taken_at slot booking.now }
{
    let first = u32::from(booking.first);
    first <= slot && slot < first + u32::from(booking.count)
}

/// Adds the case and the motion in the first slot that a booking takes, and a mark in the others.
fn push_cell_words(text: &mut String, slot: u32, booking: Option<Booking>) -> Result<(), AllocError>
    ensures { OnOk result (AddsText text.old text.new (cell_words slot booking)) }
{
    match booking {
        Some(booking) if u32::from(booking.first) == slot => {
            push_number(text, u64::from(booking.case))?;
            text.push_str("/")?;
            push_number(text, u64::from(booking.motion))
        }
        Some(_) => text.push_str(" :"),
        None => Ok(()),
    }
}
