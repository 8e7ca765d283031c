//! Faults of the zone, the hours and the span.

ghost use Rattle.std.specs.Prelude.{◌≡◌, ◌++◌, IfOk, OnOk, None};
ghost use Rattle.std.specs.Result.{result_ok};
ghost use Rattle.toml.specs.View.{table_view};
ghost use Rattle.jiff.specs.Words.{plain_zone};
ghost use Rattle.court_clock.specs.Words.{zone_view};
ghost use Rattle.court_days.specs.Court.{is_span, zone_at};
ghost use Rattle.court_file_text.specs.Words.{Gives, date_at, minute_at};
ghost use Rattle.court_file_check.specs.Faults.{efiling_faults, extent_faults, faulty, hours_faults, order_faults, span_faults, zone_faults};

use crate::faults::Faults;
use court_clock::{Day, zone_from_text};
use court_file_text::{CourtFault, Key, date_at, minute_at, minute_if_there, text_at};
use jiff::tz::TimeZone;
use std::alloc::{AllocError, Global};
use toml::Table;

/// The most days that a calendar may cover.
const MOST_DAYS: i32 = 36_525;

/// Adds the fault of the zone, if it has one.
#[tactic(auto, using(crate::proofs::ReadLemmas::fails_is), unfolding(crate::specs::Faults::zone_faults))]
pub(crate) fn check_zone(file: &Table, faults: &mut Faults) -> Result<(), AllocError>
    ensures { OnOk result (faults.new ≡ faults.old ++ zone_faults (table_view file.now)) }
{
    match zone_at(file) {
        Ok(_) => Ok(()),
        Err(fault) => faults.add_read(Key::Zone, None, fault),
    }
}

/// The zone.
#[tactic(auto, unfolding(court_days::specs::Court::zone_at))]
fn zone_at(file: &Table) -> Result<TimeZone<'static>, CourtFault>
    ensures { Gives (λ z. zone_view (plain_zone z)) result (zone_at (table_view file.now)) }
{
    let text = text_at(file, Key::Zone)?;
    match zone_from_text(text) {
        Some(zone) => Ok(zone),
        None => Err(CourtFault::BadZone),
    }
}

/// Adds the faults of the office's hours.
#[tactic(auto, unfolding(crate::specs::Faults::hours_faults))]
pub(crate) fn check_hours(file: &Table, faults: &mut Faults) -> Result<(), AllocError>
    ensures { OnOk result (faults.new ≡ faults.old ++ hours_faults (table_view file.now)) }
{
    let opens = hour_of(file, Key::Opens, faults)?;
    let closes = hour_of(file, Key::Closes, faults)?;
    check_order(opens, closes, faults)
}

/// The minute at a key. Adds its fault, where it has one, and then there is none.
#[tactic(auto, using(crate::proofs::ReadLemmas::fails_is))]
fn hour_of(file: &Table, key: Key, faults: &mut Faults) -> Result<Option<u16>, AllocError>
    ensures added { OnOk result (faults.new ≡ faults.old ++ faulty key None (minute_at key (table_view file.now))) }
    ensures read { IfOk result (λ hour. hour ≡ result_ok (minute_at key (table_view file.now))) }
{
    match minute_at(file, key) {
        Ok(minute) => Ok(Some(minute)),
        Err(fault) => {
            faults.add_read(key, None, fault)?;
            Ok(None)
        }
    }
}

/// Adds the fault of the minute to which electronic filing runs, if it has one.
#[tactic(auto, using(crate::proofs::ReadLemmas::fails_is), unfolding(crate::specs::Faults::efiling_faults))]
pub(crate) fn check_efiling(file: &Table, faults: &mut Faults) -> Result<(), AllocError>
    ensures { OnOk result (faults.new ≡ faults.old ++ efiling_faults (table_view file.now)) }
{
    match minute_if_there(file, Key::EfilingUntil) {
        Ok(_) => Ok(()),
        Err(fault) => faults.add_read(Key::EfilingUntil, None, fault),
    }
}

/// Adds that the office doesn't open before it closes.
fn check_order(
    opens: Option<u16>,
    closes: Option<u16>,
    faults: &mut Faults,
) -> Result<(), AllocError>
    ensures { OnOk result (faults.new ≡ faults.old ++ order_faults opens closes) }
{
    match (opens, closes) {
        (Some(opens), Some(closes)) => {
            if opens < closes {
                return Ok(());
            }
            faults.add_read(Key::Closes, None, CourtFault::BadHours)
        }
        _ => Ok(()),
    }
}

/// Adds the faults of the span.
#[tactic(auto, unfolding(crate::specs::Faults::span_faults))]
pub(crate) fn check_span(alloc: Global, file: &Table, faults: &mut Faults) -> Result<(), AllocError>
    ensures { OnOk result (faults.new ≡ faults.old ++ span_faults (table_view file.now)) }
{
    let from = day_of(alloc, file, Key::From, faults)?;
    let to = day_of(alloc, file, Key::To, faults)?;
    check_extent(from, to, faults)
}

/// The date at a key. Adds its fault, where it has one, and then there is none.
#[tactic(auto, using(crate::proofs::ReadLemmas::fails_is))]
fn day_of(
    alloc: Global,
    file: &Table,
    key: Key,
    faults: &mut Faults,
) -> Result<Option<Day>, AllocError>
    ensures added { OnOk result (faults.new ≡ faults.old ++ faulty key None (date_at key (table_view file.now))) }
    ensures read { IfOk result (λ day. day ≡ result_ok (date_at key (table_view file.now))) }
{
    match date_at(alloc, file, key) {
        Ok(day) => Ok(Some(day)),
        Err(fault) => {
            faults.add_read(key, None, fault)?;
            Ok(None)
        }
    }
}

/// Adds that the span is none.
fn check_extent(from: Option<Day>, to: Option<Day>, faults: &mut Faults) -> Result<(), AllocError>
    ensures { OnOk result (faults.new ≡ faults.old ++ extent_faults from to) }
{
    match (from, to) {
        (Some(from), Some(to)) => {
            if is_span(from, to) {
                return Ok(());
            }
            faults.add_read(Key::To, None, CourtFault::BadSpan)
        }
        _ => Ok(()),
    }
}

/// Whether a calendar may cover the days from the first to the last.
fn is_span(from: Day, to: Day) -> bool
    ensures { result ≡ is_span from to }
{
    let first = from.number();
    let last = to.number();
    first <= last && last - first < MOST_DAYS
}
