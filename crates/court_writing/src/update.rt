//! Years that are added to a court's file.

ghost use Rattle.std.specs.Prelude.{◌≡◌, ◌≤◌, ◌<ℤ◌, ◌≤ℤ◌, int_le, option_map, pos, slice_get, string_bytes, IfOk};
ghost use Rattle.std.specs.Bool.{OnFalse, OnTrue};
ghost use Rattle.court_days.specs.Words.{desk_court_in, file_of};
ghost use Rattle.court_holidays.specs.States.Words.{on};
ghost use Rattle.court_writing.specs.Courts.{of_district, zone_text};
ghost use Rattle.court_writing.specs.Update.{IsRefused, IsUpdateFrom, IsUpdateOf, court_in_line, court_said, ends_late_enough, has_room, is_year, line_said, refusal, refusal_of, words};
ghost use Rattle.court_writing.specs.declared.update.UpdateFault.TheVariants.{OutOfMemory};

use crate::courts::CourtName;
use crate::extended::extended;
use crate::grown::check_grown;
use crate::writing::last_day;
use court_clock::Day;
use court_days::{Court, Days};
use court_file_text::{CourtFault, Key};
use court_holidays::{count_through, on};
use std::alloc::{AllocError, Global};
use thiserror::Error;

/// Why no years are added to a court's file.
#[derive(Clone, Copy, Debug, PartialEq, Eq, Error)]
pub enum UpdateFault {
    /// The bytes are no court's file.
    #[error("the court's file has a fault: 'docket court check' says which")]
    NotRead,
    /// No line says of which court the file is.
    #[error("the court's file doesn't say of which court it is: none of its lines begins with '# Written by `docket court write --court' and a court's name; put that line in, or add the days by hand")]
    NoCourt,
    /// The year isn't one of 2016 to 2199, the file ends before 2015-12-31, or it would have more than 36,525 days.
    #[error("the year has to be one of 2016 to 2199, and the file has to end on 2015-12-31 or later and may have 36,525 days at most")]
    BadYear,
    /// The file goes up to this day, which isn't before the end of the year.
    #[error("the court's file goes up to {0} already: give a later year")]
    Reached(Day),
    /// It isn't found where the value of the key ends.
    #[error("the end of '{0}' isn't found: write it as 'docket court write' does, or add the days by hand")]
    NoPlace(Key),
    /// The file lists this day after its last day, and the court's lists don't.
    #[error("the court's file lists {0}, which is after its last day and isn't in the court's lists: take it out, update the file, and put it in again")]
    Beyond(Day),
    /// The text that was made isn't that file with those years, as where the table of names has a day after the last one.
    #[error("the file with those years isn't read as it has to be: take out what it has of days after its last day, in its lists and in '[holiday_names]', and update it again")]
    NotReadBack,
    /// Memory ran out.
    #[error("out of memory")]
    OutOfMemory,
}

impl From<AllocError> for UpdateFault {
    ghost from_gives = { λ _ e. e ≡ OutOfMemory };

    fn from(_: AllocError) -> UpdateFault {
        UpdateFault::OutOfMemory
    }
}

/// A court's file with years added.
#[derive(Debug, Drop)]
pub struct Updated {
    /// The file.
    pub file: Vec<u8>,
    /// What was added, line by line.
    pub said: String,
}

/// Adds years to a court's file, up to the end of that one: the days that the court's lists have after the file's last day, each list's
/// at its end and their names at the end of the table of names. All other bytes stay. Of the faults the first that applies of
/// `NotRead`, `NoCourt`, `BadYear` and `Reached` comes, and the others after these; `OutOfMemory` says that memory ran out.
#[tactic(auto, using(crate::proofs::UpdateLemmas::memory_refused, crate::proofs::UpdateLemmas::not_read))]
pub fn court_update(alloc: Global, text: &[u8], to: u16) -> Result<Updated, UpdateFault>
    ensures updated { IfOk result (λ updated. IsUpdateOf text.now to updated.file.items (string_bytes updated.said)) }
    ensures refused { IsRefused (refusal (desk_court_in text.now) (court_said text.now) to) result }
{
    match Court::from_desk_bytes(alloc, text) {
        Ok(court) => update_of(alloc, text, &court, to),
        Err(CourtFault::OutOfMemory) => Err(UpdateFault::OutOfMemory),
        Err(_) => Err(UpdateFault::NotRead),
    }
}

/// The same of the file of that court.
#[tactic(auto, using(crate::proofs::UpdateLemmas::no_court, crate::proofs::UpdateLemmas::bad_year, crate::proofs::UpdateLemmas::reached, crate::proofs::UpdateLemmas::late))]
fn update_of(alloc: Global, text: &[u8], court: &Court, to: u16) -> Result<Updated, UpdateFault>
    ensures updated { IfOk result (λ updated. IsUpdateFrom (file_of court.now) text.now to updated.file.items (string_bytes updated.said)) }
    ensures refused { IsRefused (refusal_of (file_of court.now) (court_said text.now) to) result }
{
    let Some(named) = court_said(text) else {
        return Err(UpdateFault::NoCourt);
    };
    let before = court.days();
    if !is_year(before, to) {
        return Err(UpdateFault::BadYear);
    }
    if reaches(before, to) {
        return Err(UpdateFault::Reached(before.to()));
    }
    let updated = extended(alloc, named.state, text, before, to)?;
    check_grown(alloc, named.state, before, to, &updated.file)?;
    Ok(updated)
}

/// Whether the year is one up to which the file with these days can go.
fn is_year(days: &Days, to: u16) -> bool
    ensures value { result ≡ is_year days.now to }
    ensures years { OnTrue result ((2016 ≤ to) × (to ≤ 2199)) }
    ensures early { OnTrue result (pos 0 ≤ℤ days.now.to) }
{
    2016 <= to && to <= 2199 && ends_late_enough(days) && has_room(days, to)
}

/// Whether the file with these days goes up to the first year that can be added.
fn ends_late_enough(days: &Days) -> bool
    ensures value { result ≡ ends_late_enough days.now }
    ensures early { OnTrue result (pos 0 ≤ℤ days.now.to) }
{
    on(2015, 12, 31).number() <= days.to().number()
}

/// Whether the file with these days can have all days up to the end of the year.
fn has_room(days: &Days, to: u16) -> bool
    requires first { 2016 ≤ to }
    requires last { to ≤ 2199 }
    ensures { result ≡ has_room days.now to }
{
    count_through(days.from(), last_day(to)) <= 36_525
}

/// Whether the file with these days goes up to the end of the year already.
fn reaches(days: &Days, to: u16) -> bool
    requires first { 2016 ≤ to }
    requires last { to ≤ 2199 }
    ensures value { result ≡ int_le (on 12 31 (pos to)) days.now.to }
    ensures room { OnFalse result (days.now.to <ℤ pos 84005) }
{
    last_day(to).number() <= days.to().number()
}

/// The court that a text says it is the file of: the eighth word of the line that says so is its code.
pub fn court_said(text: &[u8]) -> Option<CourtName>
    ensures { option_map (λ c. of_district c.code.now c.state (zone_text c.zone)) result ≡ court_said text.now }
{
    match line_said(text) {
        Some(line) => court_in_line(line),
        None => None,
    }
}

/// The line of a text that says so.
fn line_said(text: &[u8]) -> Option<&[u8]>
    ensures { option_map (λ line. line.now) result ≡ line_said text.now }
{
    text.split(|byte| *byte == b'\n').find(|line| line.starts_with(
        b"# Written by `docket court write --court ",
    ))
}

/// The court that such a line names.
fn court_in_line(line: &[u8]) -> Option<CourtName>
    ensures { option_map (λ c. of_district c.code.now c.state (zone_text c.zone)) result ≡ court_in_line line.now }
{
    match eighth_word(line) {
        Some(word) => CourtName::coded(word),
        None => None,
    }
}

/// The eighth of the words of a line, between blanks.
fn eighth_word(line: &[u8]) -> Option<&[u8]>
    ensures { option_map (λ word. word.now) result ≡ slice_get (words line.now) 7 }
{
    line.split(|byte| *byte == b' ').nth(7)
}
