//! The entries that had come by a moment, so that a docket can be shown as it was.
ghost use Rattle.std.specs.Prelude.{◌≡◌, ◌≤◌, ℕ, List};
ghost use Rattle.desk_journal.specs.Words.{StampView, batch_of};
ghost use Rattle.desk_program.specs.AsOf.{IsKeptAt, WhatComesLaterChangesNothing};

use desk_entries::is_row;
use desk_journal::Stamp;

/// A moment in the course of a journal.
#[derive(Clone, Copy, Debug, PartialEq, Eq)]
pub enum Moment {
    /// Right after the row of that number, counted from 1; a correction that was kept after the row counts for nothing. Right after the
    /// first court's file it is 0.
    Row(u32),
    /// The end of that second of UTC, counted from 1970-01-01T00:00:00.
    Second(u64),
}

// How many entries there are up to the row of this number.
fn kept_at_row(entries: &[Vec<u8>], number: u32) -> usize
    ensures { (stamps : List StampView) → IsKeptAt (Moment.Row number) (batch_of entries.now) stamps result }
{
    let mut left = number;
    for place in 1..entries.len() {
        if left == 0 {
            return place;
        }
        if is_row(&entries[place]) {
            left -= 1;
        }
    }
    entries.len()
}

// How many entries there are before the first that is of a later second. One that has no stamp is of no later second.
fn kept_at_second(entries: &[Vec<u8>], stamps: &[Stamp], second: u64) -> usize
    ensures { IsKeptAt (Moment.Second second) (batch_of entries.now) stamps.now result }
{
    for place in 1..entries.len().min(stamps.len()) {
        if stamps[place].time() > second {
            return place;
        }
    }
    entries.len()
}

/// How many entries of a journal, with these stamps, had come by a moment. The first, a court's file, always counts.
pub fn kept_at(entries: &[Vec<u8>], stamps: &[Stamp], moment: Moment) -> usize
    ensures { IsKeptAt moment (batch_of entries.now) stamps.now result }
{
    match moment {
        Moment::Row(number) => kept_at_row(entries, number),
        Moment::Second(second) => kept_at_second(entries, stamps, second),
    }
}

/// A law, the contract of a function that does nothing: once an entry comes after a moment, what comes later changes nothing
/// of what had come by then.
pub fn what_comes_later_changes_nothing()
    ensures { WhatComesLaterChangesNothing }
{}
