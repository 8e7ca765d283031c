//! What moves the time for an appeal.

ghost use Rattle.std.specs.Prelude.{◌≡◌, ◌++◌, OnOk, string_bytes};
ghost use Rattle.reason_notes.specs.Appeal.{is_appeal, is_appeal_length, is_filing_after, is_moved_by, is_of_appeal, marks_appeal, moved_note, note_if_moved};

use crate::warnings::moves_appeal;
use court_clock::Direction;
use reason_texts::push_note;
use rule_periods::{DeadlineRow, Entered, Length, Mark, Period};
use rule6::{Act, Filing};
use std::alloc::AllocError;

/// Adds the note on a deadline for that act of another deadline of its case, where there is one: that it is a motion which, if timely,
/// gives the time for an appeal another beginning (Fed. R. App. P. 4(a)(4)). `Err` says that memory ran out.
#[tactic(auto, unfolding(crate::specs::Appeal::moved_note))]
pub fn push_moved_note(
    text: &mut String,
    row: &DeadlineRow,
    other: &DeadlineRow,
    done: Option<Filing>,
) -> Result<(), AllocError>
    ensures { OnOk result (string_bytes text.new ≡ string_bytes text.old ++ moved_note row.now other.now done) }
{
    push_if_moved(text, is_moved_by(row, other), done)
}

/// Adds the note on an act that was done, where it moves the time.
fn push_if_moved(text: &mut String, moved: bool, done: Option<Filing>) -> Result<(), AllocError>
    ensures { OnOk result (string_bytes text.new ≡ string_bytes text.old ++ note_if_moved moved done) }
{
    match done {
        Some(filing) if moved => push_note(
            text,
            Some(filing.day),
            "a motion, if timely, moves this: FRAP 4(a)(4)",
            "note",
        ),
        _ => Ok(()),
    }
}

/// Whether an act of another deadline moves the time of this one: this is a time for an appeal, the act would be a motion about the
/// judgment, and the events of both are on one day.
fn is_moved_by(row: &DeadlineRow, other: &DeadlineRow) -> bool
    ensures { result ≡ is_moved_by row.now other.now }
{
    is_appeal(row.period())
        && moves_appeal(other.period())
        && row.event().day() == other.event().day()
}

/// Whether a period is a time for an appeal (Fed. R. App. P. 4(a)(1)).
fn is_appeal(period: Period) -> bool
    ensures { result ≡ is_appeal period }
{
    match period {
        Period::Rule(_) => false,
        Period::Entered(entered) => is_of_appeal(entered),
    }
}

/// Whether an entered period has the form of such a time.
fn is_of_appeal(entered: Entered) -> bool
    ensures { result ≡ is_of_appeal entered }
{
    is_appeal_length(entered.length)
        && is_filing_after(entered.direction, entered.act)
        && !entered.served
        && marks_appeal(entered.mark)
}

/// Whether a length is that of such a time: 30 days, or 60 where the United States, its agency or officer is a party.
fn is_appeal_length(length: Length) -> bool
    ensures { result ≡ is_appeal_length length }
{
    match length {
        Length::Days(days) => days == 30 || days == 60,
        Length::Hours(_) | Length::ToDay | Length::ToTime => false,
    }
}

/// Whether a paper is to be filed after an event.
fn is_filing_after(direction: Direction, act: Act) -> bool
    ensures { result ≡ is_filing_after direction act }
{
    match (direction, act) {
        (Direction::After, Act::Filing) => true,
        _ => false,
    }
}

/// Whether a mark is the one that such a time has.
fn marks_appeal(mark: Mark) -> bool
    ensures { result ≡ marks_appeal mark }
{
    matches!(mark, Mark::Rule60b)
}
