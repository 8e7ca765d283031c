//! The close of an office.

ghost use Rattle.std.specs.Prelude.{◌≡◌};

use crate::dockets::push_docket;
use anyhow::Result;
use clerk_seats::{CloseError, Journal, NamesOffice, Office, Tally};
use court_days::Court;
use docket_rows::{Answer, Command};
use office_texts::{push_answer, push_number};
use std::alloc::{AllocError, Global};
use std::sync::Wait;
use versioned_steps::Entry;

/// Closes the office with these tallies, and adds what that was answered: the entries of the journal, a line each, and the
/// sheets and calendars of the docket after it. It gives the office and the tallies back where one is missing.
pub fn push_closed<L: NamesOffice, R: Wait>(
    rt: &R,
    alloc: Global,
    text: &mut String,
    court: &Court,
    office: Office<L>,
    tallies: Vec<Tally<L>>,
) -> Result<Option<(Office<L>, Vec<Tally<L>>)>>
    requires all { L.parts ≡ 64 }
{
    match office.close(rt, tallies) {
        Ok(journal) => {
            push_journal(alloc, text, court, &journal)?;
            Ok(None)
        }
        Err(refused) => {
            let CloseError::MissingTally(number) = refused.cause else {
                unreachable!()
            };
            text.push_str("missing ")?;
            push_number(text, u64::from(number))?;
            text.push_str("\n")?;
            Ok(Some((refused.office, refused.tallies)))
        }
    }
}

/// Adds the entries of a journal, a line each, and the sheets and calendars of the docket after it.
fn push_journal(
    alloc: Global,
    text: &mut String,
    court: &Court,
    journal: &Journal,
) -> Result<(), AllocError> {
    text.push_str("closed\n")?;
    push_entries(text, court, journal.entries())?;
    push_docket_of(alloc, text, court, journal)
}

/// Adds the sheets and calendars of the docket after a journal.
fn push_docket_of(
    alloc: Global,
    text: &mut String,
    court: &Court,
    journal: &Journal,
) -> Result<(), AllocError> {
    let docket = journal.docket(alloc, court)?;
    push_docket(alloc, text, court, &docket)
}

/// Adds a line for each entry: its place, its clerk and its answer.
fn push_entries(
    text: &mut String,
    court: &Court,
    entries: &[Entry<Command, Answer>],
) -> Result<(), AllocError> {
    let mut place = 0u64;
    for entry in entries {
        place = place.saturating_add(1);
        push_number(text, place)?;
        text.push_str(" ")?;
        push_number(text, u64::from(entry.clerk))?;
        text.push_str(" ")?;
        push_answer(text, court.clock(), &entry.answer)?;
        text.push_str("\n")?;
    }
    Ok(())
}
