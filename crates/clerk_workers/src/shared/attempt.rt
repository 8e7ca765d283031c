//! One office, from its opening to the text of its run.

ghost use Rattle.std.specs.Prelude.{◌≡◌, [], IfOk, IfSome, string_bytes};
ghost use Rattle.std.specs.Arc.{arc_value};
ghost use Rattle.docket_rows.specs.Words.{setup_of};
ghost use Rattle.published_docket.specs.Words.{trail_view};
ghost use Rattle.clerk_seats.specs.Words.{AreSeats, IsLimit, IsOpened};
ghost use Rattle.clerk_workers.specs.Words.{AreOfClerks};
ghost use Rattle.clerk_workers.specs.Shared.Merged.{shared_text};
ghost use Rattle.clerk_workers.specs.Shared.Text.{IsSharedText};

use crate::gates::Gate;
use crate::shared::closing::closing_of;
use crate::shared::lines::{Lines, lines_for};
use crate::shared::named::NamesCourt;
use crate::{Noted, run_noting};
use clerk_seats::{NamesOffice, Office, OfficeError, Seat};
use court_days::Court;
use published_docket::Publisher;
use row_forms::Row;
use std::alloc::{AllocError, Global};
use std::sync::ledger::Blank;
use std::sync::{Arc, Wait};
use std::thread::Threads;

// Opens an office. None where one of its seats got no place to read from.
fn opened<L: NamesOffice, R: Wait>(
    rt: &R,
    alloc: Global,
    blank: Blank,
    publisher: Publisher,
    court: &Court,
    clerks: u8,
    journal_limit: u32,
) -> Result<Option<(Office<L>, Vec<Seat<L>>)>, AllocError>
    requires name { blank.name ≡ L.name }
    requires parts { blank.parts ≡ L.parts }
    requires all { L.parts ≡ 64 }
    requires publisher { publisher ≡ record { parts = L.setup; trail = trail_view L.history [] } }
    requires court { L.setup ≡ setup_of court.now }
    requires clerks { AreSeats clerks }
    requires limit { IsLimit journal_limit }
    ensures { IfOk result (λ o. IfSome o (λ office. IsOpened clerks journal_limit office.0 office.1.items)) }
{
    match Office::<L>::new(rt, alloc, blank, publisher, court, clerks, journal_limit) {
        Ok(office) => Ok(Some(office)),
        Err(OfficeError::NoReader) => Ok(None),
        Err(OfficeError::OutOfMemory) => Err(AllocError),
        Err(OfficeError::BadSeats) => unreachable!(),
        Err(OfficeError::BadLimit) => unreachable!(),
    }
}

/// Opens an office, lets its clerks do all rows, closes it, and gives the lines of all clerks, of whom the first has the first
/// ones, and the text that comes after them. None where one of its seats got no place to read from; no row is done then.
/// Conditions: `L` names the blank and the publisher, the publisher is of this court, and the others are those of a run.
pub(crate) fn attempt<L: NamesOffice + NamesCourt + Send + Sync, R: Threads + Wait + Sync, G: Gate>(
    rt: &R,
    alloc: Global,
    blank: Blank,
    publisher: Publisher,
    court: &Arc<Court>,
    clerks: u8,
    journal_limit: u32,
    rows: &[Row],
    gate: &G,
) -> Result<Option<(Vec<Lines>, String)>, AllocError>
    requires name { blank.name ≡ L.name }
    requires parts { blank.parts ≡ L.parts }
    requires all { L.parts ≡ 64 }
    requires publisher { publisher ≡ record { parts = L.setup; trail = trail_view L.history [] } }
    requires setup { L.setup ≡ setup_of (arc_value court.now) }
    requires court { arc_value court.now ≡ L.court }
    requires clerks { AreSeats clerks }
    requires limit { IsLimit journal_limit }
    requires rows { AreOfClerks clerks rows.now }
    ensures { IfOk result (λ t. IfSome t (λ made. IsSharedText (arc_value court.now) clerks journal_limit rows.now (shared_text rows.now made.0.items (string_bytes made.1)))) }
{
    let office = opened::<L, R>(rt, alloc, blank, publisher, court, clerks, journal_limit)?;
    let Some((office, seats)) = office else {
        return Ok(None);
    };
    let blank_lines = lines_for(alloc, court, clerks)?;
    let Ok(noted) = run_noting::<L, Lines, R, G>(rt, alloc, seats, blank_lines, rows, gate) else {
        return Err(AllocError);
    };
    let Noted {
        notes: lines,
        tallies,
    } = noted;
    let Ok((journal, board)) = office.close_shown(rt, tallies) else {
        return Err(AllocError);
    };
    let closing = closing_of(alloc, court, &journal, board)?;
    Ok(Some((lines, closing)))
}
