//! An office of clerks who take turns.

ghost use Rattle.std.specs.Prelude.{◌≡◌, []};
ghost use Rattle.docket_rows.specs.Words.{setup_of};
ghost use Rattle.published_docket.specs.Words.{trail_view};

use crate::calls::{Line, lines_of};
use crate::in_turn::{OfficeInTurn, push_calls};
use anyhow::{Result, bail};
use clerk_seats::{NamesOffice, Office, OfficeError};
use court_days::Court;
use published_docket::Publisher;
use std::alloc::Global;
use std::marker::Brand;
use std::sync::Wait;
use std::sync::ledger::Blank;

/// How often an office is opened again where one of its seats got no place to read from, which may come without cause.
pub const TRIES: u32 = 8;

/// How an office is opened.
#[derive(Clone, Copy)]
pub struct Opening {
    /// How many seats it has.
    pub seats: u8,
    /// How many entries its journal takes.
    pub number: u32,
}

/// Opens an office for this court, and adds these lines, each of which is a call of one of its seats, followed by what
/// it is answered.
pub fn push_office<R: Wait + Eprint>(
    rt: &R,
    alloc: Global,
    text: &mut String,
    court: &Court,
    opening: Opening,
    lines: &str,
) -> Result<()> {
    let calls = lines_of(alloc, court, lines)?;
    for _try in 0..TRIES {
        if is_opened(rt, alloc, text, court, opening, calls.as_slice())? {
            return Ok(());
        }
    }
    bail!("no office was opened in {TRIES} tries")
}

/// Opens an office once, and makes the calls. False where a seat got no place to read from, or no memory was left.
fn is_opened<R: Wait + Eprint>(
    rt: &R,
    alloc: Global,
    text: &mut String,
    court: &Court,
    opening: Opening,
    calls: &[Line],
) -> Result<bool> {
    match Publisher::new(alloc, court, opening.seats) {
        Ok(publisher) => {
            let blank = Blank::new(64);
            is_done::<Brand, R>(rt, alloc, text, court, opening, blank, publisher, calls)
        }
        Err(_) => {
            text.push_str("out of memory\n")?;
            Ok(false)
        }
    }
}

/// Opens the office and makes the calls. False where a seat got no place to read from, or no memory was left.
fn is_done<L: NamesOffice, R: Wait + Eprint>(
    rt: &R,
    alloc: Global,
    text: &mut String,
    court: &Court,
    opening: Opening,
    blank: Blank,
    publisher: Publisher,
    calls: &[Line],
) -> Result<bool>
    requires name { blank.name ≡ L.name }
    requires parts { blank.parts ≡ L.parts }
    requires all { L.parts ≡ 64 }
    requires publisher { publisher ≡ record { parts = L.setup; trail = trail_view L.history [] } }
    requires court { L.setup ≡ setup_of court.now }
{
    let Opening { seats, number } = opening;
    match Office::<L>::new(rt, alloc, blank, publisher, court, seats, number) {
        Ok((office, seats)) => {
            text.push_str("opened\n")?;
            push_calls(
                rt,
                alloc,
                text,
                court,
                OfficeInTurn::new(alloc, office, seats),
                calls,
            )?;
            Ok(true)
        }
        Err(OfficeError::BadSeats) => {
            text.push_str("refused 1 BadSeats\n")?;
            Ok(true)
        }
        Err(OfficeError::BadLimit) => {
            text.push_str("refused 2 BadLimit\n")?;
            Ok(true)
        }
        Err(OfficeError::NoReader) => {
            rt.eprintln("a seat got no place to read from")?;
            Ok(false)
        }
        Err(OfficeError::OutOfMemory) => {
            text.push_str("out of memory\n")?;
            Ok(false)
        }
    }
}
