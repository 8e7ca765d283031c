//! A run of several clerks.

ghost use Rattle.std.specs.Prelude.{IfOk};
ghost use Rattle.clerk_seats.specs.Words.{AreSeats, IsLimit};
ghost use Rattle.clerk_workers.specs.Words.{AreOfClerks};
ghost use Rattle.clerk_workers.specs.Shared.Text.{IsSharedText};

use crate::gates::Gate;
use crate::shared::attempt::attempt;
use crate::shared::shared_text::SharedText;
use court_days::Court;
use published_docket::Publisher;
use row_forms::Row;
use std::alloc::{AllocError, Global};
use std::marker::Brand;
use std::sync::ledger::Blank;
use std::sync::{Arc, Wait};
use std::thread::Threads;

/// The text of a run: the answer to each row in turn, then the sheets of all open cases and the calendars
/// of all judges. The clerks share an office, each works in a thread of its own, and the journal takes no more entries
/// than the limit. The gate is called for each row. `Err` says that memory ran out, that a thread couldn't be started,
/// or that eight offices in turn had no place for a clerk to read from. Conditions: 1 to 64 clerks, 0 to 1,000,000
/// entries, and each row is of one of these clerks.
pub fn run_shared<R: Threads + Wait + Sync, G: Gate>(
    rt: &R,
    alloc: Global,
    court: Court,
    clerks: u8,
    journal_limit: u32,
    rows: Vec<Row>,
    gate: &G,
) -> Result<SharedText, AllocError>
    requires clerks { AreSeats clerks }
    requires limit { IsLimit journal_limit }
    requires rows { AreOfClerks clerks rows.items }
    ensures { IfOk result (λ text. IsSharedText court clerks journal_limit rows.items text) }
{
    let court = Arc::new(alloc, court)?;
    for _try in 0..8 {
        let publisher = Publisher::new(alloc, &court, clerks)?;
        let blank = Blank::new(64);
        let made = attempt::<Brand, R, G>(
            rt,
            alloc,
            blank,
            publisher,
            &court,
            clerks,
            journal_limit,
            rows.as_slice(),
            gate,
        )?;
        if let Some((lines, closing)) = made {
            return Ok(SharedText::new(rows, lines, closing));
        }
    }
    Err(AllocError)
}
