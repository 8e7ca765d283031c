//! An office of clerks in threads of their own.

ghost use Rattle.std.specs.Prelude.{◌≡◌, []};
ghost use Rattle.docket_rows.specs.Words.{setup_of};
ghost use Rattle.published_docket.specs.Words.{trail_view};

use crate::offices::TRIES;
use crate::replay::push_replay;
use crate::work::{Task, Worked, work};
use anyhow::{Result, bail};
use clerk_seats::{Done, NamesOffice, Office, OfficeError, Tally};
use court_days::Court;
use office_texts::push_number;
use published_docket::Publisher;
use std::alloc::{AllocError, Global};
use std::marker::Brand;
use std::sync::Wait;
use std::sync::ledger::Blank;
use std::thread;
use std::thread::Threads;

/// Opens an office for this court, whose clerks each perform their commands in a thread of their own, closes it, and
/// adds what is found of its journal. None of that rests on which thread was first.
pub fn push_crowd<R: Threads + Wait + Eprint + Sync>(
    rt: &R,
    alloc: Global,
    text: &mut String,
    court: &Court,
    seats: u8,
    task: Task,
) -> Result<()> {
    for _try in 0..TRIES {
        let publisher = Publisher::new(alloc, court, seats)?;
        if is_done::<Brand, R>(
            rt,
            alloc,
            text,
            court,
            seats,
            task,
            Blank::new(64),
            publisher,
        )? {
            return Ok(());
        }
    }
    bail!("no office was opened in {TRIES} tries")
}

/// Opens the office and has its clerks work. False where a seat got no place to read from.
fn is_done<L: NamesOffice + Send + Sync, R: Threads + Wait + Eprint + Sync>(
    rt: &R,
    alloc: Global,
    text: &mut String,
    court: &Court,
    seats: u8,
    task: Task,
    blank: Blank,
    publisher: Publisher,
) -> Result<bool>
    requires name { blank.name ≡ L.name }
    requires parts { blank.parts ≡ L.parts }
    requires all { L.parts ≡ 64 }
    requires publisher { publisher ≡ record { parts = L.setup; trail = trail_view L.history [] } }
    requires court { L.setup ≡ setup_of court.now }
{
    match Office::<L>::new(rt, alloc, blank, publisher, court, seats, 1_000_000) {
        Ok((office, seats)) => {
            let worked = thread::map_vec(rt, seats, &|seat| work(rt, alloc, seat, task))?;
            push_worked(rt, alloc, text, court, office, worked, task)?;
            Ok(true)
        }
        Err(OfficeError::NoReader) => {
            rt.eprintln("a seat got no place to read from")?;
            Ok(false)
        }
        Err(error) => bail!("{error}"),
    }
}

/// Closes the office, and adds what is found of its journal.
fn push_worked<L: NamesOffice, R: Wait>(
    rt: &R,
    alloc: Global,
    text: &mut String,
    court: &Court,
    office: Office<L>,
    worked: Vec<Worked<L>>,
    task: Task,
) -> Result<()>
    requires all { L.parts ≡ 64 }
{
    push_failures(text, worked.as_slice())?;
    let (tallies, done) = divided(alloc, worked)?;
    match office.close(rt, tallies) {
        Ok(journal) => push_replay(alloc, text, court, &journal, done.as_slice(), task),
        Err(refused) => {
            let cause = refused.cause;
            bail!("{cause}")
        }
    }
}

/// Adds how many commands weren't finished, and how many motions weren't shown to who entered them.
fn push_failures<L: NamesOffice>(
    text: &mut String,
    worked: &[Worked<L>],
) -> Result<(), AllocError> {
    let mut failed = 0u64;
    let mut unseen = 0u64;
    for one in worked {
        failed = failed.saturating_add(u64::from(one.failed));
        unseen = unseen.saturating_add(u64::from(one.unseen));
    }
    text.push_str("not finished: ")?;
    push_number(text, failed)?;
    text.push_str("\nnot shown to their clerk: ")?;
    push_number(text, unseen)?;
    text.push_str("\n")
}

/// The tallies, and what each clerk finished, both in the order of the seats.
fn divided<L: NamesOffice>(
    alloc: Global,
    worked: Vec<Worked<L>>,
) -> Result<(Vec<Tally<L>>, Vec<Vec<Done>>), AllocError> {
    let mut tallies = Vec::new(alloc);
    let mut finished = Vec::new(alloc);
    for one in worked {
        let Worked {
            tally,
            done,
            failed: _,
            unseen: _,
        } = one;
        tallies.push(tally)?;
        finished.push(done)?;
    }
    Ok((tallies, finished))
}
