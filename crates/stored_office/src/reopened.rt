//! Offices that are opened and closed again and again, and what memory they leave taken.
use crate::offices::{Opening, push_office};
use anyhow::{Context, Result};
use court_days::Court;
use office_texts::push_number;
use std::alloc::Global;
use std::fs;
use std::rt::Files;
use std::sync::Wait;

/// How many entries the journal of each office takes.
const LIMIT: u32 = 100;

/// How many offices are opened and closed before memory is first measured.
const FIRST: u32 = 20;

/// How many pages more the program may have after the last office than after the first ones. The slots of a published docket
/// alone take more than 50.
const PAGES: u64 = 4096;

/// Opens an office as often as the opening's number says, and makes the calls of these lines in each. It adds how often
/// that was, and whether the program then had no more memory than after the first ones. It can say so under Linux
/// alone.
pub fn push_reopened<R: Wait + Eprint + Files + AllocGlobal>(
    rt: &R,
    alloc: Global,
    text: &mut String,
    court: &Court,
    opening: Opening,
    lines: &str,
) -> Result<()> {
    open_again(rt, alloc, court, opening.seats, FIRST, lines)?;
    let before = pages(rt)?;
    open_again(rt, alloc, court, opening.seats, opening.number, lines)?;
    let after = pages(rt)?;
    text.push_str("opened again: ")?;
    push_number(text, u64::from(opening.number))?;
    text.push_str(if after <= before.saturating_add(PAGES) {
        "\nmemory came back: yes\n"
    } else {
        "\nmemory came back: no\n"
    })?;
    Ok(())
}

/// Opens this number of offices one after another, and makes the calls in each; what they are answered is dropped.
fn open_again<R: Wait + Eprint>(
    rt: &R,
    alloc: Global,
    court: &Court,
    seats: u8,
    times: u32,
    lines: &str,
) -> Result<()> {
    for _time in 0..times {
        let mut answers = String::new(alloc);
        let opening = Opening {
            seats,
            number: LIMIT,
        };
        push_office(rt, alloc, &mut answers, court, opening, lines)?;
    }
    Ok(())
}

/// How many pages of memory the program has.
fn pages<R: Files + AllocGlobal>(rt: &R) -> Result<u64> {
    let sizes = fs::read_to_string(rt, "/proc/self/statm")?;
    let resident = sizes.split(' ').nth(1).context("no size of memory")?;
    Ok(resident.parse()?)
}
