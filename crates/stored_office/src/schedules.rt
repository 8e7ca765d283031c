//! All schedules of an input.
use crate::clerks::push_clerks;
use crate::crowd::push_crowd;
use crate::offices::{Opening, push_office};
use crate::reopened::push_reopened;
use crate::work::Task;
use anyhow::{Context, Result, bail};
use court_days::Court;
use std::alloc::Global;
use std::rt::Files;
use std::sync::Wait;
use std::thread::Threads;

/// For each schedule of the input its lines, each followed by what it was answered. An error says what is wrong with
/// the input, or that memory ran out.
pub fn run_all<R: Threads + Wait + Eprint + Files + AllocGlobal + Sync>(
    rt: &R,
    alloc: Global,
    input: &str,
) -> Result<String> {
    let (file, schedules) = input
        .split_once("\n%%\n")
        .context("no line %% after the court's file")?;
    let court = Court::from_bytes(alloc, file.as_bytes())?;
    let mut text = String::new(alloc);
    for schedule in schedules.split("\n\n") {
        push_schedule(rt, alloc, &mut text, &court, schedule)?;
        text.push_str("\n")?;
    }
    Ok(text)
}

/// Adds the schedule's lines, each followed by what it was answered.
fn push_schedule<R: Threads + Wait + Eprint + Files + AllocGlobal + Sync>(
    rt: &R,
    alloc: Global,
    text: &mut String,
    court: &Court,
    schedule: &str,
) -> Result<()> {
    let (first, calls) = schedule.split_once("\n").unwrap_or((schedule, ""));
    text.push_str(first)?;
    text.push_str("\n")?;
    let mut words = first.split(' ');
    let kind = words.next().context("an empty line")?;
    let seats = words.next().context("no number of seats")?.parse()?;
    let number = words
        .next()
        .context("no number after that of the seats")?
        .parse()?;
    let opening = Opening { seats, number };
    match kind {
        "threads" => {
            let each_case = words
                .next()
                .context("no number of commands for each case")?
                .parse()?;
            let task = Task {
                count: number,
                each_case,
            };
            push_crowd(rt, alloc, text, court, seats, task)
        }
        "again" => push_reopened(rt, alloc, text, court, opening, calls),
        "office" => push_office(rt, alloc, text, court, opening, calls),
        "clerks" => push_clerks(rt, alloc, text, court, opening, calls),
        _ => bail!("no kind of schedule: {kind}"),
    }
}
