//! All schedules of an input.
use crate::commands::commands_of;
use crate::outcomes::push_run;
use crate::schedule::schedule_of;
use anyhow::{Context, Result};
use court_days::Court;
use docket_rows::Command;
use std::alloc::Global;

/// For each schedule of the input its line, and then a line for each step. An error says what is wrong with the input, or
/// that memory ran out.
pub fn run_all(alloc: Global, input: &str) -> Result<String> {
    let (file, after) = input
        .split_once("\n%%\n")
        .context("no line %% after the court's file")?;
    let (rows, schedules) = after
        .split_once("%%%%\n")
        .context("no line %%%% after the rows")?;
    let court = Court::from_bytes(alloc, file.as_bytes())?;
    let commands = commands_of(alloc, &court, rows.as_bytes())?;
    let mut text = String::new(alloc);
    for line in schedules.lines() {
        push_schedule(alloc, &mut text, &court, commands.as_slice(), line)?;
    }
    Ok(text)
}

/// Adds the schedule's line, and a line for each of its steps.
fn push_schedule(
    alloc: Global,
    text: &mut String,
    court: &Court,
    commands: &[Command],
    line: &str,
) -> Result<()> {
    let schedule = schedule_of(alloc, commands, line)?;
    text.push_str(line)?;
    text.push_str("\n")?;
    push_run(
        alloc,
        text,
        court,
        schedule.clerks,
        schedule.steps.as_slice(),
    )?;
    Ok(())
}
