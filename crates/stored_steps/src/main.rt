//! Schedules of clerks who share a docket, many in one input, for a check that runs each program once.
#![tactic(auto)]

mod commands;
mod outcomes;
mod runs;
mod schedule;

use anyhow::Result;
use runs::run_all;
use shared_docket::DocketParts;
use std::io;
use std::io::Write;
use versioned_steps::{
    finished_commands_stand_once, fresh_means_untouched, serial_history, versions_are_last_touches,
};

/// Makes the steps of each schedule that standard input holds: a court's file, a line `%%`, rows that are the commands, a
/// line `%%%%`, and then one schedule a line. For each it writes its line, and then a line for each step. Where the input
/// isn't written so, it writes nothing, says in one line on standard error what is wrong, and ends with status 1.
fn main(rt: HostRuntime) -> Result<()> {
    let input = io::read_to_string(rt.alloc(), rt.stdin())?;
    let output = run_all(rt.alloc(), input.as_str())?;
    io::writer(&rt).write_all(output.as_bytes())?;
    laws_hold_of_dockets();
    Ok(())
}

// The laws of commits, of the parts of a docket.
fn laws_hold_of_dockets() {
    serial_history::<DocketParts>();
    versions_are_last_touches::<DocketParts>();
    fresh_means_untouched::<DocketParts>();
    finished_commands_stand_once::<DocketParts>();
}
