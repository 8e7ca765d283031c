//! Sessions of the desk over a disk that fails and crashes, many in one input, for a check that runs each program once.
#![tactic(auto)]

mod clerk;
mod crash;
mod damage;
mod expected;
mod files;
mod follow;
mod moments;
mod runs;
mod session;
mod tally;

use anyhow::Result;
use runs::run_all;
use std::io;
use std::io::Write;

/// Makes the sessions that standard input holds: a court's file, and then journals with a line `%%` before each, which are
/// rows with a line `--` between two batches. Each journal is filled again and again, on a disk that passes no call on, then
/// one, and so on, and each file that a crash may leave then is opened again, and gone on with by a session that knows its first entry alone. Of the whole journal each byte is changed in
/// turn. For each journal it writes how many there were of each, and the first that wasn't as it must be. Where the input isn't written so, it writes nothing, says in one
/// line on standard error what is wrong, and ends with status 1.
fn main(rt: HostRuntime) -> Result<()> {
    let input = io::read_to_string(rt.alloc(), rt.stdin())?;
    let output = run_all(rt.alloc(), input.as_str())?;
    io::writer(&rt).write_all(output.as_bytes())?;
    Ok(())
}
