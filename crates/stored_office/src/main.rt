//! Offices of several clerks, many in one input, for a check that runs each program once.
#![tactic(auto)]

mod answers;
mod beginnings;
mod calls;
mod clerks;
mod closing;
mod crowd;
mod dockets;
mod in_turn;
mod offices;
mod reopened;
mod replay;
mod schedules;
mod work;

use anyhow::Result;
use schedules::run_all;
use std::io;
use std::io::Write;

/// Makes the calls of each schedule that standard input holds: a court's file, a line `%%`, and then schedules with an
/// empty line between two. A schedule that begins with `office SEATS LIMIT` opens an office, and each line after it is
/// a call of one of its seats; `again SEATS TIMES` opens such an office that often; `threads SEATS COMMANDS EACH` opens
/// an office whose seats each perform `COMMANDS` commands in a thread of their own, `EACH` about each case; and `clerks
/// SEATS LIMIT` opens an office whose clerks do the rows after it, in threads too. For each it writes its lines, each
/// followed by what it was answered. Where the input isn't written so, it writes nothing, says in one line on standard
/// error what is wrong, and ends with status 1.
fn main(rt: HostRuntime) -> Result<()> {
    let input = io::read_to_string(rt.alloc(), rt.stdin())?;
    let output = run_all(&rt, rt.alloc(), input.as_str())?;
    io::writer(&rt).write_all(output.as_bytes())?;
    Ok(())
}
