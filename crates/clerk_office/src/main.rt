//! A clerk's office: it reads a court's file, a line `%%` and rows from standard input, and writes the reply to each
//! row, the docket sheets and the judges' calendars to standard output.
#![tactic(auto)]

use clerk_program::run_clerk_office;
use program_main::Ended;

/// Runs the program on the process's own words and streams, and ends with its status.
fn main(rt: HostRuntime) -> Ended {
    run_clerk_office(&rt, &rt)
}
