//! Runs of the office, of the court's calendar and of the desk, many in one input, for a check that runs each program once.
#![tactic(auto)]

mod calendar;
mod calls;
mod clerk;
mod desk;
mod lines;
mod made;
mod named;
mod stored;
mod sums;
mod turns;

use named::push_named;
use std::io;
use std::io::Write;

/// Does each run that standard input holds: after a line `%%%% NAME`, and the words of its command line after the name,
/// a whole input, whose last line end is that before the next such line. For each it writes that line, and then what
/// the run writes or the line of its fault. After a line `%%%% made NAME` come lines from which the input is made, and
/// it writes how much the run writes. A NAME that begins with `calendar/` is a run of the court's calendar, and one that
/// begins with `desk/` a run of the desk. What comes before the first such line is passed over.
fn main(rt: HostRuntime) -> io::Result<()> {
    let input = io::read_to_string(rt.alloc(), rt.stdin())?;
    let mut output = Vec::new(rt.alloc());
    for run in input.as_str().split("\n%%%% ").skip(1) {
        if let Some((line, input)) = run.split_once('\n') {
            push_named(&rt, rt.alloc(), &mut output, line, input)?;
        }
    }
    io::writer(&rt).write_all(output.as_slice())
}
