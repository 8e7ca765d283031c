//! A stored run by the line that names it.

use crate::calendar::push_calendar;
use crate::calls::push_calls;
use crate::desk::push_desk;
use crate::made::push_made;
use crate::stored::{push_name, push_run};
use program_main::{OptionsFault, options_of};
use std::alloc::{AllocError, Global};
use std::sync::Wait;
use std::thread::Threads;

// No clause says how a line is cut into words; what is stored to be written shows it.

/// Adds the run of that input whose line is `NAME WORD WORD ..`: the words after the name are those of the command
/// line, each after a space. Where these give no options, the text that says so is written in place of what a run
/// writes. Where `made ` comes before the name, the input is made from that text, and the sum of what the run writes is
/// written. A name that begins with `calendar/` is a run of the court's calendar. One that begins with `desk/` is a run of the
/// desk: its calls, or the rows of an input that is made. `Err` says that memory ran out.
pub fn push_named<H: Threads + Wait + Sync>(
    rt: &H,
    alloc: Global,
    output: &mut Vec<u8>,
    line: &str,
    text: &str,
) -> Result<(), AllocError> {
    let of_made = line.strip_prefix("made ");
    let line = of_made.unwrap_or(line);
    if line.starts_with("desk/") {
        return match of_made {
            Some(_) => push_desk(alloc, output, line, text),
            None => push_calls(alloc, output, line, text),
        };
    }
    if line.starts_with("calendar/") {
        return push_calendar(rt, alloc, output, line, text, of_made.is_some());
    }
    let words: Vec<&str> = line.split(' ').skip(1).collect(alloc)?;
    match options_of(alloc, words.as_slice()) {
        Ok(options) if of_made.is_some() => push_made(rt, alloc, output, line, options, text),
        Ok(options) => push_run(rt, alloc, output, line, options, text.as_bytes()),
        Err(OptionsFault::BadWords(text) | OptionsFault::Help(text)) => {
            push_name(output, line)?;
            output.extend_from_slice(text.as_bytes())
        }
        Err(OptionsFault::OutOfMemory) => Err(AllocError),
    }
}
