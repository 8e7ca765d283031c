//! How a program ends that reads an input of the office.

ghost use Rattle.std.specs.Prelude.{◌≡◌, ◌≢◌, true, false};
ghost use Rattle.std.specs.IoError.{error_kind};
ghost use Rattle.program_runs.specs.Fault.{IsTold, IsToldAs, IsToldIfRoom, no_text_line};
ghost use Rattle.program_streams.specs.Words.{IsGiven, has_failed};

use crate::fault::OfficeFault;
use crate::fault_lines::{ended_line, status_of};
use program_streams::{Watched, write_all};
use std::alloc::Global;
use std::io;
use std::io::{ErrorKind, Write};

// The status of a run whose words the program doesn't take.
const BAD_WORDS: u8 = 1;

// The status of a run in which what was asked for isn't there.
const MISSING: u8 = 6;

/// Writes the help or the version, which the words ask for. The status is 0, or that of a write fault, whose line goes to
/// `errors`.
pub fn helped<W: Write, E: Write>(
    writer: &mut Watched<W>,
    errors: &mut Watched<E>,
    text: &str,
) -> u8
    requires { has_failed writer.old ≡ false }
    ensures text { IsGiven W.contents writer.old writer.new text.now }
    ensures worked { has_failed writer.new ≡ false → (result ≡ 0) × (errors.new ≡ errors.old) }
    ensures failed { has_failed writer.new ≡ true → IsToldAs OfficeFault.WriteFault result (IsGiven E.contents errors.old errors.new) }
{
    match write_all(writer, text.as_bytes()) {
        Ok(()) => 0,
        Err(_) => told(errors, "write fault\n", 4),
    }
}

/// Tells of words that can't be read, and gives the status: that of want of memory, or else `BAD_WORDS`, because one of
/// them is no text.
pub fn unread<E: Write>(errors: &mut Watched<E>, error: &io::Error) -> u8
    ensures memory { error_kind error.now ≡ ErrorKind.OutOfMemory → IsToldAs OfficeFault.OutOfMemory result (IsGiven E.contents errors.old errors.new) }
    ensures no_text { error_kind error.now ≢ ErrorKind.OutOfMemory → (result ≡ 1) × IsGiven E.contents errors.old errors.new no_text_line }
{
    match error.kind() {
        ErrorKind::OutOfMemory => told(errors, "out of memory\n", 5),
        _ => told(
            errors,
            "error: a word of the command line is no text\n",
            BAD_WORDS,
        ),
    }
}

/// Tells what is wrong with the words, and gives the status.
pub fn refused<E: Write>(errors: &mut Watched<E>, text: &str) -> u8
    ensures status { result ≡ 1 }
    ensures line { IsGiven E.contents errors.old errors.new text.now }
{
    told(errors, text, BAD_WORDS)
}

/// Tells what isn't there of what was asked for, and gives the status.
pub fn missing<E: Write>(errors: &mut Watched<E>, line: &str) -> u8
    ensures status { result ≡ 6 }
    ensures line { IsGiven E.contents errors.old errors.new line.now }
{
    told(errors, line, MISSING)
}

/// Tells of the fault, as far as its line can be written, and gives the status. Where there is no memory for the line, it
/// tells of want of memory instead.
pub fn ended_by<E: Write>(alloc: Global, errors: &mut Watched<E>, fault: &OfficeFault) -> u8
    ensures { IsTold fault.now result (IsGiven E.contents errors.old errors.new) }
{
    match fault {
        OfficeFault::Court(_) => told_if_room(alloc, errors, fault),
        OfficeFault::Row(_, _) => told_if_room(alloc, errors, fault),
        OfficeFault::ReadFault => told(errors, "read fault\n", 4),
        OfficeFault::WriteFault => told(errors, "write fault\n", 4),
        OfficeFault::OutOfMemory => told(errors, "out of memory\n", 5),
    }
}

// Tells of the fault where there is memory for its line, and else of want of memory.
fn told_if_room<E: Write>(alloc: Global, errors: &mut Watched<E>, fault: &OfficeFault) -> u8
    ensures { IsToldIfRoom fault.now result (IsGiven E.contents errors.old errors.new) }
{
    match ended_line(alloc, fault) {
        Ok(line) => told(errors, line.as_str(), status_of(fault)),
        Err(_) => told(errors, "out of memory\n", 5),
    }
}

// Writes the line, as far as it can be written, and gives the status. Nothing is written after a write that failed.
fn told<E: Write>(errors: &mut Watched<E>, line: &str, status: u8) -> u8
    ensures status { result ≡ status }
    ensures line { IsGiven E.contents errors.old errors.new line.now }
{
    if errors.failed() {
        return status;
    }
    let _ = write_all(errors, line.as_bytes());
    status
}
