//! A run of the office, from its input to its output.

ghost use Rattle.std.specs.Prelude.{◌≡◌, ◌≢◌, true, false, IfSome, OnErr, OnOk};
ghost use Rattle.program_streams.specs.Words.{WasCutShort, WasReadWhole, has_ended, has_failed, was_called_again, watched};
ghost use Rattle.program_runs.specs.Words.{input_of, rests_on_input};
ghost use Rattle.clerk_program.specs.Text.{IsRun};

use crate::answers::Answers;
use court_file_text::CourtFault;
use program_main::Options;
use program_runs::{OfficeFault, run_report};
use program_streams::Watched;
use std::alloc::Global;
use std::io::{Read, Write};
use std::sync::Wait;
use std::thread::Threads;

/// Reads a court's file, a line `%%` and rows, and writes the answer to each row, then the sheets of all open cases and
/// the calendars of all judges. One clerk does all rows in the order in which they come; several share one docket, and
/// each does its own rows in that order, in a thread of its own. All input is read and all rows are checked before the
/// first is done, and the output is made whole before it is written: after `WriteFault` a beginning of it is out, after
/// any other fault nothing is. A read or a write that fails is the fault, and the last one.
/// `OutOfMemory` also says that a thread couldn't be started, or that a clerk got no place to read from.
pub fn run_office<H: Threads + Wait + Sync, R: Read, W: Write>(
    rt: &H,
    alloc: Global,
    reader: &mut Watched<R>,
    writer: &mut Watched<W>,
    options: Options,
) -> Result<(), OfficeFault>
    requires reader_works { has_failed reader.old ≡ false }
    requires not_ended { has_ended reader.old ≡ false }
    requires writer_works { has_failed writer.old ≡ false }

    // What is written is the text of the court and the rows that were read, and nothing else; a fault of theirs
    // is the first.
    ensures run { IfSome (R.remaining (watched reader.old)) (λ input.
        IsRun options.clerks options.journal (W.contents (watched writer.old)) (W.contents (watched writer.new)) result (input_of options.clerks input)) }
    ensures whole { rests_on_input result ≡ true → WasReadWhole reader.old reader.new }
    ensures read_fault { result ≡ Err OfficeFault.ReadFault → WasCutShort reader.old reader.new }
    ensures read_failed { has_failed reader.new ≡ true → result ≡ Err OfficeFault.ReadFault }
    ensures read_again { was_called_again reader.new ≡ was_called_again reader.old }

    ensures written { OnOk result (has_failed writer.new ≡ false) }
    ensures write_fault { result ≡ Err OfficeFault.WriteFault → has_failed writer.new ≡ true }
    ensures write_failed { has_failed writer.new ≡ true → result ≡ Err OfficeFault.WriteFault }
    ensures write_again { was_called_again writer.new ≡ was_called_again writer.old }
    ensures nothing_written { OnErr result (result ≢ Err OfficeFault.WriteFault → writer.new ≡ writer.old) }

    // Want of memory has one name only.
    ensures memory { result ≢ Err (OfficeFault.Court CourtFault.OutOfMemory) }
{
    match run_report(rt, alloc, reader, writer, &Answers { options })? {
        None => Ok(()),
        Some(_) => unreachable!(),
    }
}
