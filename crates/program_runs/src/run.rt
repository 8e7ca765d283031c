//! A run over streams, from its input to its output.

ghost use Rattle.std.specs.Prelude.{◌≡◌, ◌≢◌, true, false, string_bytes, IfOk, IfSome, OnErr, OnOk};
ghost use Rattle.program_runs.specs.Office.{rests_on_input};
ghost use Rattle.program_runs.specs.Report.{IsReportRun, MayMiss};
ghost use Rattle.program_streams.specs.Words.{WasCutShort, WasReadWhole, has_ended, has_failed, was_called_again, watched};

use crate::fault::OfficeFault;
use crate::report::{Finding, Report};
use crate::text::text_of;
use court_file_text::CourtFault;
use program_streams::{Watched, read_all, write_text};
use std::alloc::Global;
use std::io::{Read, Write};
use std::sync::Wait;
use std::thread::Threads;

/// Reads a court's file, a line `%%` and rows, and writes the text that the report has of them. Where it finds that what it is
/// asked for isn't there, it writes nothing, and the result is the line that says so. All input is read and all
/// rows are checked before the first is done, and the output is made whole before it is written: after `WriteFault` a
/// beginning of it is out, after any other fault nothing is. A read or a write that fails is the fault, and the last one.
/// `OutOfMemory` also says that a thread couldn't be started, or that a clerk got no place to read from.
pub fn run_report<H: Threads + Wait + Sync, R: Read, W: Write, P: Report>(
    rt: &H,
    alloc: Global,
    reader: &mut Watched<R>,
    writer: &mut Watched<W>,
    report: &P,
) -> Result<Option<String>, OfficeFault>
    requires reader_works { has_failed reader.old ≡ false }
    requires not_ended { has_ended reader.old ≡ false }
    requires writer_works { has_failed writer.old ≡ false }

    // What is written is a text of the court and the rows that were read, and nothing else, or it isn't there; a fault of theirs
    // is the first.
    ensures run { IfSome (R.remaining (watched reader.old)) (λ input.
        IsReportRun (P.clerk_count report.now) (P.is_text report.now) (P.is_missing report.now) (W.contents (watched writer.old)) (W.contents (watched writer.new)) result input) }
    ensures missing { IfOk result (λ missing. IfSome missing (λ line. (writer.new ≡ writer.old) × MayMiss (P.is_missing report.now) (string_bytes line))) }
    ensures whole { rests_on_input result ≡ true → WasReadWhole reader.old reader.new }
    ensures read_fault { result ≡ Err OfficeFault.ReadFault → WasCutShort reader.old reader.new }
    ensures read_failed { has_failed reader.new ≡ true → result ≡ Err OfficeFault.ReadFault }
    ensures read_again { was_called_again reader.new ≡ was_called_again reader.old }

    ensures written { OnOk result (has_failed writer.new ≡ false) }
    ensures write_fault { result ≡ Err OfficeFault.WriteFault → has_failed writer.new ≡ true }
    ensures write_failed { has_failed writer.new ≡ true → result ≡ Err OfficeFault.WriteFault }
    ensures write_again { was_called_again writer.new ≡ was_called_again writer.old }
    ensures nothing_written { OnErr result (result ≢ Err OfficeFault.WriteFault → writer.new ≡ writer.old) }

    // Want of memory has one name only.
    ensures memory { result ≢ Err (OfficeFault.Court CourtFault.OutOfMemory) }
{
    let input = read_all(alloc, reader)?;
    match text_of(rt, alloc, input.as_slice(), report)? {
        Finding::Text(text) => {
            write_text(alloc, writer, text)?;
            Ok(None)
        }
        Finding::Missing(line) => Ok(Some(line)),
    }
}
