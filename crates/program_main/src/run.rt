//! A program, over the words and the streams that it is given.

ghost use Rattle.std.specs.Prelude.{◌≡◌, ◌≢◌, ◌≤◌, ◌⊎◌, [], true, false, map, string_bytes, IfErr, IfOk, IfSome};
ghost use Rattle.std.specs.IoError.{error_kind};
ghost use Rattle.program_main.specs.Options.Words.{HasMistake, IsRefused, arguments_in};
ghost use Rattle.program_streams.specs.Words.{IsGiven, WasCutShort, has_ended, has_failed, was_called_again, watched};
ghost use Rattle.program_runs.specs.Words.{IsToldAs, no_text_line, told_line};
ghost use Rattle.program_main.specs.Program.{IsEnding, NeverMiss, WithText};

use crate::options::OptionsFault;
use crate::program::Program;
use crate::words::report_behind;
use program_runs::{OfficeFault, ended_by, helped, missing, refused, run_report, unread};
use program_streams::Watched;
use std::alloc::Global;
use std::io;
use std::io::{ErrorKind, Read, Write};
use std::sync::Wait;
use std::thread::Threads;

/// Writes the report that the words choose, of which the first is the program's name. The status is 0 where
/// every row was answered, and where help or the version was asked for and is written instead; 1 where a word is no text
/// or the words have a mistake; 6 where what they ask for isn't there; and else that of the fault, of which one line goes to
/// `errors`, as does what is wrong with the words and what isn't there. A line that can't be written there is lost.
pub fn run_program<H: Threads + Wait + Sync, P: Program, R: Read, W: Write, E: Write>(
    rt: &H,
    alloc: Global,
    program: &P,
    words: io::Result<Vec<String>>,
    reader: &mut Watched<R>,
    writer: &mut Watched<W>,
    errors: &mut Watched<E>,
) -> u8
    requires reader_works { has_failed reader.old ≡ false }
    requires not_ended { has_ended reader.old ≡ false }
    requires writer_works { has_failed writer.old ≡ false }

    // Words that can't be read.
    ensures memory { IfErr words (λ e. error_kind e ≡ ErrorKind.OutOfMemory → result ≡ 5) }
    ensures no_text { IfErr words (λ e. error_kind e ≢ ErrorKind.OutOfMemory →
        (result ≡ 1) × IsGiven E.contents errors.old errors.new no_text_line) }

    // Words that are refused: only those that have a mistake, and where they ask for no help nothing else can happen to
    // them but that memory runs out. What is wrong with them is written.
    ensures mistaken { IfOk words (λ all. result ≡ 1 → HasMistake (P.faults (arguments_in (map string_bytes all.items)))) }
    ensures told { IfOk words (λ all. result ≡ 1 →
        WithText P.faults P.takes P.is_chosen (arguments_in (map string_bytes all.items)) OptionsFault.BadWords (IsGiven E.contents errors.old errors.new)) }
    ensures refused { IfOk words (λ all. IsRefused (P.faults (arguments_in (map string_bytes all.items))) → (result ≡ 1) ⊎ (result ≡ 5)) }
    ensures taken { IfOk words (λ all. P.takes (arguments_in (map string_bytes all.items)) ≡ true → result ≢ 1) }

    // Where the words choose no report, nothing is read.
    ensures no_words { IfErr words (λ e. reader.new ≡ reader.old) }
    ensures no_report { IfOk words (λ all. P.faults (arguments_in (map string_bytes all.items)) ≢ [] → reader.new ≡ reader.old) }

    // What the statuses 0, 2, 3, 4 and 6 say of the words, and of what was read, written and told.
    ensures ending { IfOk words (λ all. IfSome (R.remaining (watched reader.old)) (λ input.
        IsEnding P.faults P.takes P.is_chosen P.Report.clerk_count P.Report.is_text P.Report.is_missing (arguments_in (map string_bytes all.items)) (W.contents (watched writer.old)) (W.contents (watched writer.new))
        (IsGiven E.contents errors.old errors.new) result input)) }
    ensures worked { result ≡ 0 → has_failed writer.new ≡ false }
    ensures quiet { result ≡ 0 → errors.new ≡ errors.old }
    ensures nothing_written { result ≢ 0 → result ≢ 4 → writer.new ≡ writer.old }
    ensures no_memory { result ≡ 5 → IsGiven E.contents errors.old errors.new (told_line OfficeFault.OutOfMemory) }
    ensures known { result ≤ 6 }
    ensures never_missing { NeverMiss P.Report.is_missing → result ≤ 5 }

    // A read or a write that fails is answered as such, and is the last one.
    ensures failed { result ≡ 4 →
        (WasCutShort reader.old reader.new × IsGiven E.contents errors.old errors.new (told_line OfficeFault.ReadFault))
        ⊎ ((has_failed writer.new ≡ true) × IsGiven E.contents errors.old errors.new (told_line OfficeFault.WriteFault)) }
    ensures read_failed { has_failed reader.new ≡ true →
        IsToldAs OfficeFault.ReadFault result (IsGiven E.contents errors.old errors.new) }
    ensures write_failed { has_failed writer.new ≡ true →
        IsToldAs OfficeFault.WriteFault result (IsGiven E.contents errors.old errors.new) }
    ensures read_again { was_called_again reader.new ≡ was_called_again reader.old }
    ensures write_again { was_called_again writer.new ≡ was_called_again writer.old }
{
    let all = match words {
        Ok(all) => all,
        Err(error) => return unread(errors, &error),
    };
    let report = match report_behind(program, alloc, all.as_slice()) {
        Ok(report) => report,
        Err(OptionsFault::Help(text)) => return helped(writer, errors, text.as_str()),
        Err(OptionsFault::BadWords(text)) => return refused(errors, text.as_str()),
        Err(OptionsFault::OutOfMemory) => {
            return ended_by(alloc, errors, &OfficeFault::OutOfMemory);
        }
    };
    match run_report(rt, alloc, reader, writer, &report) {
        Ok(None) => 0,
        Ok(Some(line)) => missing(errors, line.as_str()),
        Err(fault) => ended_by(alloc, errors, &fault),
    }
}
