//! A session that keeps nothing: lines are answered, and that is all.
ghost use Rattle.std.specs.Prelude.{◌≡◌, [], ℕ, List, false, IfErr, IfOk, IfSome, OnOk};
ghost use Rattle.std.specs.Io.KnownBytes.{Appends};
ghost use Rattle.program_streams.specs.Words.{AppendsFront, has_failed, watched};
ghost use Rattle.desk_session.specs.Faults.{EndsSession};
ghost use Rattle.desk_session.specs.Lines.{lines_of, unfinished_of};
ghost use Rattle.desk_session.specs.Outcomes.{tally_of};
ghost use Rattle.desk_session.specs.Served.{AfterBytes};
ghost use Rattle.desk_session.specs.Taken.{told_to};

use crate::fault::SessionFault;
use crate::keeper::NoJournal;
use crate::outcome::Tally;
use crate::register::Register;
use crate::session::serve_lines;
use program_streams::Watched;
use std::alloc::Global;
use std::io::{self, Read, Write};
use std::rt::Clock;
use std::time::Duration;

// A clock that stands still: nothing is kept whose time could be asked for.
struct StoppedClock;

impl Clock for StoppedClock {
    fn monotonic(&self) -> io::Result<Duration> {
        Ok(Duration::ZERO)
    }

    fn since_1970(&self) -> io::Result<Duration> {
        Ok(Duration::ZERO)
    }
}

/// Answers the lines of an input until it ends, and keeps none of them. However it ends, what is written is a beginning of
/// the answers to the lines that were read. At the end it says how many lines there were.
pub fn answer<O: Register, R: Read, W: Write>(
    setup: &O::Setup,
    alloc: Global,
    register: &mut O,
    reader: &mut Watched<R>,
    writer: &mut Watched<W>,
) -> Result<Tally, SessionFault>
    requires writer_works { has_failed writer.old ≡ false }
    ensures answered { (kept : List (List ℕ)) → O.stands setup.now register.old kept → OnOk result
        (IfSome (R.remaining (watched reader.old)) (λ input. Appends (W.contents (watched writer.old)) (W.contents (watched writer.new)) (told_to (O.leaves setup.now) (O.answers setup.now) kept (lines_of input)))) }
    ensures front { (kept : List (List ℕ)) → O.stands setup.now register.old kept →
        AfterBytes (R.remaining (watched reader.old)) (R.remaining (watched reader.new)) (λ bytes.
        AppendsFront (W.contents (watched writer.old)) (W.contents (watched writer.new)) (told_to (O.leaves setup.now) (O.answers setup.now) kept (lines_of bytes))) }
    ensures finished { OnOk result (IfSome (R.remaining (watched reader.old)) (λ input. unfinished_of input ≡ [])) }
    ensures tally { (kept : List (List ℕ)) → O.stands setup.now register.old kept → IfOk result (λ tally.
        IfSome (R.remaining (watched reader.old)) (λ input. tally ≡ tally_of (O.leaves setup.now) (O.outcome setup.now) kept (lines_of input))) }
    ensures fault { IfErr result (λ fault. AfterBytes (R.remaining (watched reader.old)) (R.remaining (watched reader.new)) (λ bytes. EndsSession reader.new writer.new bytes fault)) }
{
    serve_lines(
        setup,
        alloc,
        &StoppedClock,
        &mut NoJournal,
        register,
        reader,
        writer,
    )
}
