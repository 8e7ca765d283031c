//! Questions on a docket that is only read.
ghost use Rattle.std.specs.Prelude.{ℕ, List, ◌≡◌, [], false, IfErr, IfOk, IfSome, OnOk};
ghost use Rattle.desk_session.specs.Words.{AfterBytes, EndsSession, lines_of, unfinished_of};
ghost use Rattle.desk_entries.specs.Words.{IsDocketed};
ghost use Rattle.program_streams.specs.Words.{has_failed, watched};
ghost use Rattle.desk_program.specs.Inside.Ask.{AnswersInPart, AnswersQuestions};

use desk_entries::{Docketed, Questions};
use desk_session::{SessionFault, Tally, answer};
use program_streams::Watched;
use std::alloc::Global;
use std::io::{Read, Write};

/// Answers questions on a docket, one in a line, until the input ends. Nothing is kept: a command is answered with a line that
/// says where to enter it. However it ends, what is written is a beginning of the answers to the lines that were read. At the
/// end it says how many lines there were, and how many had faults.
pub fn ask<R: Read, W: Write>(
    alloc: Global,
    docketed: Docketed,
    reader: &mut Watched<R>,
    writer: &mut Watched<W>,
) -> Result<Tally, SessionFault>
    requires writer_works { has_failed writer.old ≡ false }
    ensures answered { (entries : List (List ℕ)) → IsDocketed docketed entries → IfOk result (λ tally. IfSome (R.remaining (watched reader.old)) (λ input.
        AnswersQuestions entries (lines_of input) tally (W.contents (watched writer.old)) (W.contents (watched writer.new)))) }
    ensures front { (entries : List (List ℕ)) → IsDocketed docketed entries →
        AfterBytes (R.remaining (watched reader.old)) (R.remaining (watched reader.new)) (λ bytes.
        AnswersInPart entries (lines_of bytes) (W.contents (watched writer.old)) (W.contents (watched writer.new))) }
    ensures finished { OnOk result (IfSome (R.remaining (watched reader.old)) (λ input. unfinished_of input ≡ [])) }
    ensures fault { IfErr result (λ fault. AfterBytes (R.remaining (watched reader.old)) (R.remaining (watched reader.new)) (λ bytes. EndsSession reader.new writer.new bytes fault)) }
{
    let Docketed { standing, register } = docketed;
    let mut questions = Questions { register };
    answer(&standing, alloc, &mut questions, reader, writer)
}
