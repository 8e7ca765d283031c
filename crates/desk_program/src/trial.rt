//! A trial of rows, which keeps none.
ghost use Rattle.std.specs.Prelude.{◌≡◌, [], ℕ, List, false, IfErr, IfOk, IfSome, OnOk};
ghost use Rattle.desk_session.specs.Words.{AfterBytes, EndsSession, lines_of, tally_of, unfinished_of};
ghost use Rattle.program_streams.specs.Words.{has_failed, watched};
ghost use Rattle.desk_program.specs.Trial.{IsTried, IsTriedInPart};

use crate::desk::Desk;
use desk_session::{SessionFault, Tally, answer};
use program_streams::Watched;
use sqlite_disk::Disk;
use std::alloc::Global;
use std::io::{Read, Write};

impl<D: Disk> Desk<D> {
    ghost use Rattle.desk_program.specs.Desk.{KeepsDocket, disk_under, held_at, leaves_at, outcome_at, standing_at};

    /// Answers rows, one in a line, as `enter` would answer them, until the input ends. None is kept: the disk is given back
    /// as it was. However it ends, what is written is a beginning of the answers to the lines that were read.
    pub fn try_rows<R: Read, W: Write>(
        self,
        alloc: Global,
        reader: &mut Watched<R>,
        writer: &mut Watched<W>,
    ) -> (Result<Tally, SessionFault>, D)
        requires writer_works { has_failed writer.old ≡ false }
        ensures tried { (kept : List (List ℕ)) → KeepsDocket D.Disk kept self → OnOk result.0
            (IfSome (R.remaining (watched reader.old)) (λ input. IsTried (standing_at self) (held_at self) kept (lines_of input) (W.contents (watched writer.old)) (W.contents (watched writer.new)))) }
        ensures front { (kept : List (List ℕ)) → KeepsDocket D.Disk kept self →
            AfterBytes (R.remaining (watched reader.old)) (R.remaining (watched reader.new)) (λ bytes.
            IsTriedInPart (standing_at self) (held_at self) kept (lines_of bytes) (W.contents (watched writer.old)) (W.contents (watched writer.new))) }
        ensures finished { OnOk result.0 (IfSome (R.remaining (watched reader.old)) (λ input. unfinished_of input ≡ [])) }
        ensures tally { (kept : List (List ℕ)) → KeepsDocket D.Disk kept self → IfOk result.0 (λ tally.
            IfSome (R.remaining (watched reader.old)) (λ input. tally ≡ tally_of (leaves_at self) (outcome_at self) kept (lines_of input))) }
        ensures fault { IfErr result.0 (λ fault. AfterBytes (R.remaining (watched reader.old)) (R.remaining (watched reader.new)) (λ bytes. EndsSession reader.new writer.new bytes fault)) }
        ensures untouched { result.1 ≡ disk_under self }
    {
        let Desk {
            journal,
            setup,
            mut careful,
        } = self;
        let ended = answer(&setup, alloc, &mut careful, reader, writer);
        (ended, journal.into_disk())
    }
}
