//! A session, from the first line of its input to the last.
ghost use Rattle.std.specs.Prelude.{◌≡◌, ◌≢◌, [], ℕ, List, false, IsTrue, IfErr, IfOk, IfSome, OnOk};
ghost use Rattle.desk_journal.specs.Words.{IsKept, KeepsStamps, StampView, disk_of, stamp_of};
ghost use Rattle.program_streams.specs.Words.{has_failed, watched};
ghost use Rattle.desk_session.specs.Faults.{EndsSession};
ghost use Rattle.desk_session.specs.Lines.{lines_of, unfinished_of};
ghost use Rattle.desk_session.specs.Outcomes.{tally_of};
ghost use Rattle.desk_session.specs.Served.{AfterBytes, IsPromised, IsServed};
ghost use Rattle.desk_session.specs.Stamped.{IsStampedOn};

use crate::batch::serve_bytes;
use crate::clock::second_of;
use crate::fault::SessionFault;
use crate::keeper::Keeper;
use crate::outcome::Tally;
use crate::register::Register;
use desk_journal::Journal;
use program_streams::Watched;
use sqlite_disk::Disk;
use std::alloc::Global;
use std::io::{Read, Write};
use std::rt::Clock;

// How many bytes are asked for at once.
const CHUNK: usize = 65_536;

// How a session ends whose input has ended, after lines of this tally.
fn ended(begun: &Vec<u8>, tally: Tally) -> Result<Tally, SessionFault>
    ensures finished { OnOk result (begun.now.items ≡ []) }
    ensures tally { IfOk result (λ t. t ≡ tally) }
    ensures fault { IfErr result (λ fault. (fault ≡ SessionFault.Unfinished) × (begun.now.items ≢ [])) }
{
    if begun.is_empty() {
        Ok(tally)
    } else {
        Err(SessionFault::Unfinished)
    }
}

// Takes the lines of an input until it ends. The entries of those that one read gives are kept together, with the second at which
// they were read, and then they are answered.
pub(crate) fn serve_lines<K: Keeper, O: Register, C: Clock, R: Read, W: Write>(
    setup: &O::Setup,
    alloc: Global,
    clock: &C,
    keeper: &mut K,
    register: &mut O,
    reader: &mut Watched<R>,
    writer: &mut Watched<W>,
) -> Result<Tally, SessionFault>
    requires writer_works { has_failed writer.old ≡ false }
    ensures promised { (kept : List (List ℕ)) → K.keeps keeper.old kept → O.stands setup.now register.old kept →
        AfterBytes (R.remaining (watched reader.old)) (R.remaining (watched reader.new)) (λ bytes.
        IsPromised (O.leaves setup.now) (O.answers setup.now) kept (lines_of bytes) (W.contents (watched writer.old)) (W.contents (watched writer.new)) (has_failed writer.new ≡ false) (K.may_leave keeper.new)) }
    ensures served { (kept : List (List ℕ)) → K.keeps keeper.old kept → O.stands setup.now register.old kept → OnOk result
        (IfSome (R.remaining (watched reader.old)) (λ input.
        IsServed (O.leaves setup.now) (O.answers setup.now) (K.keeps keeper.new) (O.stands setup.now register.new) kept (lines_of input) (W.contents (watched writer.old)) (W.contents (watched writer.new)))) }
    ensures finished { OnOk result (IfSome (R.remaining (watched reader.old)) (λ input. unfinished_of input ≡ [])) }
    ensures tally { (kept : List (List ℕ)) → K.keeps keeper.old kept → O.stands setup.now register.old kept → IfOk result (λ tally.
        IfSome (R.remaining (watched reader.old)) (λ input. tally ≡ tally_of (O.leaves setup.now) (O.outcome setup.now) kept (lines_of input))) }
    ensures fault { IfErr result (λ fault. AfterBytes (R.remaining (watched reader.old)) (R.remaining (watched reader.new)) (λ bytes. EndsSession reader.new writer.new bytes fault)) }
    ensures working { OnOk result (has_failed writer.new ≡ false) }
    ensures stamped { (stamps : List StampView) → K.has_stamps keeper.old stamps → OnOk result (IsStampedOn (K.account keeper.old) (K.has_stamps keeper.new) stamps) }
    ensures clean { K.is_clean keeper.new → K.is_clean keeper.old }
{
    let mut begun = Vec::new(alloc);
    let mut buffer = vec![in alloc; 0u8; CHUNK]?;
    let chunk = buffer.as_mut_slice();
    let mut tally = Tally::new();
    'reads: for _ in 0..u64::MAX {
        match reader.read(chunk) {
            Err(_) => return Err(SessionFault::Read),
            Ok(count) => {
                if count == 0 {
                    return ended(&begun, tally);
                }
                keeper.at(second_of(clock));
                serve_bytes(
                    setup,
                    alloc,
                    keeper,
                    register,
                    writer,
                    &mut begun,
                    &chunk[..count],
                    &mut tally,
                )?;
            }
        }
    }
    Err(SessionFault::Read)
}

/// Serves the lines of an input until it ends. The lines that one read gives are made durable together, and then they are
/// answered. Each entry has the second that the clock showed when its line was read, or that of the entry before it where that is
/// later. However the session ends, what was answered is kept. At the end it says how many lines there were.
pub fn serve<D: Disk, O: Register, C: Clock, R: Read, W: Write>(
    setup: &O::Setup,
    alloc: Global,
    clock: &C,
    journal: &mut Journal<D>,
    register: &mut O,
    reader: &mut Watched<R>,
    writer: &mut Watched<W>,
) -> Result<Tally, SessionFault>
    requires writer_works { has_failed writer.old ≡ false }
    ensures promised { (kept : List (List ℕ)) → IsKept D.Disk kept journal.old → O.stands setup.now register.old kept →
        AfterBytes (R.remaining (watched reader.old)) (R.remaining (watched reader.new)) (λ bytes.
        IsPromised (O.leaves setup.now) (O.answers setup.now) kept (lines_of bytes) (W.contents (watched writer.old)) (W.contents (watched writer.new)) (has_failed writer.new ≡ false) (D.Disk.may_leave (disk_of journal.new))) }
    ensures served { (kept : List (List ℕ)) → IsKept D.Disk kept journal.old → O.stands setup.now register.old kept → OnOk result
        (IfSome (R.remaining (watched reader.old)) (λ input.
        IsServed (O.leaves setup.now) (O.answers setup.now) (λ entries. IsKept D.Disk entries journal.new) (O.stands setup.now register.new) kept (lines_of input) (W.contents (watched writer.old)) (W.contents (watched writer.new)))) }
    ensures finished { OnOk result (IfSome (R.remaining (watched reader.old)) (λ input. unfinished_of input ≡ [])) }
    ensures tally { (kept : List (List ℕ)) → IsKept D.Disk kept journal.old → O.stands setup.now register.old kept → IfOk result (λ tally.
        IfSome (R.remaining (watched reader.old)) (λ input. tally ≡ tally_of (O.leaves setup.now) (O.outcome setup.now) kept (lines_of input))) }
    ensures fault { IfErr result (λ fault. AfterBytes (R.remaining (watched reader.old)) (R.remaining (watched reader.new)) (λ bytes. EndsSession reader.new writer.new bytes fault)) }
    ensures working { OnOk result (has_failed writer.new ≡ false) }
    // What is kept is of the journal's account, and times never go back.
    ensures stamped { (stamps : List StampView) → KeepsStamps D.Disk stamps journal.old
        → OnOk result (IsStampedOn (stamp_of journal.old).account (λ after. KeepsStamps D.Disk after journal.new) stamps) }
    // Where no wrong answer of the disk was taken as true at the end, none was at the start.
    ensures clean { IsTrue (D.Disk.is_clean (disk_of journal.new)) → IsTrue (D.Disk.is_clean (disk_of journal.old)) }
{
    serve_lines(setup, alloc, clock, journal, register, reader, writer)
}
