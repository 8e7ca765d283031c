//! Entries that are kept, and the answers after them.
ghost use Rattle.std.specs.Prelude.{◌≡◌, ◌⊎◌, ◌++◌, ℕ, List, false, Err, IfErr, OnOk};
ghost use Rattle.std.specs.Io.KnownBytes.{Appends};
ghost use Rattle.desk_journal.specs.Words.{StampView, StandsFor, batch_of};
ghost use Rattle.program_streams.specs.Words.{has_failed, watched};
ghost use Rattle.desk_session.specs.Faults.{IsUnpublished};
ghost use Rattle.desk_session.specs.Served.{IsPromised};
ghost use Rattle.desk_session.specs.Stamped.{IsStampedOn};
ghost use Rattle.desk_session.specs.Taken.{left_by, told_to};

use crate::fault::SessionFault;
use crate::keeper::Keeper;
use program_streams::{Watched, write_all};
use std::io::Write;

// Keeps entries, and then writes the answers. Where these are what some lines leave and are answered, that is promised
// of them.
pub(crate) fn publish<K: Keeper, W: Write>(
    keeper: &mut K,
    writer: &mut Watched<W>,
    batch: &[Vec<u8>],
    text: &[u8],
) -> Result<(), SessionFault>
    requires { has_failed writer.old ≡ false }
    ensures fault { IfErr result (IsUnpublished (has_failed writer.new)) }
    ensures working { OnOk result (has_failed writer.new ≡ false) }
    ensures kept { (kept : List (List ℕ)) → K.keeps keeper.old kept → OnOk result (K.keeps keeper.new (kept ++ batch_of batch.now)) }
    ensures unanswered { (kept : List (List ℕ)) → K.keeps keeper.old kept → result ≡ Err SessionFault.Write → K.keeps keeper.new (kept ++ batch_of batch.now) }
    ensures told { OnOk result (Appends (W.contents (watched writer.old)) (W.contents (watched writer.new)) text.now) }
    ensures promised { (leaves : List (List ℕ) → List ℕ → List (List ℕ)) (answers : List (List ℕ) → List ℕ → List ℕ) (kept lines : List (List ℕ)) → K.keeps keeper.old kept
        → batch_of batch.now ≡ left_by leaves kept lines → text.now ≡ told_to leaves answers kept lines
        → IsPromised leaves answers kept lines (W.contents (watched writer.old)) (W.contents (watched writer.new)) (has_failed writer.new ≡ false) (K.may_leave keeper.new) }
    ensures crash { (kept : List (List ℕ)) → K.keeps keeper.old kept → (file : List ℕ) → K.may_leave keeper.new file
        → StandsFor file kept ⊎ StandsFor file (kept ++ batch_of batch.now) }
    ensures stamped { (stamps : List StampView) → K.has_stamps keeper.old stamps → OnOk result (IsStampedOn (K.account keeper.old) (K.has_stamps keeper.new) stamps) }
    ensures account { K.account keeper.new ≡ K.account keeper.old }
    ensures clean { K.is_clean keeper.new → K.is_clean keeper.old }
{
    keeper.keep(batch)?;
    match write_all(writer, text) {
        Ok(()) => {}
        Err(_) => return Err(SessionFault::Write),
    }
    Ok(())
}
