//! The lines that bytes end: their entries are kept together, and then they are answered.
ghost use Rattle.std.specs.Prelude.{◌≡◌, ℕ, List, false, IfErr, OnOk};
ghost use Rattle.desk_journal.specs.Words.{StampView};
ghost use Rattle.program_streams.specs.Words.{has_failed, watched};
ghost use Rattle.desk_session.specs.Faults.{StopsBytes};
ghost use Rattle.desk_session.specs.Lines.{lines_from, unfinished_from};
ghost use Rattle.desk_session.specs.Outcomes.{tally_after};
ghost use Rattle.desk_session.specs.Served.{IsPromised, IsServed};
ghost use Rattle.desk_session.specs.Stamped.{IsStampedOn};

use crate::fault::SessionFault;
use crate::gather::gather;
use crate::keeper::Keeper;
use crate::outcome::Tally;
use crate::publish::publish;
use crate::register::Register;
use program_streams::Watched;
use std::alloc::Global;
use std::io::Write;

// Takes the lines that these bytes end: their entries are kept together, and then their answers are written.
pub(crate) fn serve_bytes<K: Keeper, O: Register, W: Write>(
    setup: &O::Setup,
    alloc: Global,
    keeper: &mut K,
    register: &mut O,
    writer: &mut Watched<W>,
    begun: &mut Vec<u8>,
    bytes: &[u8],
    tally: &mut Tally,
) -> Result<(), SessionFault>
    requires { has_failed writer.old ≡ false }
    ensures begun { OnOk result (begun.new.items ≡ unfinished_from begun.old.items bytes.now) }
    ensures fault { IfErr result (StopsBytes (has_failed writer.new) begun.old.items bytes.now) }
    ensures working { OnOk result (has_failed writer.new ≡ false) }
    ensures served { (kept : List (List ℕ)) → K.keeps keeper.old kept → O.stands setup.now register.old kept → OnOk result
        (IsServed (O.leaves setup.now) (O.answers setup.now) (K.keeps keeper.new) (O.stands setup.now register.new) kept (lines_from begun.old.items bytes.now) (W.contents (watched writer.old)) (W.contents (watched writer.new))) }
    ensures promised { (kept : List (List ℕ)) → K.keeps keeper.old kept → O.stands setup.now register.old kept →
        IsPromised (O.leaves setup.now) (O.answers setup.now) kept (lines_from begun.old.items bytes.now) (W.contents (watched writer.old)) (W.contents (watched writer.new)) (has_failed writer.new ≡ false) (K.may_leave keeper.new) }
    ensures tally { (kept : List (List ℕ)) → O.stands setup.now register.old kept → OnOk result
        (tally.new ≡ tally_after (O.leaves setup.now) (O.outcome setup.now) tally.old kept (lines_from begun.old.items bytes.now)) }
    ensures stamped { (stamps : List StampView) → K.has_stamps keeper.old stamps → OnOk result (IsStampedOn (K.account keeper.old) (K.has_stamps keeper.new) stamps) }
    ensures account { K.account keeper.new ≡ K.account keeper.old }
    ensures clean { K.is_clean keeper.new → K.is_clean keeper.old }
{
    let mut batch = Vec::new(alloc);
    let mut text = Vec::new(alloc);
    gather(
        setup, alloc, register, begun, bytes, &mut batch, &mut text, tally,
    )?;
    publish(keeper, writer, &batch, &text)?;
    Ok(())
}
