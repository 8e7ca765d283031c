//! Lines, gathered from the bytes that come.
ghost use Rattle.std.specs.Prelude.{◌≡◌, ◌++◌, ◌∷◌, [], ℕ, List, false, IfErr, OnOk};
ghost use Rattle.desk_journal.specs.Words.{batch_of};
ghost use Rattle.desk_session.specs.Faults.{StopsBytes};
ghost use Rattle.desk_session.specs.Lines.{ends_line, lines_from, unfinished_from};
ghost use Rattle.desk_session.specs.Outcomes.{tally_after};
ghost use Rattle.desk_session.specs.Taken.{TakesLines};

use crate::fault::SessionFault;
use crate::lines::ends_line;
use crate::outcome::Tally;
use crate::register::Register;
use std::alloc::Global;

/// The most bytes of a line, without its end.
pub const MAX_LINE: usize = 65_536;

// Adds a byte to a line that has begun.
fn go_on(begun: &mut Vec<u8>, byte: u8) -> Result<(), SessionFault>
    requires { ends_line byte ≡ false }
    ensures line { OnOk result (begun.new.items ≡ begun.old.items ++ byte ∷ []) }
    ensures fault { IfErr result (StopsBytes false begun.old.items (byte ∷ [])) }
{
    if begun.len() >= MAX_LINE {
        return Err(SessionFault::LongLine);
    }
    begun.push(byte)?;
    Ok(())
}

// Takes one byte: it ends the line that has begun, or goes on with it.
fn take_byte<O: Register>(
    setup: &O::Setup,
    alloc: Global,
    register: &mut O,
    begun: &mut Vec<u8>,
    byte: u8,
    batch: &mut Vec<Vec<u8>>,
    text: &mut Vec<u8>,
    tally: &mut Tally,
) -> Result<(), SessionFault>
    ensures fault { IfErr result (StopsBytes false begun.old.items (byte ∷ [])) }
    ensures begun { OnOk result (begun.new.items ≡ unfinished_from begun.old.items (byte ∷ [])) }
    ensures taken { (kept : List (List ℕ)) → O.stands setup.now register.old kept → OnOk result
        (TakesLines (O.leaves setup.now) (O.answers setup.now) (O.stands setup.now register.new) kept (lines_from begun.old.items (byte ∷ [])) (batch_of batch.old.items) (batch_of batch.new.items) text.old.items text.new.items) }
    ensures tally { (kept : List (List ℕ)) → O.stands setup.now register.old kept → OnOk result
        (tally.new ≡ tally_after (O.leaves setup.now) (O.outcome setup.now) tally.old kept (lines_from begun.old.items (byte ∷ []))) }
{
    if ends_line(byte) {
        let outcome = register.take(setup, alloc, begun, batch, text)?;
        *tally = tally.counted(outcome);
        begun.clear();
        return Ok(());
    }
    go_on(begun, byte)?;
    Ok(())
}

// Takes the lines that these bytes end, the first of which has begun. What comes after the last end begins the next.
pub(crate) fn gather<O: Register>(
    setup: &O::Setup,
    alloc: Global,
    register: &mut O,
    begun: &mut Vec<u8>,
    bytes: &[u8],
    batch: &mut Vec<Vec<u8>>,
    text: &mut Vec<u8>,
    tally: &mut Tally,
) -> Result<(), SessionFault>
    ensures fault { IfErr result (StopsBytes false begun.old.items bytes.now) }
    ensures begun { OnOk result (begun.new.items ≡ unfinished_from begun.old.items bytes.now) }
    ensures taken { (kept : List (List ℕ)) → O.stands setup.now register.old kept → OnOk result
        (TakesLines (O.leaves setup.now) (O.answers setup.now) (O.stands setup.now register.new) kept (lines_from begun.old.items bytes.now) (batch_of batch.old.items) (batch_of batch.new.items) text.old.items text.new.items) }
    ensures tally { (kept : List (List ℕ)) → O.stands setup.now register.old kept → OnOk result
        (tally.new ≡ tally_after (O.leaves setup.now) (O.outcome setup.now) tally.old kept (lines_from begun.old.items bytes.now)) }
{
    'bytes: for byte in bytes {
        take_byte(setup, alloc, register, begun, *byte, batch, text, tally)?;
    }
    Ok(())
}
