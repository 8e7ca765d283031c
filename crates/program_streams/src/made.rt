//! A text that is made before it is written.

ghost use Rattle.std.specs.Prelude.{◌≡◌, ◌≢◌, true, false, OnOk, OnErr};
ghost use Rattle.std.specs.Io.KnownBytes.{Appends};
ghost use Rattle.program_streams.specs.Watched.{has_failed, was_called_again, watched};
ghost use Rattle.program_streams.specs.Limits.{AppendsFront};

use crate::fault::StreamFault;
use crate::gathered::Gathered;
use crate::watched::Watched;
use std::alloc::Global;
use std::io::Write;

/// A text that is made, though its bytes need not lie in one place. To write it takes no memory.
pub trait MadeText: Drop {
    ghost use Rattle.std.specs.Prelude.{ℕ, List};
    ghost use Rattle.program_streams.specs.Gathered.{Adds};

    ghost bytes: { Self → List ℕ };

    /// Hands over all its bytes, in order.
    fn hand_over<W: Write>(self, gathered: &mut Gathered, writer: &mut Watched<W>)
        ensures { Adds W.contents writer.old gathered.old writer.new gathered.new (bytes self) };
}

impl MadeText for Vec<u8> {
    ghost bytes = { λ text. text.items };

    fn hand_over<W: Write>(self, gathered: &mut Gathered, writer: &mut Watched<W>) {
        gathered.add(writer, self.as_slice());
    }
}

/// Writes all of the text. `Write` where a write answers with an error or takes no byte; what was written until then is
/// a beginning of the text. `OutOfMemory` comes before the first write.
pub fn write_text<W: Write, T: MadeText>(
    alloc: Global,
    writer: &mut Watched<W>,
    text: T,
) -> Result<(), StreamFault>
    requires { has_failed writer.old ≡ false }
    ensures written { OnOk result (Appends (W.contents (watched writer.old)) (W.contents (watched writer.new)) (T.bytes text)) }
    ensures worked { OnOk result (has_failed writer.new ≡ false) }
    ensures front { result ≡ Err StreamFault.Write → AppendsFront (W.contents (watched writer.old)) (W.contents (watched writer.new)) (T.bytes text) }
    ensures failed { result ≡ Err StreamFault.Write → has_failed writer.new ≡ true }
    ensures fault { OnErr result (result ≢ Err StreamFault.Write → (result ≡ Err StreamFault.OutOfMemory) × (writer.new ≡ writer.old)) }
    ensures again { was_called_again writer.new ≡ was_called_again writer.old }
{
    let Ok(mut gathered) = Gathered::new(alloc) else {
        return Err(StreamFault::OutOfMemory);
    };
    text.hand_over(&mut gathered, writer);
    gathered.flush(writer);
    if writer.failed() {
        return Err(StreamFault::Write);
    }
    Ok(())
}
