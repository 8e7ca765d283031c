//! Writing the whole output.

ghost use Rattle.std.specs.Prelude.{◌≡◌, true, false, OnOk, OnErr};
ghost use Rattle.std.specs.Io.KnownBytes.{Appends};
ghost use Rattle.program_streams.specs.Watched.{watched, has_failed};
ghost use Rattle.program_streams.specs.Limits.{AppendsFront, IsGiven};

use crate::fault::StreamFault;
use crate::watched::Watched;
use std::io::Write;

/// Writes all of the text. `Write` at the first write that answers with an error or takes no byte; what
/// was written until then is a beginning of the text.
pub fn write_all<W: Write>(writer: &mut Watched<W>, text: &[u8]) -> Result<(), StreamFault>
    requires { has_failed writer.old ≡ false }
    ensures written { OnOk result (Appends (W.contents (watched writer.old)) (W.contents (watched writer.new)) text.now) }
    ensures given { IsGiven W.contents writer.old writer.new text.now }
    ensures worked { OnOk result (has_failed writer.new ≡ false) }
    ensures front { OnErr result (AppendsFront (W.contents (watched writer.old)) (W.contents (watched writer.new)) text.now) }
    ensures failed { OnErr result (has_failed writer.new ≡ true) }
    ensures fault { OnErr result (result ≡ Err StreamFault.Write) }
{
    let mut rest = text;
    while !rest.is_empty() {
        match writer.write(rest) {
            Ok(count) if count > 0 => rest = rest.split_at(count).1,
            _ => return Err(StreamFault::Write),
        }
    }
    Ok(())
}
