//! Reading the whole input, within limits.

ghost use Rattle.std.specs.Prelude.{◌≡◌, ◌⊎◌, true, false, vec_len, IfOk, IfErr, IfSome, OnOk};
ghost use Rattle.program_streams.specs.Watched.{watched, has_failed, has_ended, was_called_again};
ghost use Rattle.program_streams.specs.Limits.{WasCutShort, WasReadWhole};

use crate::fault::StreamFault;
use crate::watched::Watched;
use std::alloc::Global;
use std::io::Read;

/// How many bytes of input are taken.
pub const MAX_INPUT_BYTES: usize = 16_777_216;

/// How often an input is read from.
pub const MAX_READ_CALLS: u32 = 17_000_000;

// How many bytes are asked for at once.
const CHUNK_BYTES: usize = 65_536;

/// All that the reader has left. `Read` at the first read that answers with an error, at a byte past
/// `MAX_INPUT_BYTES`, and where `MAX_READ_CALLS` reads didn't come to the end. After a read that answered with an error
/// there is no other.
pub fn read_all<R: Read>(alloc: Global, reader: &mut Watched<R>) -> Result<Vec<u8>, StreamFault>
    requires working { has_failed reader.old ≡ false }
    requires not_ended { has_ended reader.old ≡ false }

    ensures bytes { IfOk result (λ input. IfSome (R.remaining (watched reader.old)) (λ bytes. input.items ≡ bytes)) }
    ensures whole { OnOk result (WasReadWhole reader.old reader.new) }

    ensures failed { has_failed reader.new ≡ true → result ≡ Err StreamFault.Read }
    ensures again { was_called_again reader.new ≡ was_called_again reader.old }
    ensures short { result ≡ Err StreamFault.Read → WasCutShort reader.old reader.new }
    ensures faults { IfErr result (λ fault. (fault ≡ StreamFault.Read) ⊎ (fault ≡ StreamFault.OutOfMemory)) }
{
    let mut input = Vec::new(alloc);
    let mut buffer = buffer_of(alloc, CHUNK_BYTES)?;
    let chunk = buffer.as_mut_slice();
    'reads: for _ in 0..MAX_READ_CALLS {
        let Ok(count) = reader.read(chunk) else {
            return Err(StreamFault::Read);
        };
        if count == 0 {
            return Ok(input);
        }
        if count > MAX_INPUT_BYTES - input.len() {
            return Err(StreamFault::Read);
        }
        if input.extend_from_slice(&chunk[..count]).is_err() {
            return Err(StreamFault::OutOfMemory);
        }
    }
    Err(StreamFault::Read)
}

// Room for that number of bytes. It lies on the heap, since a function pays at its entry for the size of its locals.
fn buffer_of(alloc: Global, count: usize) -> Result<Vec<u8>, StreamFault>
    ensures room { IfOk result (λ buffer. vec_len buffer ≡ count) }
    ensures fault { IfErr result (λ fault. fault ≡ StreamFault.OutOfMemory) }
{
    match vec![in alloc; 0u8; count] {
        Ok(buffer) => Ok(buffer),
        Err(_) => Err(StreamFault::OutOfMemory),
    }
}
