//! A batch, packed into the bytes that are written for it.
ghost use Rattle.std.specs.Prelude.{◌≡◌, ◌<◌, ◌≤◌, ◌+◌, ◌^◌, ◌++◌, ℕ, [], ◌∷◌, length, All, IfOk, IfErr};
ghost use Rattle.desk_journal.specs.Frames.{checksum, packed, frames, frame_of, last_checksum, size_of_last};
ghost use Rattle.desk_journal.specs.Batches.{frames_after};
ghost use Rattle.desk_journal.specs.Faults.{HasPackFault};

use crate::JournalFault;
use crate::checksum::checksum_of;

/// The most bytes of an entry, without its stamp.
pub const LONGEST: usize = 16_777_216;

// Adds the frame of a stamp and an entry after an open latch, and gives its checksum.
fn push_frame(
    buffer: &mut Vec<u8>,
    previous: &[u8; 32],
    durable: u32,
    stamp: &[u8],
    entry: &[u8],
) -> Result<[u8; 32], JournalFault>
    requires { length stamp.now + length entry.now < 2 ^ 32 }
    ensures bytes { IfOk result (λ _. buffer.new.items ≡ buffer.old.items ++ 43 ∷ 43 ∷ packed previous.now (frame_of durable (stamp.now ++ entry.now))) }
    ensures sum { IfOk result (λ sum. sum ≡ checksum previous.now (frame_of durable (stamp.now ++ entry.now))) }
    ensures cause { IfErr result (λ e. e ≡ JournalFault.OutOfMemory) }
{
    let durable = durable.to_be_bytes();
    let size = ((stamp.len() + entry.len()) as u32).to_be_bytes();
    let sum = checksum_of(previous, &durable, &size, stamp, entry);
    buffer.extend_from_slice(b"++")?;
    buffer.extend_from_slice(&durable)?;
    buffer.extend_from_slice(&size)?;
    buffer.extend_from_slice(&sum)?;
    buffer.extend_from_slice(stamp)?;
    buffer.extend_from_slice(entry)?;
    Ok(sum)
}

/// How many bytes the last entry of a batch has with its stamp, and `earlier` where the batch has none.
pub fn size_of_last(earlier: usize, stamp: &[u8], batch: &[Vec<u8>]) -> usize
    ensures { (durable : ℕ) → result ≡ size_of_last earlier (frames_after durable stamp.now batch.now) }
{
    match batch.split_last() {
        None => earlier,
        Some((entry, _)) => stamp.len() + entry.len(),
    }
}

/// Adds the frames of a batch, each after an open latch and with the same stamp, and gives the checksum of the last.
pub fn pack(
    buffer: &mut Vec<u8>,
    previous: &[u8; 32],
    durable: u32,
    stamp: &[u8],
    batch: &[Vec<u8>],
) -> Result<[u8; 32], JournalFault>
    requires empty { buffer.old.items ≡ [] }
    requires short { length stamp.now ≤ 209 }
    ensures bytes { IfOk result (λ _. buffer.new.items ≡ frames previous.now (frames_after durable stamp.now batch.now)) }
    ensures sum { IfOk result (λ sum. sum ≡ last_checksum previous.now (frames_after durable stamp.now batch.now)) }
    ensures short { IfOk result (λ _. All (λ v. length v.items ≤ 16777216) batch.now) }
    ensures cause { IfErr result (HasPackFault batch.now) }
{
    let mut sum = *previous;
    for entry in batch {
        let bytes = entry.as_slice();
        if bytes.len() > LONGEST {
            return Err(JournalFault::Full);
        }
        sum = push_frame(buffer, &sum, durable, stamp, bytes)?;
    }
    Ok(sum)
}
