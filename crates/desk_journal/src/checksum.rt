//! The checksum of an entry, which takes in that of the entry before it.
ghost use Rattle.std.specs.Prelude.{◌≡◌, ◌++◌, length};
ghost use Rattle.desk_journal.specs.Frames.{checksum, first_checksum, first_format_checksum, number_of, second_format_checksum};

use sha2::{Digest, Sha256};

/// The checksum of the frame of these two numbers, each as four bytes, and of a content in two parts.
#[tactic(auto, unfolding(crate::specs::Frames::checksum))]
pub fn checksum_of(
    previous: &[u8; 32],
    durable: &[u8],
    size: &[u8],
    stamp: &[u8],
    entry: &[u8],
) -> [u8; 32]
    ensures { result ≡ checksum previous.now (record { latch = 43; second = 43; durable = durable.now; size = size.now; content = stamp.now ++ entry.now }) }
{
    let mut hasher = Sha256::new();
    hasher.update(previous.as_slice());
    hasher.update(durable);
    hasher.update(size);
    hasher.update(stamp);
    hasher.update(entry);
    hasher.finalize()
}

/// What counts as the checksum before the first entry: the SHA-256 of the format's name and version. So a file of another
/// format is never read as one of this.
#[tactic(auto, unfolding(crate::specs::Frames::first_checksum))]
pub fn first() -> [u8; 32]
    ensures { result ≡ first_checksum }
{
    Sha256::digest(b"durable journal, version 3")
}

/// The same of the first format.
#[tactic(auto, unfolding(crate::specs::Frames::first_format_checksum))]
pub fn first_format() -> [u8; 32]
    ensures { result ≡ first_format_checksum }
{
    Sha256::digest(b"durable journal, version 1")
}

/// The same of the second format.
#[tactic(auto, unfolding(crate::specs::Frames::second_format_checksum))]
pub fn second_format() -> [u8; 32]
    ensures { result ≡ second_format_checksum }
{
    Sha256::digest(b"durable journal, version 2")
}

/// Four bytes as a number, the highest first.
#[tactic(auto, unfolding(crate::specs::Frames::number_of))]
pub fn number_in(bytes: &[u8]) -> u32
    requires { length bytes.now ≡ 4 }
    ensures { result ≡ number_of bytes.now }
{
    u32::from_be_bytes([bytes[0], bytes[1], bytes[2], bytes[3]])
}
