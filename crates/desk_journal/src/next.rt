//! One frame, read from known bytes.
ghost use Rattle.std.specs.Prelude.{◌<◌, ◌↔◌, ◌∷◌, ℕ, length, IsTrue, IfSome, IfNone, MatchOption};
ghost use Rattle.desk_journal.specs.Frames.{AreShut, IsShut};
ghost use Rattle.desk_journal.specs.Reading.{HasNoBody, HasNoFrame, HasNoLatch, IsBehind, IsBody, IsNext, IsOfFirst, IsOfSecond, IsOlder};
ghost use Rattle.desk_journal.specs.Stamps.{HasStamp};

use crate::checksum::{checksum_of, first_format, number_in, second_format};
use crate::stamp::has_stamp;

/// A frame, and what comes after it.
#[derive(Clone, Copy)]
pub struct Found<'a> {
    /// How many entries were durable before the entry's batch.
    pub durable: u32,
    pub checksum: [u8; 32],
    /// The stamp and the entry.
    pub content: &'a [u8],
    pub rest: &'a [u8],
}

/// Whether a shut latch is here.
pub fn is_shut(bytes: &[u8]) -> bool
    ensures { IsTrue result ↔ IsShut bytes.now }
{
    bytes.len() >= 2 && bytes[0] == 45 && bytes[1] == 45
}

/// What comes after a latch that isn't shut, where one is here.
pub fn behind_latch(bytes: &[u8]) -> Option<&[u8]>
    ensures { MatchOption result (HasNoLatch bytes.now) (λ behind. IsBehind bytes.now behind.now) }
{
    if bytes.len() < 2 || is_shut(bytes) {
        return None;
    }
    Some(bytes.split_at(2).1)
}

// What these bytes begin with that would come after a frame's latch, where the entry before it has that checksum: none where it is cut
// short or has another checksum.
fn next_sized<'a>(behind: &'a [u8], previous: &[u8; 32]) -> Option<Found<'a>>
    ensures some { IfSome result (λ found. IsBody previous.now behind.now found.durable found.checksum found.content.now found.rest.now) }
    ensures none { IfNone result (HasNoBody previous.now behind.now) }
    ensures shorter { IfSome result (λ found. length found.rest.now < length behind.now) }
{
    if behind.len() < 40 {
        return None;
    }
    let (durable, after_durable) = behind.split_at(4);
    let (size, after_size) = after_durable.split_at(4);
    let (sum, after_sum) = after_size.split_at(32);
    let long = number_in(size) as usize;
    if after_sum.len() < long {
        return None;
    }
    let (content, rest) = after_sum.split_at(long);
    let checksum = checksum_of(previous, durable, size, b"", content);
    if checksum.as_slice() != sum {
        return None;
    }
    Some(Found {
        durable: number_in(durable),
        checksum,
        content,
        rest,
    })
}

/// The frame that these bytes begin with after its latch, where the entry before it has that checksum: none where the frame is cut
/// short, has another checksum or no whole stamp.
pub fn next_body<'a>(behind: &'a [u8], previous: &[u8; 32]) -> Option<Found<'a>>
    ensures some { IfSome result (λ found. (latch second : ℕ) → (AreShut latch second → ⊥) → IsNext previous.now (latch ∷ second ∷ behind.now) found.durable found.checksum found.content.now found.rest.now) }
    ensures none { IfNone result ((latch second : ℕ) → HasNoFrame previous.now (latch ∷ second ∷ behind.now)) }
    ensures shorter { IfSome result (λ found. length found.rest.now < length behind.now) }
    ensures stamped { IfSome result (λ found. HasStamp found.content.now) }
{
    match next_sized(behind, previous) {
        None => None,
        Some(found) => {
            if has_stamp(found.content) {
                Some(found)
            } else {
                None
            }
        }
    }
}

/// The frame that these bytes begin with, with its latch: none also where the latch is shut.
pub fn next_frame<'a>(bytes: &'a [u8], previous: &[u8; 32]) -> Option<Found<'a>>
    ensures some { IfSome result (λ found. IsNext previous.now bytes.now found.durable found.checksum found.content.now found.rest.now) }
    ensures none { IfNone result (HasNoFrame previous.now bytes.now) }
    ensures shorter { IfSome result (λ found. length found.rest.now < length bytes.now) }
    ensures stamped { IfSome result (λ found. HasStamp found.content.now) }
{
    match behind_latch(bytes) {
        None => None,
        Some(behind) => next_body(behind, previous),
    }
}

// Whether these bytes are a journal of the first format.
fn is_of_first(bytes: &[u8]) -> bool
    ensures { IsTrue result ↔ IsOfFirst bytes.now }
{
    match bytes {
        [b'+', behind @ ..] => next_sized(behind, &first_format()).is_some(),
        _ => false,
    }
}

// Whether these bytes are a journal of the second format.
fn is_of_second(bytes: &[u8]) -> bool
    ensures { IsTrue result ↔ IsOfSecond bytes.now }
{
    match bytes {
        [b'+', b'+', behind @ ..] => next_sized(behind, &second_format()).is_some(),
        _ => false,
    }
}

/// Whether these bytes are a journal of an earlier format.
pub fn is_older(bytes: &[u8]) -> bool
    ensures { IsTrue result ↔ IsOlder bytes.now }
{
    is_of_first(bytes) || is_of_second(bytes)
}
