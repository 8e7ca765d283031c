//! Where a journal ends that was left.
ghost use Rattle.std.specs.Prelude.{◌≡◌, ◌⊎◌, ◌<◌, ◌≤◌, ◌+◌, [], length, take, drop, IfSome, IfNone, MatchOption};

use crate::checksum::first;

/// Where a journal ends that was left, and what is known of its last entry: enough to go on from there, where others have appended since.
#[derive(Clone, Copy, Debug)]
pub struct JournalEnd {
    // The place of the shut latch, counted from the file's first byte as 0.
    pub(crate) place: usize,
    pub(crate) count: u32,
    // The checksum of the last entry.
    pub(crate) last: [u8; 32],
    // How many bytes the last entry has with its stamp, and 0 where there is none.
    pub(crate) last_size: usize,
    // The second of UTC, counted from 1970-01-01T00:00:00, before which nothing is appended.
    pub(crate) time: u64,
}

impl JournalEnd {
    ghost use Rattle.desk_journal.specs.Left.{IsEndOf, place_of_end, time_of_end};

    // The end of a journal without entries.
    pub(crate) fn none() -> JournalEnd
        ensures end { IsEndOf [] result }
        ensures time { time_of_end result ≡ 0 }
    {
        JournalEnd {
            place: 0,
            count: 0,
            last: first(),
            last_size: 0,
            time: 0,
        }
    }

    /// The place of the shut latch, counted from the file's first byte as 0.
    pub fn place(&self) -> usize
        ensures { result ≡ place_of_end self.now }
    {
        self.place
    }

    // The place of the last entry's checksum in a file of so many bytes: none where it is shorter, or no such entry is before the end.
    pub(crate) fn place_of_last(&self, len: usize) -> Option<usize>
        ensures some { IfSome result (λ at. (at + 32 + self.now.last_size ≡ self.now.place) × (self.now.place ≤ len)) }
        ensures none { IfNone result ((len < self.now.place) ⊎ (self.now.place < 32 + self.now.last_size)) }
    {
        if len < self.place || self.place < 32 || self.place - 32 < self.last_size {
            return None;
        }
        Some(self.place - 32 - self.last_size)
    }

    // What comes after the last entry, where these bytes begin with its checksum.
    pub(crate) fn behind_last<'a>(&self, bytes: &'a [u8]) -> Option<&'a [u8]>
        requires { 32 + self.now.last_size ≤ length bytes.now }
        ensures { MatchOption result (take 32 bytes.now ≡ self.now.last → ⊥) (λ behind. (take 32 bytes.now ≡ self.now.last) × (behind.now ≡ drop (32 + self.now.last_size) bytes.now)) }
    {
        let (sum, after_sum) = bytes.split_at(32);
        if sum != self.last.as_slice() {
            return None;
        }
        Some(after_sum.split_at(self.last_size).1)
    }
}
