//! Who entered an entry, and when.
ghost use Rattle.std.specs.Prelude.{◌≡◌, ◌≤◌, ◌<◌, ◌^◌, ◌↔◌, length, max, take, IsTrue, IfOk, IfErr};
ghost use Rattle.desk_journal.specs.Stamps.{HasStamp, IsStamp, StampView, entry_in, stamp_bytes, stamp_in, stamp_size, time_after, time_of};

use crate::JournalFault;
use std::alloc::Global;
use std::marker::Model;

/// The most bytes of an account.
pub const LONGEST_ACCOUNT: usize = 200;

/// Who enters entries, and when: it is kept with each of them.
#[derive(Drop)]
pub struct Stamp {
    // Seconds of UTC since 1970-01-01T00:00:00.
    time: u64,
    // As text, of at most 200 bytes.
    account: Vec<u8>,
}

impl Model for Stamp {
    ghost Value = { StampView };

    ghost view = { λ s. record { time = s.time; account = s.account.items } };

    ghost invariant = { λ s. (s.time < 2 ^ 64) × (length s.account.items ≤ 200) };
}

impl Stamp {
    /// The stamp of this second of UTC, counted from 1970-01-01T00:00:00, and of this account. Of an account of more than 200 bytes
    /// the first 200 are kept.
    pub fn new(time: u64, account: Vec<u8>) -> Stamp
        ensures { result ≡ record { time = time; account = take 200 account.items } }
    {
        let mut account = account;
        account.truncate(LONGEST_ACCOUNT);
        Stamp { time, account }
    }

    /// The second of UTC, counted from 1970-01-01T00:00:00.
    pub fn time(&self) -> u64
        ensures { result ≡ self.now.time }
    {
        self.time
    }

    /// The account, as text of at most 200 bytes.
    pub fn account(&self) -> &[u8]
        ensures account { result.now ≡ self.now.account }
        ensures short { length result.now ≤ 200 }
    {
        self.account.as_slice()
    }

    // Sets the time to this one, unless it is earlier.
    pub(crate) fn not_before(&mut self, time: u64)
        ensures { self.new ≡ record { time = max self.old.time time; account = self.old.account } }
    {
        if self.time < time {
            self.time = time;
        }
    }

    // Writes it over what `front` has.
    pub(crate) fn write(&self, front: &mut Vec<u8>) -> Result<(), JournalFault>
        ensures bytes { IfOk result (λ _. front.new.items ≡ stamp_bytes self.now) }
        ensures stamp { IsStamp self.now }
        ensures cause { IfErr result (λ e. e ≡ JournalFault.OutOfMemory) }
    {
        front.clear();
        front.push(8 + self.account.len() as u8)?;
        front.extend_from_slice(&self.time.to_be_bytes())?;
        front.extend_from_slice(self.account.as_slice())?;
        Ok(())
    }
}

// How many bytes the stamp takes with which a content begins.
fn size_of_stamp(content: &[u8]) -> usize
    ensures { result ≡ stamp_size content.now }
{
    match content {
        [] => 0,
        [count, ..] => *count as usize + 1,
    }
}

/// Whether a content begins with a whole stamp.
pub fn has_stamp(content: &[u8]) -> bool
    ensures { IsTrue result ↔ HasStamp content.now }
{
    let size = size_of_stamp(content);
    size >= 9 && size <= 209 && size <= content.len()
}

/// The entry of a content.
pub fn entry_in(content: &[u8]) -> &[u8]
    requires { HasStamp content.now }
    ensures { result.now ≡ entry_in content.now }
{
    content.split_at(size_of_stamp(content)).1
}

// Eight bytes as a time, the highest first.
#[tactic(auto, unfolding(crate::specs::Stamps::time_of))]
fn time_of(bytes: &[u8]) -> u64
    requires { length bytes.now ≡ 8 }
    ensures { result ≡ time_of bytes.now }
{
    u64::from_be_bytes([
        bytes[0], bytes[1], bytes[2], bytes[3], bytes[4], bytes[5], bytes[6], bytes[7],
    ])
}

/// The stamp of a content.
pub fn stamp_in(alloc: Global, content: &[u8]) -> Result<Stamp, JournalFault>
    requires { HasStamp content.now }
    ensures stamp { IfOk result (λ stamp. stamp ≡ stamp_in content.now) }
    ensures cause { IfErr result (λ e. e ≡ JournalFault.OutOfMemory) }
{
    let (_, after_count) = content.split_at(1);
    let (time, _) = after_count.split_at(8);
    let (stamp, _) = content.split_at(size_of_stamp(content));
    let (_, account) = stamp.split_at(9);
    Ok(Stamp::new(time_of(time), Vec::from_slice(alloc, account)?))
}

/// The time of the last of these stamps, and `earlier` where there is none.
pub fn last_time(earlier: u64, stamps: &[Stamp]) -> u64
    ensures { result ≡ time_after earlier stamps.now }
{
    match stamps.split_last() {
        None => earlier,
        Some((stamp, _)) => stamp.time(),
    }
}
