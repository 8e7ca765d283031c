//! A journal that was left, and to whose file others have appended since: only what they appended is read.
ghost use Rattle.std.specs.Prelude.{◌≡◌, ◌⊎◌, ◌<◌, ◌+◌, ◌^◌, ℕ, List, length, All, IsTrue, IfOk, IfErr, OnOk};
ghost use Rattle.desk_journal.specs.Disks.{IsDurable};
ghost use Rattle.desk_journal.specs.Faults.{HasDiskFault, HasResumeFault, HasWriteFault};
ghost use Rattle.desk_journal.specs.Frames.{Frame, IsFrame, StandsFor};
ghost use Rattle.desk_journal.specs.Left.{BeginsWith, HasLast, IsEndOf};
ghost use Rattle.desk_journal.specs.Reading.{IsWhole};
ghost use Rattle.desk_journal.specs.Recovered.{IsFound, IsRepaired};
ghost use Rattle.desk_journal.specs.Stamps.{time_after};

use crate::JournalFault;
use crate::journal_end::JournalEnd;
use crate::latch::cut_behind;
use crate::reading::{length_of, read_from};
use crate::recovery::{Recovered, read_after};
use sqlite_disk::Disk;
use std::alloc::Global;

// The entries of a disk's file after the end that is known, and where they end. Nothing is written.
fn read_more<D: Disk>(
    alloc: Global,
    disk: &mut D,
    end: &JournalEnd,
) -> Result<Recovered, JournalFault>
    ensures found { (file : List ℕ) (fs : List Frame) → IsDurable D.Disk file disk.old → IsEndOf fs end.now → BeginsWith file fs
        → IfOk result (λ r. IsTrue (D.Disk.is_clean disk.new) → IsFound fs file r.entries.items r.stamps.items r.end × IsWhole file) }
    ensures same { (file : List ℕ) → IsDurable D.Disk file disk.old → OnOk result (IsTrue (D.Disk.is_clean disk.new) → HasLast file end.now) }
    ensures durable { (file : List ℕ) → IsDurable D.Disk file disk.old → IsDurable D.Disk file disk.new }
    ensures usable { OnOk result (IsTrue (D.Disk.is_usable disk.new)) }
    ensures fits { IfOk result (λ r. r.end.place + 2 < 2 ^ 64) }
    ensures time { IfOk result (λ r. r.end.time ≡ time_after end.now.time r.stamps.items) }
    ensures clean { IsTrue (D.Disk.is_clean disk.new) → IsTrue (D.Disk.is_clean disk.old) }
    ensures faults { OnOk result (D.Disk.faults disk.new ≡ D.Disk.faults disk.old) }
    ensures cause { (file : List ℕ) (fs : List Frame) → IsDurable D.Disk file disk.old → IsEndOf fs end.now → 0 < length fs → BeginsWith file fs
        → IfErr result (λ e. IsTrue (D.Disk.is_clean disk.new) → HasDiskFault (D.Disk.faults disk.old) (D.Disk.faults disk.new) file e) }
{
    if end.count == 0 {
        return Err(JournalFault::NoEntries);
    }
    if !disk.may_be_used() {
        return Err(JournalFault::Sync);
    }
    let len = length_of(disk)?;
    match end.place_of_last(len) {
        None => Err(JournalFault::Changed),
        Some(at) => {
            let bytes = read_from(alloc, disk, at, len - at)?;
            match end.behind_last(&bytes) {
                None => Err(JournalFault::Changed),
                Some(behind) => read_after(alloc, behind, end),
            }
        }
    }
}

/// Reads the entries that a file has after the end that is known, and cuts what a crash left after its shut latch. A crash within it leaves
/// a file that stands for the same entries. Where the file isn't that of the end, or one of the entries is damaged, nothing is written.
pub fn follow<D: Disk>(
    alloc: Global,
    disk: &mut D,
    end: &JournalEnd,
) -> Result<Recovered, JournalFault>
    ensures entries { (file : List ℕ) (fs : List Frame) → IsDurable D.Disk file disk.old → IsEndOf fs end.now → BeginsWith file fs
        → IfOk result (λ r. IsTrue (D.Disk.is_clean disk.new) → IsRepaired D.Disk fs file r.entries.items r.stamps.items r.end disk.new) }
    ensures same { (file : List ℕ) → IsDurable D.Disk file disk.old → OnOk result (IsTrue (D.Disk.is_clean disk.new) → HasLast file end.now) }
    ensures time { IfOk result (λ r. r.end.time ≡ time_after end.now.time r.stamps.items) }
    ensures crash { (file : List ℕ) (fs : List Frame) (entries : List (List ℕ)) → IsDurable D.Disk file disk.old → IsEndOf fs end.now → BeginsWith file fs
        → StandsFor file entries → IsTrue (D.Disk.is_clean disk.new) → (c : List ℕ) → D.Disk.may_leave disk.new c → StandsFor c entries }
    ensures begins { (file : List ℕ) (fs first : List Frame) → IsDurable D.Disk file disk.old → IsEndOf fs end.now → BeginsWith file fs
        → All IsFrame first → BeginsWith file first → IsTrue (D.Disk.is_clean disk.new) → (c : List ℕ) → D.Disk.may_leave disk.new c → BeginsWith c first }
    ensures cause { (file : List ℕ) (fs : List Frame) → IsDurable D.Disk file disk.old → IsEndOf fs end.now → 0 < length fs → BeginsWith file fs
        → IfErr result (λ e. IsTrue (D.Disk.is_clean disk.new) → HasResumeFault (D.Disk.faults disk.old) (D.Disk.faults disk.new) file e) }
    ensures untouched { (file : List ℕ) → IsDurable D.Disk file disk.old
        → IfErr result (λ e. IsDurable D.Disk file disk.new ⊎ HasWriteFault e) }
{
    let found = read_more(alloc, disk, end)?;
    cut_behind(disk, found.end.place)?;
    Ok(found)
}
