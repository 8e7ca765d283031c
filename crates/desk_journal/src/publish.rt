//! A batch that a crash leaves whole or without effect: it counts once the latch before it is written.
ghost use Rattle.std.specs.Prelude.{◌≡◌, ◌⊎◌, ◌<◌, ◌+◌, ◌^◌, [], ◌∷◌, ◌++◌, List, ℕ, length, IsTrue, IfErr, OnOk};
ghost use Rattle.sqlite_disk.specs.Disk.{CountsFault};
ghost use Rattle.desk_journal.specs.Disks.{IsDurable, IsLonger, IsAround};
ghost use Rattle.desk_journal.specs.Faults.{HasWriteFault};

use crate::JournalFault;
use crate::latch::{open_latch, write_end};
use sqlite_disk::Disk;

/// Writes these bytes after the shut latch at `end`, and opens the latch once they are on the disk.
pub fn publish<D: Disk>(disk: &mut D, end: usize, behind: &[u8]) -> Result<(), JournalFault>
    requires usable { IsTrue (D.Disk.is_usable disk.old) }
    requires some { 0 < length behind.now }
    requires fits { end + 2 < 2 ^ 64 }
    ensures durable { (front : List ℕ) → length front ≡ end → IsDurable D.Disk (front ++ 45 ∷ 45 ∷ []) disk.old
        → OnOk result (IsDurable D.Disk (front ++ 43 ∷ 43 ∷ behind.now) disk.new) }
    ensures crash { (front : List ℕ) → length front ≡ end → IsDurable D.Disk (front ++ 45 ∷ 45 ∷ []) disk.old
        → (c : List ℕ) → D.Disk.may_leave disk.new c → IsLonger (front ++ 45 ∷ 45 ∷ []) c ⊎ IsAround front behind.now c }
    ensures clean { D.Disk.is_clean disk.new ≡ D.Disk.is_clean disk.old }
    ensures faults { CountsFault result (D.Disk.faults disk.old) (D.Disk.faults disk.new) }
    ensures cause { IfErr result HasWriteFault }
{
    match write_end(disk, end + 2, behind) {
        Ok(()) => open_latch(disk, end),
        Err(fault) => Err(fault),
    }
}
