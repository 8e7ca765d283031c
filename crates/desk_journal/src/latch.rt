//! The calls of a disk that a journal makes to write: what each leaves, and what a crash within it may leave.
ghost use Rattle.std.specs.Prelude.{◌≡◌, ◌<◌, ◌≤◌, ◌+◌, ◌^◌, ℕ, [], ◌∷◌, ◌++◌, List, length, IsTrue, IfErr, OnOk};
ghost use Rattle.sqlite_disk.specs.Disk.{Only, CountsFault};
ghost use Rattle.desk_journal.specs.Disks.{IsDurable, IsLonger, IsAround};
ghost use Rattle.desk_journal.specs.Faults.{HasWriteFault};

use crate::JournalFault;
use sqlite_disk::Disk;

// After it, a crash leaves what a read returns.
fn sync<D: Disk>(disk: &mut D) -> Result<(), JournalFault>
    requires { IsTrue (D.Disk.is_usable disk.old) }
    ensures durable { OnOk result (IsDurable D.Disk (D.Disk.seen disk.old) disk.new) }
    ensures crash { (c : List ℕ) → D.Disk.may_leave disk.new c → D.Disk.may_leave disk.old c }
    ensures clean { D.Disk.is_clean disk.new ≡ D.Disk.is_clean disk.old }
    ensures faults { CountsFault result (D.Disk.faults disk.old) (D.Disk.faults disk.new) }
    ensures cause { IfErr result HasWriteFault }
{
    match disk.sync() {
        Ok(()) => Ok(()),
        Err(_) => Err(JournalFault::Sync),
    }
}

/// Writes these bytes after the end of the file.
pub fn write_end<D: Disk>(disk: &mut D, end: usize, bytes: &[u8]) -> Result<(), JournalFault>
    requires usable { IsTrue (D.Disk.is_usable disk.old) }
    requires some { 0 < length bytes.now }
    ensures durable { (file : List ℕ) → length file ≡ end → IsDurable D.Disk file disk.old
        → OnOk result (IsDurable D.Disk (file ++ bytes.now) disk.new) }
    ensures crash { (file : List ℕ) → length file ≡ end → IsDurable D.Disk file disk.old
        → (c : List ℕ) → D.Disk.may_leave disk.new c → IsLonger file c }
    ensures usable { OnOk result (IsTrue (D.Disk.is_usable disk.new)) }
    ensures clean { D.Disk.is_clean disk.new ≡ D.Disk.is_clean disk.old }
    ensures faults { CountsFault result (D.Disk.faults disk.old) (D.Disk.faults disk.new) }
    ensures cause { IfErr result HasWriteFault }
{
    match disk.write_at(end, bytes) {
        Ok(()) => sync(disk),
        Err(_) => Err(JournalFault::Write),
    }
}

/// Writes an open latch over two bytes.
pub fn open_latch<D: Disk>(disk: &mut D, at: usize) -> Result<(), JournalFault>
    requires { IsTrue (D.Disk.is_usable disk.old) }
    ensures durable { (front tail : List ℕ) (latch second : ℕ) → length front ≡ at → IsDurable D.Disk (front ++ latch ∷ second ∷ tail) disk.old
        → OnOk result (IsDurable D.Disk (front ++ 43 ∷ 43 ∷ tail) disk.new) }
    ensures crash { (front tail : List ℕ) (latch second : ℕ) → length front ≡ at → IsDurable D.Disk (front ++ latch ∷ second ∷ tail) disk.old
        → (c : List ℕ) → D.Disk.may_leave disk.new c → IsAround front tail c }
    ensures usable { OnOk result (IsTrue (D.Disk.is_usable disk.new)) }
    ensures clean { D.Disk.is_clean disk.new ≡ D.Disk.is_clean disk.old }
    ensures faults { CountsFault result (D.Disk.faults disk.old) (D.Disk.faults disk.new) }
    ensures cause { IfErr result HasWriteFault }
{
    match disk.write_at(at, b"++") {
        Ok(()) => sync(disk),
        Err(_) => Err(JournalFault::Write),
    }
}

/// Writes a shut latch into a file of at most two bytes.
pub fn write_shut<D: Disk>(disk: &mut D) -> Result<(), JournalFault>
    requires { IsTrue (D.Disk.is_usable disk.old) }
    ensures durable { (file : List ℕ) → length file ≤ 2 → IsDurable D.Disk file disk.old
        → OnOk result (IsDurable D.Disk (45 ∷ 45 ∷ []) disk.new) }
    ensures crash { (file : List ℕ) → length file ≤ 2 → IsDurable D.Disk file disk.old
        → (c : List ℕ) → D.Disk.may_leave disk.new c → length c ≤ 2 }
    ensures clean { D.Disk.is_clean disk.new ≡ D.Disk.is_clean disk.old }
    ensures faults { CountsFault result (D.Disk.faults disk.old) (D.Disk.faults disk.new) }
    ensures cause { IfErr result HasWriteFault }
{
    match disk.write_at(0, b"--") {
        Ok(()) => sync(disk),
        Err(_) => Err(JournalFault::Write),
    }
}

/// Cuts what comes after the shut latch at this place.
pub fn cut_behind<D: Disk>(disk: &mut D, at: usize) -> Result<(), JournalFault>
    requires usable { IsTrue (D.Disk.is_usable disk.old) }
    requires fits { at + 2 < 2 ^ 64 }
    ensures durable { (front tail : List ℕ) → length front ≡ at → IsDurable D.Disk (front ++ 45 ∷ 45 ∷ tail) disk.old
        → OnOk result (IsDurable D.Disk (front ++ 45 ∷ 45 ∷ []) disk.new) }
    ensures crash { (front tail : List ℕ) → length front ≡ at → IsDurable D.Disk (front ++ 45 ∷ 45 ∷ tail) disk.old
        → (c : List ℕ) → D.Disk.may_leave disk.new c → IsLonger (front ++ 45 ∷ 45 ∷ []) c }
    ensures usable { OnOk result (IsTrue (D.Disk.is_usable disk.new)) }
    ensures clean { D.Disk.is_clean disk.new ≡ D.Disk.is_clean disk.old }
    ensures faults { CountsFault result (D.Disk.faults disk.old) (D.Disk.faults disk.new) }
    ensures cause { IfErr result HasWriteFault }
{
    match disk.set_len(at + 2) {
        Ok(()) => sync(disk),
        Err(_) => Err(JournalFault::Write),
    }
}
