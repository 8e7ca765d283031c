//! The calls of a disk that a journal makes to read.
ghost use Rattle.std.specs.Prelude.{◌≡◌, ◌≤◌, ◌+◌, length, drop, IsTrue, IfOk, IfErr, MatchResult};
ghost use Rattle.sqlite_disk.specs.Disk.{CountsFault, MoreFaults};
ghost use Rattle.desk_journal.specs.Disks.{IsUntouched};
ghost use Rattle.desk_journal.specs.Faults.{HasReadFault};

use crate::JournalFault;
use sqlite_disk::Disk;
use std::alloc::Global;

/// How many bytes a file has.
pub fn length_of<D: Disk>(disk: &mut D) -> Result<usize, JournalFault>
    requires { IsTrue (D.Disk.is_usable disk.old) }
    ensures len { IfOk result (λ len. IsTrue (D.Disk.is_clean disk.new) → len ≡ length (D.Disk.seen disk.old)) }
    ensures untouched { IsUntouched D.Disk disk.old disk.new }
    ensures usable { IsTrue (D.Disk.is_usable disk.new) }
    ensures clean { IsTrue (D.Disk.is_clean disk.new) → IsTrue (D.Disk.is_clean disk.old) }
    ensures faults { CountsFault result (D.Disk.faults disk.old) (D.Disk.faults disk.new) }
    ensures cause { IfErr result (λ e. e ≡ JournalFault.Read) }
{
    match disk.len() {
        Ok(len) => Ok(len),
        Err(_) => Err(JournalFault::Read),
    }
}

/// The bytes of a file from this place on, where this many follow.
pub fn read_from<D: Disk>(
    alloc: Global,
    disk: &mut D,
    at: usize,
    count: usize,
) -> Result<Vec<u8>, JournalFault>
    requires { IsTrue (D.Disk.is_usable disk.old) }
    ensures bytes { IfOk result (λ bytes. IsTrue (D.Disk.is_clean disk.new) → at + count ≡ length (D.Disk.seen disk.old) → bytes.items ≡ drop at (D.Disk.seen disk.old)) }
    ensures count { IfOk result (λ bytes. length bytes.items ≡ count) }
    ensures untouched { IsUntouched D.Disk disk.old disk.new }
    ensures usable { IsTrue (D.Disk.is_usable disk.new) }
    ensures clean { IsTrue (D.Disk.is_clean disk.new) → IsTrue (D.Disk.is_clean disk.old) }
    ensures faults { MatchResult result (λ _. D.Disk.faults disk.new ≡ D.Disk.faults disk.old) (λ e. e ≡ JournalFault.Read → (IsTrue (D.Disk.is_clean disk.old) → at + count ≤ length (D.Disk.seen disk.old)) → MoreFaults (D.Disk.faults disk.old) (D.Disk.faults disk.new)) }
    ensures cause { IfErr result HasReadFault }
{
    let mut bytes = vec![in alloc; 0u8; count]?;
    match disk.read_at(at, &mut bytes) {
        Ok(()) => Ok(bytes),
        Err(_) => Err(JournalFault::Read),
    }
}
