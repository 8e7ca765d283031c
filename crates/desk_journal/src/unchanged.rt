//! Whether a journal's file is still as the journal left it.
ghost use Rattle.std.specs.Prelude.{◌≡◌, ◌↔◌, IsTrue, IfErr, IfOk, OnOk};
ghost use Rattle.sqlite_disk.specs.Disk.{MoreFaults};
ghost use Rattle.desk_journal.specs.Disks.{IsUntouched};
ghost use Rattle.desk_journal.specs.Kept.{IsUnchanged};

use crate::JournalFault;
use crate::next::is_shut;
use sqlite_disk::Disk;

/// Whether the file ends with a shut latch at this place. Nothing is written.
pub fn is_unchanged<D: Disk>(disk: &mut D, end: usize) -> Result<bool, JournalFault>
    requires { IsTrue (D.Disk.is_usable disk.old) }
    ensures unchanged { IfOk result (λ same. IsTrue (D.Disk.is_clean disk.new) → IsTrue same ↔ IsUnchanged (D.Disk.seen disk.old) end) }
    ensures untouched { IsUntouched D.Disk disk.old disk.new }
    ensures usable { IsTrue (D.Disk.is_usable disk.new) }
    ensures clean { IsTrue (D.Disk.is_clean disk.new) → IsTrue (D.Disk.is_clean disk.old) }
    ensures faults { OnOk result (D.Disk.faults disk.new ≡ D.Disk.faults disk.old) }
    ensures cause { IfErr result (λ e. (e ≡ JournalFault.Read) × (IsUnchanged (D.Disk.seen disk.old) end → MoreFaults (D.Disk.faults disk.old) (D.Disk.faults disk.new))) }
{
    match disk.len() {
        Err(_) => Err(JournalFault::Read),
        Ok(len) => {
            if len < 2 || len - 2 != end {
                return Ok(false);
            }
            let mut latch = [0u8; 2];
            match disk.read_at(end, latch.as_mut_slice()) {
                Ok(()) => Ok(is_shut(latch.as_slice())),
                Err(_) => Err(JournalFault::Read),
            }
        }
    }
}
