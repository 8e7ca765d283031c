//! A docket on a copy of a journal's file.
ghost use Rattle.std.specs.Prelude.{◌≡◌, [], ℕ, List, IsTrue, IfErr, IfOk, OnOk};
ghost use Rattle.desk_journal.specs.Words.{IsDurable, IsWhole, StandsFor};

use crate::desk::Desk;
use crate::faults::OpenFault;
use desk_journal::Stamp;
use sqlite_disk::Disk;
use std::alloc::Global;
use std::io;

// Writes a file to a disk that is empty.
fn write_copy<D: Disk>(disk: &mut D, file: &[u8]) -> io::Result<()>
    requires usable { IsTrue (D.Disk.is_usable disk.old) }
    requires empty { D.Disk.seen disk.old ≡ [] }
    ensures { OnOk result (IsDurable D.Disk file.now disk.new) }
{
    match disk.write_at(0, file) {
        Ok(()) => disk.sync(),
        Err(error) => Err(error),
    }
}

impl<D: Disk> Desk<D> {
    ghost use Rattle.desk_program.specs.Desk.{IsUnopened, KeepsDocket, disk_under};

    /// Opens the docket of a journal's file on a copy of it, which goes to an empty disk. The file itself is only read. A disk
    /// in memory fails only for want of memory, so where the copy can't be written that is the fault.
    pub fn copied(alloc: Global, mut disk: D, file: &[u8]) -> Result<Desk<D>, (OpenFault, D)>
        requires usable { IsTrue (D.Disk.is_usable disk) }
        requires empty { D.Disk.seen disk ≡ [] }
        ensures opened { IfOk result (λ desk. IsTrue (D.Disk.is_clean (disk_under desk))
            → (entries : List (List ℕ)) × StandsFor file.now entries × KeepsDocket D.Disk entries desk) }
        ensures whole { IfOk result (λ desk. IsTrue (D.Disk.is_clean (disk_under desk)) → IsWhole file.now) }
        ensures cause { IfErr result (λ e. IsTrue (D.Disk.is_clean e.1) → (before : ℕ) × IsUnopened before (D.Disk.faults e.1) file.now e.0) }
    {
        match write_copy(&mut disk, file) {
            Ok(()) => {}
            Err(_) => return Err((OpenFault::OutOfMemory, disk)),
        }
        let nobody = Stamp::new(0, Vec::new(alloc));
        match Desk::open(alloc, disk, nobody) {
            Ok((desk, _)) => Ok(desk),
            Err(refused) => Err(refused),
        }
    }
}
