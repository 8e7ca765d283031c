//! An entry that is no row: it is kept, and what stands after it goes on from there.
ghost use Rattle.std.specs.Prelude.{◌≡◌, ◌<◌, ◌⊎◌, ◌++◌, ◌∷◌, [], ℕ, List, length, IsSome, OnOk};
ghost use Rattle.desk_journal.specs.Words.{StandsFor};
ghost use Rattle.desk_entries.specs.Words.{StandsAt, most_entries, note_in};

use crate::desk::{Desk, batch_with};
use desk_entries::{DocketRegister, Standing};
use desk_journal::JournalFault;
use sqlite_disk::Disk;
use std::alloc::Global;
use std::mem;

impl<D: Disk> Desk<D> {
    ghost use Rattle.desk_program.specs.Desk.{KeepsDocket, disk_under};
    ghost use Rattle.desk_program.specs.Inside.Note.{ComesTo};

    // Keeps a court's file or a strike as the next entry. After it this stands, and this is the docket.
    pub(crate) fn take_note(
        &mut self,
        alloc: Global,
        standing: Standing,
        mut register: DocketRegister,
        entry: Vec<u8>,
    ) -> Result<(), JournalFault>
        ensures kept { (entries : List (List ℕ)) → KeepsDocket D.Disk entries self.old → StandsAt standing register entries → length entries < most_entries
            → IsSome (note_in entry.items) → ComesTo standing (entries ++ entry.items ∷ [])
            → OnOk result (KeepsDocket D.Disk (entries ++ entry.items ∷ []) self.new) }
        ensures crash { (entries : List (List ℕ)) → KeepsDocket D.Disk entries self.old → (c : List ℕ) → D.Disk.may_leave (disk_under self.new) c
            → StandsFor c entries ⊎ StandsFor c (entries ++ entry.items ∷ []) }
    {
        let batch = batch_with(alloc, entry)?;
        match self.journal.append(&batch) {
            Err(fault) => {
                drop(standing);
                drop(register);
                Err(fault)
            }
            Ok(()) => {
                register.pass_note();
                drop(mem::replace(&mut self.setup.standing, standing));
                drop(mem::replace(&mut self.careful.register, register));
                Ok(())
            }
        }
    }
}
