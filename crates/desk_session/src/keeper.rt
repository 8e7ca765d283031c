//! What keeps the entries that lines leave.
ghost use Rattle.std.specs.Prelude.{◌≡◌, ◌⊎◌, ◌++◌, [], ℕ, List, IsTrue, OnOk};
ghost use Rattle.desk_journal.specs.Words.{StampView, StandsFor, batch_of};
ghost use Rattle.desk_session.specs.Stamped.{IsStampedOn};

use desk_journal::{Journal, JournalFault};
use sqlite_disk::Disk;

/// What keeps the entries that lines leave, before the lines are answered.
pub(crate) trait Keeper {
    // It keeps these entries.
    ghost keeps: { Self → (entries : List (List ℕ)) → Type 0 };

    // Its entries have these stamps.
    ghost has_stamps: { Self → (stamps : List StampView) → Type 0 };

    // The account of whoever enters what it keeps.
    ghost account: { Self → List ℕ };

    // A crash may leave this file.
    ghost may_leave: { Self → (file : List ℕ) → Type 0 };

    // No wrong answer of its file was taken as true.
    ghost is_clean: { Self → Type 0 };

    /// Keeps a batch after the entries before it.
    fn keep(&mut self, batch: &[Vec<u8>]) -> Result<(), JournalFault>
        ensures kept { (entries : List (List ℕ)) → keeps self.old entries → OnOk result (keeps self.new (entries ++ batch_of batch.now)) }
        ensures crash { (entries : List (List ℕ)) → keeps self.old entries → (file : List ℕ) → may_leave self.new file
            → StandsFor file entries ⊎ StandsFor file (entries ++ batch_of batch.now) }
        ensures stamped { (stamps : List StampView) → has_stamps self.old stamps → OnOk result (IsStampedOn (account self.old) (has_stamps self.new) stamps) }
        ensures account { account self.new ≡ account self.old }
        ensures clean { is_clean self.new → is_clean self.old };

    /// What is kept from here on is of this second of UTC, or of that of the last entry where it is later.
    fn at(&mut self, time: u64)
        ensures kept { (entries : List (List ℕ)) → keeps self.old entries → keeps self.new entries }
        ensures crash { (file : List ℕ) → may_leave self.new file → may_leave self.old file }
        ensures stamped { (stamps : List StampView) → has_stamps self.old stamps → has_stamps self.new stamps }
        ensures account { account self.new ≡ account self.old }
        ensures clean { is_clean self.new → is_clean self.old };

    // Whatever a crash leaves stands for the entries that are kept.
    ghost rest: { (keeper : Self) (entries : List (List ℕ)) → keeps keeper entries → (file : List ℕ) → may_leave keeper file → StandsFor file entries };
}

impl<D: Disk> Keeper for Journal<D> {
    ghost use Rattle.desk_journal.specs.Words.{IsKept, KeepsStamps, disk_of, stamp_of};
    ghost use Rattle.desk_journal.proofs.CallerLemmas.{rest_kept};

    ghost keeps = { λ journal entries. IsKept D.Disk entries journal };

    ghost has_stamps = { λ journal stamps. KeepsStamps D.Disk stamps journal };

    ghost account = { λ journal. (stamp_of journal).account };

    ghost may_leave = { λ journal. D.Disk.may_leave (disk_of journal) };

    ghost is_clean = { λ journal. IsTrue (D.Disk.is_clean (disk_of journal)) };

    ghost rest = { λ journal entries. rest_kept _ journal entries };

    fn keep(&mut self, batch: &[Vec<u8>]) -> Result<(), JournalFault> {
        self.append(batch)
    }

    fn at(&mut self, time: u64) {
        Journal::at(self, time)
    }
}

/// Keeps nothing: there is no file that a crash may leave.
#[derive(Clone, Copy, Debug)]
pub(crate) struct NoJournal;

impl Keeper for NoJournal {
    ghost keeps = { λ _ _. Unit {0} };

    ghost has_stamps = { λ _ _. Unit {0} };

    ghost account = { λ _. [] };

    ghost may_leave = { λ _ _. ⊥ };

    ghost is_clean = { λ _. Unit {0} };

    ghost rest = { λ _ _ _ _ left. absurd left };

    fn keep(&mut self, _batch: &[Vec<u8>]) -> Result<(), JournalFault> {
        Ok(())
    }

    fn at(&mut self, _time: u64) {}
}
