//! A row that is struck, or that was struck and is restored.
ghost use Rattle.std.specs.Prelude.{◌≡◌, ◌<◌, ◌≤◌, ◌⊎◌, ◌++◌, ◌∷◌, [], ℕ, List, length, false, Err, Ok, IfOk, OnOk};
ghost use Rattle.desk_register.specs.declared.fault.StrikeFault.{StrikeFault as StrikeFaultOf};
ghost use Rattle.desk_journal.specs.Words.{StandsFor, batch_of};
ghost use Rattle.desk_entries.specs.Words.{IsHistory, SaysCourt, StandsAt, corrections_then, most_entries, standing_file, unsaid_by};
ghost use Rattle.program_streams.specs.Words.{has_failed, watched};
ghost use Rattle.desk_program.specs.declared.row_correction.RowCorrection.{RowCorrection as RowCorrectionOf};
ghost use Rattle.desk_program.specs.declared.row_correction.RowNote.{RowNote as RowNoteOf};
ghost use Rattle.desk_program.specs.RowCorrection.{kind_of_note, note_entry, note_for, struck_after};

use crate::correction::reviewed;
use crate::desk::Desk;
use crate::entry_kind::EntryKind;
use crate::faults::{CorrectionFault, CourtFileFault, StrikingFault};
use desk_entries::{DocketRegister, MOST_ENTRIES, Standing, StrikeFault, standing_file};
use desk_journal::JournalFault;
use desk_numbers::{Restore, Said, Strike, restore_entry, strike_entry};
use program_streams::Watched;
use sqlite_disk::Disk;
use std::alloc::{AllocError, Global};
use std::io::Write;

/// What is done with a row.
#[derive(Clone, Copy, Debug, PartialEq, Eq)]
pub enum RowCorrection {
    /// It is struck: from here on the docket is that of the other rows. Each deadline and each motion keeps the number that its row
    /// gave it, and no number is given again.
    Strike,
    /// It was struck, and is restored: from here on it is in its place again, and each deadline and each motion has the number that
    /// its row gave it.
    Restore,
}

/// A strike or a restore, as its entry says it.
#[derive(Clone, Copy)]
pub(crate) enum RowNote {
    /// A strike.
    Struck(Strike),
    /// A restore.
    Restored(Restore),
}

// What the entry is.
fn kind_of_note(note: RowNote) -> EntryKind
    ensures { result ≡ kind_of_note note }
{
    match note {
        RowNote::Struck(strike) => EntryKind::Strike(strike.row),
        RowNote::Restored(restore) => EntryKind::Restore(restore.row),
    }
}

// The entry, with what rows gave and a remark.
fn note_entry(
    alloc: Global,
    note: RowNote,
    said: &[Said],
    remark: &[u8],
) -> Result<Vec<u8>, AllocError>
    ensures { IfOk result (λ entry. entry.items ≡ note_entry note said.now remark.now) }
{
    match note {
        RowNote::Struck(strike) => strike_entry(alloc, &strike, said, remark),
        RowNote::Restored(restore) => restore_entry(alloc, &restore, said, remark),
    }
}

impl<D: Disk> Desk<D> {
    ghost use Rattle.desk_program.specs.Desk.{KeepsDocket, disk_under, standing_at};
    ghost use Rattle.desk_program.specs.RowCorrection.{CorrectsRow, LeavesRow};

    // What is kept of the row, or why it can't be struck or restored.
    fn note_for(
        &self,
        alloc: Global,
        entries: &[Vec<u8>],
        done: RowCorrection,
        row: u32,
    ) -> Result<Result<RowNote, StrikeFault>, AllocError>
        requires { length entries.now ≤ most_entries }
        ensures { KeepsDocket D.Disk (batch_of entries.now) self.now → IfOk result (λ note. note ≡ note_for done (standing_at self.now) (batch_of entries.now) row) }
    {
        let under = &self.setup.standing;
        let register = &self.careful.register;
        match done {
            RowCorrection::Strike => match register.struck_by(alloc, under, entries, row)? {
                Ok(strike) => Ok(Ok(RowNote::Struck(strike))),
                Err(fault) => Ok(Err(fault)),
            },
            RowCorrection::Restore => match register.restored_by(under, row) {
                Ok(restore) => Ok(Ok(RowNote::Restored(restore))),
                Err(fault) => Ok(Err(fault)),
            },
        }
    }

    // What would stand after it.
    fn standing_after(
        &self,
        alloc: Global,
        entries: &[Vec<u8>],
        note: RowNote,
    ) -> Result<Standing, CourtFileFault>
        ensures court { IfOk result (λ standing. SaysCourt (standing_file (batch_of entries.now)) standing.court) }
        ensures corrections { KeepsDocket D.Disk (batch_of entries.now) self.now → IfOk result (λ standing. standing.corrections ≡ corrections_then (standing_at self.now) (batch_of entries.now) (struck_after note (standing_at self.now).corrections.struck)) }
    {
        let mut standing = self.standing_by(alloc, standing_file(entries))?;
        match note {
            RowNote::Struck(strike) => {
                standing.corrections.strike(strike.row)?;
                Ok(standing)
            }
            RowNote::Restored(restore) => {
                standing.corrections.restore(restore.row);
                Ok(standing)
            }
        }
    }

    // Keeps it as the next entry.
    fn take_row_note(
        &mut self,
        alloc: Global,
        standing: Standing,
        register: DocketRegister,
        note: RowNote,
        remark: &[u8],
    ) -> Result<(), JournalFault>
        ensures kept { (entries : List (List ℕ)) (done : RowCorrectionOf) (row : ℕ) → KeepsDocket D.Disk entries self.old → note_for done (standing_at self.old) entries row ≡ Ok note
            → SaysCourt (standing_file entries) standing.court → standing.corrections ≡ corrections_then (standing_at self.old) entries (struck_after note (standing_at self.old).corrections.struck) → StandsAt standing register entries → length entries < most_entries
            → OnOk result (KeepsDocket D.Disk (entries ++ note_entry note (unsaid_by (standing_at self.old) entries) remark.now ∷ []) self.new
            × (IsHistory entries → IsHistory (entries ++ note_entry note (unsaid_by (standing_at self.old) entries) remark.now ∷ []))) }
        ensures crash { (entries : List (List ℕ)) → KeepsDocket D.Disk entries self.old → (c : List ℕ) → D.Disk.may_leave (disk_under self.new) c
            → StandsFor c entries ⊎ StandsFor c (entries ++ note_entry note (unsaid_by (standing_at self.old) entries) remark.now ∷ []) }
    {
        let said = self.careful.register.unsaid(alloc, &self.setup.standing)?;
        let entry = note_entry(alloc, note, &said, remark)?;
        self.take_note(alloc, standing, register, entry)
    }

    /// Strikes a row, which is counted from 1, or restores one that was struck. The strike or the restore is kept as the next entry,
    /// with the numbers that rows gave since the last correction and a remark, and the row's entry stays. The row is written, then the
    /// rows that are answered otherwise after it than now, each with its answers, and then each case, deadline and hearing that changes.
    /// If there are such rows, it is done only with leave, which a row that is restored and would be refused doesn't ask for; without
    /// it, at `Differs`, the journal is as it was.
    pub fn correct_row<W: Write>(
        &mut self,
        alloc: Global,
        entries: &[Vec<u8>],
        done: RowCorrection,
        row: u32,
        remark: &[u8],
        accept: bool,
        writer: &mut Watched<W>,
    ) -> Result<(), StrikingFault>
        requires some { 0 < length entries.now }
        requires few { length entries.now ≤ most_entries }
        requires writer_works { has_failed writer.old ≡ false }
        ensures corrected { KeepsDocket D.Disk (batch_of entries.now) self.old → OnOk result
            (CorrectsRow done (standing_at self.old) (batch_of entries.now) row remark.now accept (W.contents (watched writer.old)) (W.contents (watched writer.new)) (λ kept. KeepsDocket D.Disk kept self.new)) }
        ensures refused { (count : ℕ) → KeepsDocket D.Disk (batch_of entries.now) self.old → result ≡ Err (StrikingFault.Untaken (CorrectionFault.Differs count))
            → LeavesRow done (standing_at self.old) (batch_of entries.now) row count (W.contents (watched writer.old)) (W.contents (watched writer.new)) × (self.new ≡ self.old) }
        ensures unstruck { (fault : StrikeFaultOf) → KeepsDocket D.Disk (batch_of entries.now) self.old → result ≡ Err (StrikingFault.Unstruck fault) → note_for done (standing_at self.old) (batch_of entries.now) row ≡ Err fault }
        ensures crash { KeepsDocket D.Disk (batch_of entries.now) self.old → (c : List ℕ) → D.Disk.may_leave (disk_under self.new) c
            → StandsFor c (batch_of entries.now) ⊎ ((note : RowNoteOf) × (note_for done (standing_at self.old) (batch_of entries.now) row ≡ Ok note) × StandsFor c (batch_of entries.now ++ note_entry note (unsaid_by (standing_at self.old) (batch_of entries.now)) remark.now ∷ [])) }
    {
        if entries.len() >= MOST_ENTRIES as usize {
            return Err(StrikingFault::Untaken(CorrectionFault::Journal(JournalFault::Full)));
        }
        let found = match self.note_for(alloc, entries, done, row) {
            Ok(found) => found,
            Err(_) => return Err(StrikingFault::Untaken(CorrectionFault::OutOfMemory)),
        };
        let note = match found {
            Ok(note) => note,
            Err(fault) => return Err(StrikingFault::Unstruck(fault)),
        };
        let standing = match self.standing_after(alloc, entries, note) {
            Ok(standing) => standing,
            Err(fault) => return Err(StrikingFault::Untaken(CorrectionFault::CourtFile(fault))),
        };
        let now = &self.setup.standing;
        let kind = kind_of_note(note);
        match reviewed(alloc, now, &standing, entries, kind, accept, writer) {
            Ok(register) => match self.take_row_note(alloc, standing, register, note, remark) {
                Ok(()) => Ok(()),
                Err(fault) => Err(StrikingFault::Untaken(CorrectionFault::from(fault))),
            },
            Err(fault) => Err(StrikingFault::Untaken(fault)),
        }
    }
}
