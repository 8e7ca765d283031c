//! A court and its docket, made of a journal's entries.
ghost use Rattle.std.specs.Prelude.{◌≡◌, ◌<◌, ◌≤◌, ◌+◌, ◌&&◌, ◌++◌, ◌∷◌, [], ℕ, true, false, List, length, nat_lt, not, take, None, Some, IfErr, IfOk, IsSome, OnOk};
ghost use Rattle.court_days.specs.Words.{CourtView};
ghost use Rattle.desk_journal.specs.Words.{batch_of};
ghost use Rattle.desk_register.specs.Words.{SaysCourt, StandsAt, corrections_then, entries_taken, later_file, most_entries, note_in, row_restored, row_struck};
ghost use Rattle.desk_numbers.specs.Strikes.Words.{is_struck, no_corrections, struck_with, struck_without};
ghost use Rattle.desk_entries.specs.Docketed.{IsBadFile};

use crate::fault::HistoryFault;
use crate::review::{Review, decided_again};
use crate::what_stands::{court_of, standing_after};
use court_days::Court;
use desk_numbers::{Corrections, Restore, Strike, restore_in, said_in, strike_in};
use desk_register::{DocketRegister, Standing, is_row, later_file};
use std::alloc::{AllocError, Global};
use std::mem;

/// A court and its docket, as a journal's entries come to them.
#[derive(Drop)]
pub struct Docketed {
    /// What stands after the entries: the court of the last file, and what strikes and restores come to.
    pub standing: Standing,
    /// The docket after the rows.
    pub register: DocketRegister,
}

// A court and its docket before the first row, with nothing struck.
fn before_rows(alloc: Global, court: Court) -> Result<Docketed, AllocError>
    ensures standing { IfOk result (λ docketed. docketed.standing ≡ record { court = court; corrections = no_corrections }) }
    ensures stands { (file : List ℕ) → IfOk result (λ docketed. StandsAt docketed.standing docketed.register (file ∷ [])) }
{
    let standing = Standing {
        court,
        corrections: Corrections::new(alloc),
    };
    let register = DocketRegister::new(alloc, &standing)?;
    Ok(Docketed { standing, register })
}

// The place of the last entry that is no row; the first, a court's file, is none.
fn last_note(entries: &[Vec<u8>]) -> usize
    requires { 0 < length entries.now }
    ensures { result < length entries.now }
{
    let mut last = 0;
    for place in 1..entries.len() {
        if !is_row(&entries[place]) {
            last = place;
        }
    }
    last
}

impl Docketed {
    ghost use Rattle.desk_entries.specs.Docketed.{HasDocketFault, HasHistoryFault, IsDocketed, IsFaultyEntry};
    ghost use Rattle.desk_register.specs.Words.{CanBe, IsHistory, MayFollow, SaysNumbers};

    // A court and its docket before the first row.
    fn begin(alloc: Global, file: &[u8]) -> Result<Docketed, HistoryFault>
        ensures docketed { IfOk result (λ docketed. IsDocketed docketed (file.now ∷ [])) }
        ensures history { OnOk result (IsHistory (file.now ∷ [])) }
        ensures cause { IfErr result (IsBadFile file.now 1) }
    {
        let court = court_of(alloc, file, 1)?;
        let docketed = before_rows(alloc, court)?;
        Ok(docketed)
    }

    // The corrections with one strike more.
    fn struck(&self, alloc: Global, strike: &Strike) -> Result<Corrections, AllocError>
        ensures { (kept : List (List ℕ)) → StandsAt self.now.standing self.now.register kept → IfOk result (λ corrections. corrections ≡ corrections_then self.now.standing kept (struck_with self.now.standing.corrections.struck strike.now.row)) }
    {
        let mut corrections = self.register.corrections(alloc, &self.standing)?;
        corrections.strike(strike.row)?;
        Ok(corrections)
    }

    // The corrections without the strike of a row that is restored.
    fn restored(&self, alloc: Global, restore: &Restore) -> Result<Corrections, AllocError>
        ensures { (kept : List (List ℕ)) → StandsAt self.now.standing self.now.register kept → IfOk result (λ corrections. corrections ≡ corrections_then self.now.standing kept (struck_without self.now.standing.corrections.struck restore.now.row)) }
    {
        let mut corrections = self.register.corrections(alloc, &self.standing)?;
        corrections.restore(restore.row);
        Ok(corrections)
    }

    // Decides all rows of these entries again under what stands.
    fn decide(&mut self, alloc: Global, entries: &[Vec<u8>]) -> Result<(), AllocError>
        requires some { 0 < length entries.now }
        requires few { length entries.now ≤ most_entries }
        ensures standing { self.new.standing ≡ self.old.standing }
        ensures stands { OnOk result (StandsAt self.old.standing self.new.register (batch_of entries.now)) }
    {
        let Review { register, .. } = decided_again(alloc, &self.standing, entries)?;
        drop(mem::replace(&mut self.register, register));
        Ok(())
    }

    // Goes by other corrections from here on: all rows of these entries are decided again.
    fn correct(
        &mut self,
        alloc: Global,
        corrections: Corrections,
        entries: &[Vec<u8>],
    ) -> Result<(), AllocError>
        requires some { 0 < length entries.now }
        requires few { length entries.now ≤ most_entries }
        ensures standing { self.new.standing ≡ record { court = self.old.standing.court; corrections = corrections } }
        ensures stands { OnOk result (StandsAt self.new.standing self.new.register (batch_of entries.now)) }
    {
        drop(mem::replace(&mut self.standing.corrections, corrections));
        self.decide(alloc, entries)
    }

    // Whether an entry that comes next says what rows gave and don't keep yet.
    fn says_numbers(&self, alloc: Global, entry: &[u8]) -> Result<bool, AllocError>
        ensures says { (kept : List (List ℕ)) → StandsAt self.now.standing self.now.register kept → IfOk result (λ says. says ≡ true → SaysNumbers self.now.standing kept entry.now) }
        ensures other { (kept : List (List ℕ)) → StandsAt self.now.standing self.now.register kept → IfOk result (λ says. says ≡ false → SaysNumbers self.now.standing kept entry.now → ⊥) }
    {
        let said = said_in(alloc, entry)?;
        let unsaid = self.register.unsaid(alloc, &self.standing)?;
        Ok(said.as_slice() == unsaid.as_slice())
    }

    // Goes by a later court's file from here on, which is in the last of these entries: their rows are decided again.
    fn change(
        &mut self,
        alloc: Global,
        file: &[u8],
        entries: &[Vec<u8>],
    ) -> Result<(), HistoryFault>
        requires some { 0 < length entries.now }
        requires few { length entries.now ≤ most_entries }
        ensures docketed { (before : List (List ℕ)) (entry : List ℕ) → batch_of entries.now ≡ before ++ entry ∷ [] → later_file entry ≡ Some file.now → SaysNumbers self.old.standing before entry → IsDocketed self.old before
            → OnOk result (IsDocketed self.new (before ++ entry ∷ [])) }
        ensures court { OnOk result ((court : CourtView) × SaysCourt file.now court) }
        ensures cause { IfErr result (IsBadFile file.now (length entries.now)) }
    {
        let court = court_of(alloc, file, entries.len() as u32)?;
        let corrections = self.register.corrections(alloc, &self.standing)?;
        drop(mem::replace(&mut self.standing, Standing { court, corrections }));
        self.decide(alloc, entries)?;
        Ok(())
    }

    // Whether a row can be struck, where the next row has this number: it was entered, and isn't struck yet.
    fn can_strike(&self, strike: &Strike, next: u32) -> bool
        ensures { result ≡ (nat_lt 0 strike.now.row && nat_lt strike.now.row next && not (is_struck self.now.standing.corrections strike.now.row)) }
    {
        0 < strike.row && strike.row < next && !self.standing.corrections.is_struck(strike.row)
    }

    // Leaves out a row from here on, which the last of these entries strikes: the others are decided again.
    fn strike(
        &mut self,
        alloc: Global,
        strike: Strike,
        entries: &[Vec<u8>],
    ) -> Result<(), HistoryFault>
        requires some { 0 < length entries.now }
        requires few { length entries.now ≤ most_entries }
        ensures docketed { (before : List (List ℕ)) (entry : List ℕ) → batch_of entries.now ≡ before ++ entry ∷ [] → note_in entry ≡ Some (row_struck strike) → SaysNumbers self.old.standing before entry → IsDocketed self.old before
            → OnOk result (IsDocketed self.new (before ++ entry ∷ [])) }
        ensures can { (before : List (List ℕ)) → IsDocketed self.old before → OnOk result (CanBe (row_struck strike) before) }
        ensures cause { (before : List (List ℕ)) (entry : List ℕ) → batch_of entries.now ≡ before ++ entry ∷ [] → note_in entry ≡ Some (row_struck strike) → IsDocketed self.old before
            → IfErr result (IsFaultyEntry before entry) }
    {
        let next = self.register.next_number();
        if !self.can_strike(&strike, next) {
            return Err(HistoryFault::Strike(entries.len() as u32));
        }
        let corrections = self.struck(alloc, &strike)?;
        self.correct(alloc, corrections, entries)?;
        Ok(())
    }

    // Puts a row back into its place from here on, which the last of these entries restores: all are decided again.
    fn restore(
        &mut self,
        alloc: Global,
        restore: Restore,
        entries: &[Vec<u8>],
    ) -> Result<(), HistoryFault>
        requires some { 0 < length entries.now }
        requires few { length entries.now ≤ most_entries }
        ensures docketed { (before : List (List ℕ)) (entry : List ℕ) → batch_of entries.now ≡ before ++ entry ∷ [] → note_in entry ≡ Some (row_restored restore) → SaysNumbers self.old.standing before entry → IsDocketed self.old before
            → OnOk result (IsDocketed self.new (before ++ entry ∷ [])) }
        ensures can { (before : List (List ℕ)) → IsDocketed self.old before → OnOk result (CanBe (row_restored restore) before) }
        ensures cause { (before : List (List ℕ)) (entry : List ℕ) → batch_of entries.now ≡ before ++ entry ∷ [] → note_in entry ≡ Some (row_restored restore) → IsDocketed self.old before
            → IfErr result (IsFaultyEntry before entry) }
    {
        if !self.standing.corrections.is_struck(restore.row) {
            return Err(HistoryFault::Strike(entries.len() as u32));
        }
        let corrections = self.restored(alloc, &restore)?;
        self.correct(alloc, corrections, entries)?;
        Ok(())
    }

    // Takes an entry that is a row, if it has the answer that it gets.
    pub(crate) fn retake(&mut self, alloc: Global, entry: &[u8]) -> Result<(), HistoryFault>
        requires row { note_in entry.now ≡ None }
        requires room { entries_taken self.old.register < most_entries }
        ensures docketed { (before : List (List ℕ)) → IsDocketed self.old before → OnOk result (IsDocketed self.new (before ++ entry.now ∷ [])) }
        ensures follows { (before : List (List ℕ)) → IsDocketed self.old before → OnOk result (MayFollow before entry.now) }
        ensures cause { (before : List (List ℕ)) → IsDocketed self.old before → IfErr result (IsFaultyEntry before entry.now) }
        ensures count { OnOk result (entries_taken self.new.register ≡ entries_taken self.old.register + 1) }
    {
        let number = self.register.next_number();
        // Rows that are struck come before, so this one isn't, where the docket is that of the entries.
        if self.register.is_next_struck(&self.standing) {
            return Err(HistoryFault::Other(number));
        }
        let other = self.register.review(alloc, &self.standing, entry)?;
        if other.is_some() {
            return Err(HistoryFault::Other(number));
        }
        Ok(())
    }

    // Takes an entry that is a later court's file, a strike or a restore, and the last of these, if it can be.
    fn correct_by(
        &mut self,
        alloc: Global,
        entry: &[u8],
        entries: &[Vec<u8>],
    ) -> Result<(), HistoryFault>
        requires note { IsSome (note_in entry.now) }
        requires some { 0 < length entries.now }
        requires few { length entries.now ≤ most_entries }
        ensures docketed { (before : List (List ℕ)) → batch_of entries.now ≡ before ++ entry.now ∷ [] → SaysNumbers self.old.standing before entry.now → IsDocketed self.old before → OnOk result (IsDocketed self.new (before ++ entry.now ∷ [])) }
        ensures follows { (before : List (List ℕ)) → SaysNumbers self.old.standing before entry.now → IsDocketed self.old before → OnOk result (MayFollow before entry.now) }
        ensures cause { (before : List (List ℕ)) → batch_of entries.now ≡ before ++ entry.now ∷ [] → IsDocketed self.old before → IfErr result (IsFaultyEntry before entry.now) }
    {
        match later_file(entry) {
            Some(file) => self.change(alloc, file, entries),
            None => match strike_in(entry) {
                Some(strike) => self.strike(alloc, strike, entries),
                None => match restore_in(entry) {
                    Some(restore) => self.restore(alloc, restore, entries),
                    None => Ok(()),
                },
            },
        }
    }

    // Takes an entry, which is the last of these, if it may follow those before it.
    fn take_entry(
        &mut self,
        alloc: Global,
        entry: &[u8],
        entries: &[Vec<u8>],
    ) -> Result<(), HistoryFault>
        requires some { 0 < length entries.now }
        requires few { length entries.now ≤ most_entries }
        requires room { entries_taken self.old.register < most_entries }
        ensures docketed { (before : List (List ℕ)) → batch_of entries.now ≡ before ++ entry.now ∷ [] → IsDocketed self.old before → OnOk result (IsDocketed self.new (before ++ entry.now ∷ [])) }
        ensures follows { (before : List (List ℕ)) → IsDocketed self.old before → OnOk result (MayFollow before entry.now) }
        ensures cause { (before : List (List ℕ)) → batch_of entries.now ≡ before ++ entry.now ∷ [] → IsDocketed self.old before → IfErr result (IsFaultyEntry before entry.now) }
    {
        if is_row(entry) {
            return self.retake(alloc, entry);
        }
        if !self.says_numbers(alloc, entry)? {
            return Err(HistoryFault::Strike(entries.len() as u32));
        }
        self.correct_by(alloc, entry, entries)
    }

    // Takes the entries from that place on.
    fn take_from(
        &mut self,
        alloc: Global,
        entries: &[Vec<u8>],
        from: usize,
    ) -> Result<(), HistoryFault>
        requires few { length entries.now ≤ most_entries }
        requires some { 0 < from }
        requires within { from ≤ length entries.now }
        requires begun { IsDocketed self.old (batch_of (take from entries.now)) }
        ensures docketed { OnOk result (IsDocketed self.new (batch_of entries.now)) }
        ensures history { IsHistory (batch_of (take from entries.now)) → OnOk result (IsHistory (batch_of entries.now)) }
        ensures cause { IfErr result (HasDocketFault (batch_of entries.now)) }
        ensures no_history { IsHistory (batch_of (take from entries.now)) → IfErr result (HasHistoryFault (batch_of entries.now)) }
    {
        for place in from..entries.len() {
            match self.take_entry(alloc, &entries[place], entries.split_at(place + 1).0) {
                Ok(()) => {}
                Err(fault) => return Err(fault),
            }
        }
        Ok(())
    }

    // What these entries come to: all their rows are decided once, under what stands after them, whatever they were answered.
    fn at(alloc: Global, entries: &[Vec<u8>]) -> Result<Docketed, HistoryFault>
        requires few { length entries.now ≤ most_entries }
        ensures docketed { IfOk result (λ docketed. IsDocketed docketed (batch_of entries.now)) }
        ensures cause { IfErr result (HasDocketFault (batch_of entries.now)) }
    {
        let standing = match standing_after(alloc, entries) {
            Ok(standing) => standing,
            Err(fault) => return Err(fault),
        };
        let Review { register, .. } = decided_again(alloc, &standing, entries)?;
        Ok(Docketed { standing, register })
    }

    /// The court and its docket to which a journal's entries come, of which the first is a court's file. The rows before the last
    /// correction are decided once, under what stands after it: what they were answered is for `checked` to say. Each row
    /// after it must have the answer that it gets, each strike must be of a row before it that isn't struck, and each restore of
    /// one that is.
    pub fn of(alloc: Global, entries: &[Vec<u8>]) -> Result<Docketed, HistoryFault>
        requires few { length entries.now ≤ most_entries }
        ensures docketed { IfOk result (λ docketed. IsDocketed docketed (batch_of entries.now)) }
        ensures cause { IfErr result (HasDocketFault (batch_of entries.now)) }
    {
        if entries.is_empty() {
            return Err(HistoryFault::NoCourt);
        }
        let from = last_note(entries) + 1;
        let mut docketed = match Docketed::at(alloc, entries.split_at(from).0) {
            Ok(docketed) => docketed,
            Err(fault) => return Err(fault),
        };
        match docketed.take_from(alloc, entries, from) {
            Ok(()) => Ok(docketed),
            Err(fault) => Err(fault),
        }
    }

    /// The same, where the entries are a history: each row has the answer that it got under what stood before it, and each
    /// correction could be made then and says what rows had given. After each correction all rows so far are decided again.
    pub fn checked(alloc: Global, entries: &[Vec<u8>]) -> Result<Docketed, HistoryFault>
        requires few { length entries.now ≤ most_entries }
        ensures docketed { IfOk result (λ docketed. IsDocketed docketed (batch_of entries.now)) }
        ensures history { OnOk result (IsHistory (batch_of entries.now)) }
        ensures cause { IfErr result (HasHistoryFault (batch_of entries.now)) }
    {
        let Some(file) = entries.first() else {
            return Err(HistoryFault::NoCourt);
        };
        let mut docketed = match Docketed::begin(alloc, file) {
            Ok(docketed) => docketed,
            Err(fault) => return Err(fault),
        };
        match docketed.take_from(alloc, entries, 1) {
            Ok(()) => Ok(docketed),
            Err(fault) => Err(fault),
        }
    }
}
