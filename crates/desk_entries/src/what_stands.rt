//! What stands after a journal's entries, by the entries alone: no row is decided for it.
ghost use Rattle.std.specs.Prelude.{◌≡◌, ◌<◌, ◌≤◌, ◌+◌, ◌&&◌, ◌++◌, ◌∷◌, [], ℕ, true, List, length, nat_lt, not, take, None, Some, IfErr, IfOk, OnOk};
ghost use Rattle.desk_journal.specs.Words.{batch_of};
ghost use Rattle.desk_numbers.specs.Words.{kept_with};
ghost use Rattle.desk_numbers.specs.Strikes.Words.{all_before, is_struck, said_in};
ghost use Rattle.desk_entries.specs.Docketed.{HasDocketFault, IsBadFile, IsFaultyEntry};
ghost use Rattle.desk_register.specs.Words.{SaysCourt, StandsAfter, later_file, most_entries, next_number, note_in, row_restored, row_struck};

use crate::fault::HistoryFault;
use court_days::Court;
use court_file_text::CourtFault;
use desk_numbers::{
    Corrections, Given, KeptNumbers, Restore, Strike, restore_in, said_in, say, strike_in,
};
use desk_register::{Standing, later_file};
use std::alloc::{AllocError, Global};
use std::mem;

// What entries come to so far.
#[derive(Drop)]
struct Walk {
    court: Court,
    // The rows that are struck. The numbers that rows keep are apart.
    corrections: Corrections,
    // By row, the number that it keeps.
    kept: Vec<Option<Given>>,
    // How many rows there are.
    rows: u32,
}

// The court of a file, which is in the entry of that number.
pub(crate) fn court_of(alloc: Global, file: &[u8], number: u32) -> Result<Court, HistoryFault>
    ensures court { IfOk result (λ court. SaysCourt file.now court) }
    ensures cause { IfErr result (IsBadFile file.now number) }
{
    match Court::from_desk_bytes(alloc, file) {
        Ok(court) => Ok(court),
        Err(CourtFault::OutOfMemory) => Err(HistoryFault::OutOfMemory),
        Err(cause) => Err(HistoryFault::Court(number, cause)),
    }
}

impl Walk {
    ghost use Rattle.desk_entries.specs.Inside.Walk.{IsWalked};

    // Before the entries after the first, which is this court's file.
    fn begin(alloc: Global, file: &[u8]) -> Result<Walk, HistoryFault>
        ensures walked { IfOk result (λ walk. IsWalked walk (file.now ∷ [])) }
        ensures cause { IfErr result (IsBadFile file.now 1) }
    {
        let court = court_of(alloc, file, 1)?;
        Ok(Walk {
            court,
            corrections: Corrections::new(alloc),
            kept: Vec::new(alloc),
            rows: 0,
        })
    }

    // Whether a row can be struck: it was entered, and isn't struck yet.
    fn can_strike(&self, strike: &Strike) -> bool
        ensures { result ≡ (nat_lt 0 strike.now.row && nat_lt strike.now.row (self.now.rows + 1) && not (is_struck self.now.corrections strike.now.row)) }
    {
        0 < strike.row && strike.row <= self.rows && !self.corrections.is_struck(strike.row)
    }

    // Takes what an entry says of rows, which is a note.
    fn say(&mut self, alloc: Global, entry: &[u8]) -> Result<(), AllocError>
        ensures kept { OnOk result (self.new.kept.items ≡ kept_with self.old.kept.items self.old.rows (said_in entry.now)) }
        ensures court { self.new.court ≡ self.old.court }
        ensures corrections { self.new.corrections ≡ self.old.corrections }
        ensures rows { self.new.rows ≡ self.old.rows }
    {
        let said = said_in(alloc, entry)?;
        say(&mut self.kept, self.rows, &said)?;
        Ok(())
    }

    // Takes a later court's file, which is in this entry of that number.
    fn change(
        &mut self,
        alloc: Global,
        file: &[u8],
        entry: &[u8],
        number: u32,
    ) -> Result<(), HistoryFault>
        ensures walked { (before : List (List ℕ)) → IsWalked self.old before → later_file entry.now ≡ Some file.now → OnOk result (IsWalked self.new (before ++ entry.now ∷ [])) }
        ensures cause { IfErr result (IsBadFile file.now number) }
    {
        let court = court_of(alloc, file, number)?;
        drop(mem::replace(&mut self.court, court));
        self.say(alloc, entry)?;
        Ok(())
    }

    // Takes a strike, which is this entry of that number.
    fn strike(
        &mut self,
        alloc: Global,
        strike: Strike,
        entry: &[u8],
        number: u32,
    ) -> Result<(), HistoryFault>
        ensures walked { (before : List (List ℕ)) → IsWalked self.old before → note_in entry.now ≡ Some (row_struck strike) → OnOk result (IsWalked self.new (before ++ entry.now ∷ [])) }
        ensures cause { (before : List (List ℕ)) → IsWalked self.old before → number ≡ length before + 1 → note_in entry.now ≡ Some (row_struck strike)
            → IfErr result (IsFaultyEntry before entry.now) }
    {
        if !self.can_strike(&strike) {
            return Err(HistoryFault::Strike(number));
        }
        self.corrections.strike(strike.row)?;
        self.say(alloc, entry)?;
        Ok(())
    }

    // Takes a restore, which is this entry of that number.
    fn restore(
        &mut self,
        alloc: Global,
        restore: Restore,
        entry: &[u8],
        number: u32,
    ) -> Result<(), HistoryFault>
        ensures walked { (before : List (List ℕ)) → IsWalked self.old before → note_in entry.now ≡ Some (row_restored restore) → OnOk result (IsWalked self.new (before ++ entry.now ∷ [])) }
        ensures cause { (before : List (List ℕ)) → IsWalked self.old before → number ≡ length before + 1 → note_in entry.now ≡ Some (row_restored restore)
            → IfErr result (IsFaultyEntry before entry.now) }
    {
        if !self.corrections.is_struck(restore.row) {
            return Err(HistoryFault::Strike(number));
        }
        self.corrections.restore(restore.row);
        self.say(alloc, entry)?;
        Ok(())
    }

    // Takes an entry that is a row.
    fn pass(&mut self, entry: &[u8])
        requires { self.old.rows < most_entries }
        ensures { (before : List (List ℕ)) → IsWalked self.old before → note_in entry.now ≡ None → IsWalked self.new (before ++ entry.now ∷ []) }
    {
        self.rows += 1;
    }

    // Takes the entry of that number.
    fn take(&mut self, alloc: Global, entry: &[u8], number: u32) -> Result<(), HistoryFault>
        requires room { self.old.rows < most_entries }
        ensures walked { (before : List (List ℕ)) → IsWalked self.old before → OnOk result (IsWalked self.new (before ++ entry.now ∷ [])) }
        ensures cause { (before : List (List ℕ)) → IsWalked self.old before → number ≡ length before + 1 → IfErr result (IsFaultyEntry before entry.now) }
    {
        match later_file(entry) {
            Some(file) => self.change(alloc, file, entry, number),
            None => match strike_in(entry) {
                Some(strike) => self.strike(alloc, strike, entry, number),
                None => match restore_in(entry) {
                    Some(restore) => self.restore(alloc, restore, entry, number),
                    None => {
                        self.pass(entry);
                        Ok(())
                    }
                },
            },
        }
    }

    // Takes the entries after the first.
    fn take_later(&mut self, alloc: Global, entries: &[Vec<u8>]) -> Result<(), HistoryFault>
        requires few { length entries.now ≤ most_entries }
        requires begun { IsWalked self.old (batch_of (take 1 entries.now)) }
        ensures walked { OnOk result (IsWalked self.new (batch_of entries.now)) }
        ensures cause { IfErr result (HasDocketFault (batch_of entries.now)) }
    {
        for place in 1..entries.len() {
            match self.take(alloc, &entries[place], place as u32 + 1) {
                Ok(()) => {}
                Err(fault) => return Err(fault),
            }
        }
        Ok(())
    }

    // What stands at its end.
    fn standing(self, alloc: Global) -> Result<Standing, AllocError>
        ensures stands { (kept : List (List ℕ)) → IsWalked self kept → IfOk result (StandsAfter kept) }
        ensures before { (kept : List (List ℕ)) → IsWalked self kept → IfOk result (λ standing. all_before standing.corrections (next_number kept) ≡ true) }
    {
        let numbers = KeptNumbers::of(alloc, &self.kept)?;
        let corrections = self.corrections.keeping(numbers)?;
        Ok(Standing {
            court: self.court,
            corrections,
        })
    }
}

/// What stands after a journal's entries, of which the first is a court's file: the court of the last file, the rows that are
/// struck, and the numbers that rows keep, as the corrections say them.
pub(crate) fn standing_after(alloc: Global, entries: &[Vec<u8>]) -> Result<Standing, HistoryFault>
    requires few { length entries.now ≤ most_entries }
    ensures stands { IfOk result (StandsAfter (batch_of entries.now)) }
    ensures before { IfOk result (λ standing. all_before standing.corrections (next_number (batch_of entries.now)) ≡ true) }
    ensures some { OnOk result (0 < length entries.now) }
    ensures cause { IfErr result (HasDocketFault (batch_of entries.now)) }
{
    let Some(file) = entries.first() else {
        return Err(HistoryFault::NoCourt);
    };
    let mut walk = match Walk::begin(alloc, file) {
        Ok(walk) => walk,
        Err(fault) => return Err(fault),
    };
    match walk.take_later(alloc, entries) {
        Ok(()) => {}
        Err(fault) => return Err(fault),
    }
    Ok(walk.standing(alloc)?)
}
