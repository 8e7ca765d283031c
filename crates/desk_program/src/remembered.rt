//! A desk that is left, so that other programs can keep rows in its journal, and goes on where it was.
ghost use Rattle.std.specs.Prelude.{◌≡◌, ◌<◌, ◌≤◌, ℕ, List, IsTrue, IfErr, IfOk, length};
ghost use Rattle.desk_journal.specs.Words.{BeginsWith, Frame, IsDurable, KeepsFrames, StandsFor, entries_of};

use crate::desk::Desk;
use crate::faults::OpenFault;
use court_days::Court;
use desk_entries::{Docketed, Standing};
use desk_journal::{Journal, JournalEnd, Stamp};
use desk_warnings::{CarefulRegister, CarefulStanding, HeldBack};
use sqlite_disk::Disk;
use std::alloc::Global;

/// What is kept of a desk whose disk was given back: where its journal ended, its docket, and what is held back. It holds nothing open.
#[derive(Drop)]
pub struct Remembered {
    pub(crate) end: JournalEnd,
    pub(crate) docketed: Docketed,
    pub(crate) held_back: HeldBack,
}

/// What becomes of a desk that was left, once its disk is opened anew.
#[derive(Drop)]
pub enum Resumed<D: Disk> {
    /// It goes on: all that others kept since are rows.
    Desk(Desk<D>),
    /// Others have struck or restored a row, or taken another court's file, so that answers may be other ones. The disk's docket is to be
    /// opened anew.
    Corrected(D),
}

impl<D: Disk> Desk<D> {
    ghost use Rattle.desk_program.specs.Desk.{KeepsDocket, disk_under, docketed_at, held_at};
    ghost use Rattle.desk_program.specs.Remembered.{Remembers, held_in};

    // The desk of a docket, over the journal whose entries come to it.
    fn over(journal: Journal<D>, docketed: Docketed, held_back: HeldBack) -> Desk<D>
        ensures journal { result.journal ≡ journal }
        ensures docketed { docketed_at result ≡ docketed }
        ensures held { held_at result ≡ held_back }
    {
        let Docketed { standing, register } = docketed;
        Desk {
            journal,
            setup: CarefulStanding {
                standing,
                held_back,
            },
            careful: CarefulRegister { register },
        }
    }

    /// Leaves the desk: what is kept of it, and the disk under it, as it is. Once the disk is dropped, another program can open it.
    pub fn leave(self) -> (Remembered, D)
        ensures remembers { (fs : List Frame) → KeepsFrames D.Disk fs self.journal → KeepsDocket D.Disk (entries_of fs) self → Remembers fs result.0 }
        ensures held { held_in result.0 ≡ held_at self }
        ensures disk { result.1 ≡ disk_under self }
    {
        let Desk {
            journal,
            setup,
            careful,
        } = self;
        let CarefulStanding {
            standing,
            held_back,
        } = setup;
        let CarefulRegister { register } = careful;
        let (end, disk) = journal.leave();
        (
            Remembered {
                end,
                docketed: Docketed { standing, register },
                held_back,
            },
            disk,
        )
    }
}

impl Remembered {
    ghost use Rattle.desk_program.specs.Desk.{IsUnopened};
    ghost use Rattle.desk_program.specs.Remembered.{GivesStamp, GoesOnAs, Remembers, end_in, held_in, holds_back, standing_in};

    /// Where the journal ended that was left.
    pub fn end(&self) -> &JournalEnd
        ensures { result.now ≡ end_in self.now }
    {
        &self.end
    }

    /// What stood there: the court, and what strikes come to.
    pub fn standing(&self) -> &Standing
        ensures { result.now ≡ standing_in self.now }
    {
        &self.docketed.standing
    }

    /// The court by which the docket went.
    pub fn court(&self) -> &Court
        ensures { result.now ≡ (standing_in self.now).court }
    {
        &self.docketed.standing.court
    }

    /// Goes on with a desk that was left, on its disk opened anew: only what others kept since is read and decided. What is kept there gets
    /// this stamp, with the time of the last entry where that is later. At an `Err` the disk is given back, and a crash leaves what stands
    /// for the same entries. At `Replaced` the disk's file isn't the one that was left, and nothing is written.
    pub fn resume<D: Disk>(
        self,
        alloc: Global,
        disk: D,
        stamp: Stamp,
    ) -> Result<Resumed<D>, (OpenFault, D)>
        ensures resumed { (file : List ℕ) (fs : List Frame) → IsDurable D.Disk file disk → Remembers fs self → BeginsWith file fs
            → IfOk result (GoesOnAs D.Disk file (entries_of fs)) }
        ensures held { IfOk result (holds_back (held_in self)) }
        ensures stamp { IfOk result (GivesStamp stamp) }
        ensures crash { (file : List ℕ) (fs : List Frame) (entries : List (List ℕ)) → IsDurable D.Disk file disk → Remembers fs self → BeginsWith file fs
            → StandsFor file entries → IfErr result (λ e. IsTrue (D.Disk.is_clean e.1) → (c : List ℕ) → D.Disk.may_leave e.1 c → StandsFor c entries) }
        ensures cause { (file : List ℕ) (fs : List Frame) → IsDurable D.Disk file disk → Remembers fs self → 0 < length fs → BeginsWith file fs
            → IfErr result (λ e. IsTrue (D.Disk.is_clean e.1) → IsUnopened (D.Disk.faults disk) (D.Disk.faults e.1) file e.0) }
        // Where the file isn't the one that was left, nothing is written.
        ensures untouched { (file : List ℕ) → IsDurable D.Disk file disk
            → IfErr result (λ e. e.0 ≡ OpenFault.Replaced → IsDurable D.Disk file e.1) }
    {
        let Remembered {
            end,
            mut docketed,
            held_back,
        } = self;
        let (journal, more) = match Journal::resume(alloc, disk, &end, stamp) {
            Ok(resumed) => resumed,
            Err((fault, disk)) => return Err((OpenFault::of_resumed(fault), disk)),
        };
        match docketed.follow(alloc, &more) {
            Ok(true) => Ok(Resumed::Desk(Desk::over(journal, docketed, held_back))),
            Ok(false) => Ok(Resumed::Corrected(journal.into_disk())),
            Err(fault) => Err((OpenFault::from(fault), journal.into_disk())),
        }
    }
}
