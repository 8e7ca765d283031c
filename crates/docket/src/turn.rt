//! One turn of a session at a folder's journal: it is opened, rows are kept, and it is left to others.
ghost use Rattle.std.specs.Prelude.{◌≡◌, [], ℕ, List, Some, IsTrue, IfOk, IfSome, false};
ghost use Rattle.desk_journal.specs.Words.{IsDurable};
ghost use Rattle.desk_program.specs.Words.{KeepsDocket, disk_under, standing_at};
ghost use Rattle.docket.specs.Sessions.{EntersFile, IsLeftIn, PromisesLines, Resumes};
ghost use Rattle.program_streams.specs.Words.{has_failed, watched};

use crate::fault::Fault;
use crate::folder::{gathered, opened};
use crate::journal_file::{find_own_journal, journal_name};
use crate::keep::kept;
use crate::saved::save_tail_after;
use desk_journal::Stamp;
use desk_program::{Desk, DeskFault, Remembered, Resumed, open_file};
use desk_session::{Tally, second_of};
use program_streams::Watched;
use program_words::Entering;
use sqlite_disk::{Disk, Start};
use sqlite_std_file::FileFrom;
use std::alloc::Global;
use std::rt::Clock;
use std::sync::Wait;
use std::thread::Threads;

/// What a turn came to.
#[derive(Drop)]
pub struct Turn<D: Disk> {
    /// The disk, as the turn leaves it.
    pub disk: D,
    /// All else.
    pub told: Told,
}

/// What a turn has to say. Nothing of it is written yet.
#[derive(Drop)]
pub struct Told {
    /// What is kept of the docket for the next turn.
    pub left: Remembered,
    /// All entries before the turn, where the docket was made anew.
    pub entries: Option<Vec<Vec<u8>>>,
    /// How many rows were kept before the turn's own.
    pub before: u32,
    /// How many rows are kept with them.
    pub after: u32,
    /// The answers.
    pub said: Watched<Vec<u8>>,
    /// What is said of lines that have faults.
    pub errors: Watched<Vec<u8>>,
    /// How the turn ended.
    pub ended: Result<Tally, Fault>,
}

// Keeps rows at a desk, and leaves it.
fn turn_at<D: Disk, C: Clock>(
    alloc: Global,
    clock: &C,
    mut desk: Desk<D>,
    entries: Option<Vec<Vec<u8>>>,
    asked: &Entering,
    rows: &[u8],
) -> Turn<D>
    ensures promised { (kept : List (List ℕ)) → KeepsDocket D.Disk kept desk
        → PromisesLines (standing_at desk) asked.now.held_back kept (Some []) (Some (watched result.told.said).items) (has_failed result.told.said ≡ false) (D.Disk.may_leave result.disk) }
    ensures clean { IsTrue (D.Disk.is_clean result.disk) → IsTrue (D.Disk.is_clean (disk_under desk)) }
{
    let mut said = gathered(alloc);
    let mut errors = gathered(alloc);
    let before = desk.rows();
    desk.hold_back(asked.held_back);
    let ended = kept(alloc, clock, &mut said, &mut errors, &mut desk, asked, rows);
    let after = desk.rows();
    let (left, disk) = desk.leave();
    let told = Told {
        left,
        entries,
        before,
        after,
        said,
        errors,
        ended,
    };
    Turn { disk, told }
}

/// A turn that opens the docket of a folder. What takes long is told at a terminal. What the journal's file holds is that of `start`,
/// which stands for what no code can read before.
pub fn first_turn<S: Start, H: Threads + Wait + Sync>(
    rt: &HostRuntime,
    threads: &H,
    folder: &str,
    asked: &Entering,
    rows: &[u8],
    start: S,
) -> Result<Turn<FileFrom<S>>, Fault>
    ensures { IfOk result (λ turn. IsTrue (⟦<FileFrom<S> as Disk>⟧.is_clean turn.disk)
        → EntersFile S.Start.db asked.now.held_back (Some []) (Some (watched turn.told.said).items) (has_failed turn.told.said ≡ false) (⟦<FileFrom<S> as Disk>⟧.may_leave turn.disk)) }
{
    let (desk, entries) = opened(rt, threads, folder, start)?;
    Ok(turn_at(rt.alloc(), rt, desk, Some(entries), asked, rows))
}

// Goes on with a docket that was left, on the journal's file, opened anew: this is its name. What a crash left of others' rows is saved
// first. Nothing where others have corrected the docket.
fn resumed<D: Disk + Drop>(
    rt: &HostRuntime,
    folder: &str,
    journal: &str,
    left: Remembered,
    account: &[u8],
    disk: D,
) -> Result<Option<Desk<D>>, Fault>
    ensures { (file : List ℕ) → IsDurable D.Disk file disk → IsLeftIn file left → IfOk result (λ desk. IfSome desk (Resumes D.Disk file)) }
{
    save_tail_after(rt, folder, journal, left.end())?;
    let stamp = Stamp::new(second_of(rt), Vec::from_slice(rt.alloc(), account)?);
    match left.resume(rt.alloc(), disk, stamp) {
        Ok(Resumed::Desk(desk)) => Ok(Some(desk)),
        Ok(Resumed::Corrected(_)) => Ok(None),
        Err((fault, _)) => Err(Fault::Desk(DeskFault::Open(fault))),
    }
}

/// A turn that goes on with the docket that an earlier one left: only what others kept since is read and decided. Nothing where others have
/// struck or restored a row, or taken another court's file, since then the docket is to be opened anew.
pub fn next_turn<S: Start>(
    rt: &HostRuntime,
    folder: &str,
    left: Remembered,
    account: &[u8],
    asked: &Entering,
    rows: &[u8],
    start: S,
) -> Result<Option<Turn<FileFrom<S>>>, Fault>
    ensures { IsLeftIn S.Start.db left → IfOk result (λ turn. IfSome turn (λ turn. IsTrue (⟦<FileFrom<S> as Disk>⟧.is_clean turn.disk)
        → EntersFile S.Start.db asked.now.held_back (Some []) (Some (watched turn.told.said).items) (has_failed turn.told.said ≡ false) (⟦<FileFrom<S> as Disk>⟧.may_leave turn.disk))) }
{
    let name = journal_name(rt.alloc(), folder)?;
    find_own_journal(rt, name.as_str())?;
    let file = open_file(rt, name.as_str(), start)?;
    let gone_on = resumed(rt, folder, name.as_str(), left, account, file)?;
    match gone_on {
        Some(desk) => Ok(Some(turn_at(rt.alloc(), rt, desk, None, asked, rows))),
        None => Ok(None),
    }
}
