//! The log of a folder.
ghost use Rattle.std.specs.Prelude.{◌≡◌, ◌≤◌, ℕ, List, false, length, string_bytes, true, IfOk, OnOk};
ghost use Rattle.case_numbers.specs.Words.{number_of};
ghost use Rattle.desk_entries.specs.Words.{IsDocketed, cases_of, most_entries};
ghost use Rattle.desk_journal.specs.Words.{batch_of};
ghost use Rattle.docket.specs.Reports.{AfterEntries};
ghost use Rattle.docket.specs.Logs.{HasLogged, IsCase, IsCaseIfAsked, LogsEntries, asks_of_one, no_case, none_logged};
ghost use Rattle.program_streams.specs.Words.{has_failed, watched};

use crate::fault::Fault;
use crate::folder::stamped_beside;
use crate::progress::told_while;
use crate::times::choice_by;
use case_numbers::CaseName;
use desk_entries::{Docketed, standing_file};
use desk_journal::Stamp;
use desk_program::{court_of, write_log};
use office_texts::CaseCalled;
use program_streams::Watched;
use program_words::LogAsked;
use std::alloc::{AllocError, Global};
use std::io::Write;
use std::sync::Wait;
use std::thread::Threads;

// What is said where no case has the name.
fn no_case(alloc: Global, name: &CaseName) -> Result<String, AllocError>
    ensures { IfOk result (λ line. string_bytes line ≡ no_case name.now) }
{
    let shown = name.shown();
    format!(in alloc; "docket: no case is named '{shown}'\n")
}

// The number of the case of that name in a docket.
fn number_in(docketed: &Docketed, name: &CaseName) -> Option<u32>
    ensures { (entries : List (List ℕ)) → IsDocketed docketed.now entries → AfterEntries entries (λ under. number_of (cases_of under entries).named name.now.key ≡ result) }
{
    docketed.register.cases().number_of(name.key())
}

// The number of the case of that name in the docket of these entries.
fn named_case(alloc: Global, entries: &[Vec<u8>], name: &CaseName) -> Result<u32, Fault>
    requires few { length entries.now ≤ most_entries }
    ensures { IfOk result (IsCase (batch_of entries.now) (CaseCalled.Name name.now)) }
{
    let docketed = Docketed::of(alloc, entries)?;
    let number = number_in(&docketed, name);
    drop(docketed);
    match number {
        Some(number) => Ok(number),
        None => Err(Fault::Missing(no_case(alloc, name)?)),
    }
}

/// The number of the case that is asked for.
pub fn case_in(alloc: Global, entries: &[Vec<u8>], called: &CaseCalled) -> Result<u32, Fault>
    requires few { length entries.now ≤ most_entries }
    ensures { IfOk result (IsCase (batch_of entries.now) called.now) }
{
    match called {
        CaseCalled::Number(number) => Ok(*number),
        CaseCalled::Name(name) => named_case(alloc, entries, name),
    }
}

// The number of the case that is asked for, if one is.
fn case_if_asked(
    alloc: Global,
    entries: &[Vec<u8>],
    called: &Option<CaseCalled>,
) -> Result<Option<u32>, Fault>
    requires few { length entries.now ≤ most_entries }
    ensures { IfOk result (IsCaseIfAsked (batch_of entries.now) called.now) }
{
    match called {
        Some(called) => Ok(Some(case_in(alloc, entries, called)?)),
        None => Ok(None),
    }
}

// What is said where a row or a case is asked for, and no entry of it is chosen.
fn none_logged(alloc: Global, row: Option<u32>) -> Result<String, AllocError>
    ensures { IfOk result (λ line. string_bytes line ≡ none_logged row) }
{
    match row {
        Some(row) => format!(in alloc; "docket: the log has no such entry of row {row}\n"),
        None => String::from_str(alloc, "docket: the log has no such entry of that case\n"),
    }
}

// Whether a row or a case is asked for.
fn asks_of_one(asked: &LogAsked) -> bool
    ensures { result ≡ asks_of_one asked.now }
{
    asked.row.is_some() || asked.case.is_some()
}

// Writes the log of these entries, by the court that stands after them.
fn put_log<W: Write>(
    alloc: Global,
    writer: &mut Watched<W>,
    entries: &[Vec<u8>],
    stamps: &[Stamp],
    asked: &LogAsked,
    case: Option<u32>,
) -> Result<(), Fault>
    requires works { has_failed writer.old ≡ false }
    ensures written { OnOk result (LogsEntries asked.now case (batch_of entries.now) stamps.now (W.contents (watched writer.old)) (W.contents (watched writer.new))) }
    // Where one row or one case is asked for, something is written.
    ensures some { asks_of_one asked.now ≡ true → OnOk result (HasLogged asked.now case (batch_of entries.now) stamps.now) }
{
    let court = court_of(alloc, standing_file(entries))?;
    let choice = choice_by(alloc, court.clock(), asked, case)?;
    let some = write_log(alloc, &court, entries, stamps, &choice, writer)?;
    if !some && asks_of_one(asked) {
        return Err(Fault::Missing(none_logged(alloc, asked.row)?));
    }
    Ok(())
}

/// Lists what was entered, by whom and when. Where a row or a case is asked for and no entry is listed, that is said in its place.
pub fn log<H: Threads + Wait + Sync, W: Write>(
    rt: &HostRuntime,
    threads: &H,
    writer: &mut Watched<W>,
    folder: &str,
    asked: &LogAsked,
) -> Result<(), Fault>
    requires { has_failed writer.old ≡ false }
{
    let (entries, stamps) = stamped_beside(rt, folder)?;
    let case = told_while(threads, rt.stderr(), "reading", folder, || {
        case_if_asked(rt.alloc(), &entries, &asked.case)
    })?;
    put_log(rt.alloc(), writer, &entries, &stamps, asked, case)
}
