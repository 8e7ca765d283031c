//! One page of a case: what its sheet has, and its last entries.
ghost use Rattle.std.specs.Prelude.{◌≡◌, ◌≤◌, ℕ, List, String, false, length, Err, IfOk, OnOk};
ghost use Rattle.std.specs.Io.KnownBytes.{Appends};
ghost use Rattle.std.specs.declared.alloc.Global.{Global};
ghost use Rattle.desk_entries.specs.Words.{most_entries};
ghost use Rattle.desk_journal.specs.Words.{batch_of};
ghost use Rattle.docket.specs.CasePage.{IsCasePage, IsLastEntries, IsLastOf, IsWithEntries};
ghost use Rattle.docket.specs.Reports.{IsNoReport};
ghost use Rattle.program_runs.specs.Words.{IsFinding};
ghost use Rattle.program_streams.specs.Words.{has_failed, watched};

use crate::fault::Fault;
use crate::folder::{put, stamped_beside};
use crate::logs::case_in;
use crate::progress::told_while;
use crate::reports::report_found;
use desk_entries::standing_file;
use desk_journal::Stamp;
use desk_program::{LogChoice, court_of, last_log};
use office_texts::CaseCalled;
use program_runs::Finding;
use program_streams::Watched;
use report_program::Asked;
use std::alloc::Global;
use std::io::{IsTerminal, Write};
use std::sync::Wait;
use std::thread::Threads;

// How many entries of a case a page has.
const ENTRIES: usize = 10;

// The last entries of a case, by the court that stands after all entries.
fn last_entries(
    alloc: Global,
    entries: &[Vec<u8>],
    stamps: &[Stamp],
    case: u32,
) -> Result<Vec<u8>, Fault>
    ensures { IfOk result (λ text. IsLastEntries case (batch_of entries.now) stamps.now text.items) }
{
    let court = court_of(alloc, standing_file(entries))?;
    let choice = LogChoice {
        row: None,
        case: Some(case),
        by: None,
        from: None,
        to: None,
        json: false,
    };
    Ok(last_log(alloc, &court, entries, stamps, &choice, ENTRIES)?)
}

// Those of the case that is asked for.
fn last_called(
    alloc: Global,
    entries: &[Vec<u8>],
    stamps: &[Stamp],
    called: &Option<CaseCalled>,
) -> Result<Vec<u8>, Fault>
    requires few { length entries.now ≤ most_entries }
    ensures { IfOk result (λ text. IsLastOf called.now (batch_of entries.now) stamps.now text.items) }
{
    match called {
        Some(called) => {
            let case = case_in(alloc, entries, called)?;
            last_entries(alloc, entries, stamps, case)
        }
        None => Ok(Vec::new(alloc)),
    }
}

// A page with the last entries of its case after it.
fn with_entries(
    alloc: Global,
    entries: &[Vec<u8>],
    stamps: &[Stamp],
    called: &Option<CaseCalled>,
    page: Vec<u8>,
) -> Result<Vec<u8>, Fault>
    requires few { length entries.now ≤ most_entries }
    ensures { IfOk result (λ text. IsWithEntries called.now (batch_of entries.now) stamps.now page.items text.items) }
{
    let log = last_called(alloc, entries, stamps, called)?;
    let mut text = page;
    text.extend_from_slice(&log)?;
    Ok(text)
}

// What is written of the case that is asked for, or the line that says what isn't there.
fn page_found(
    alloc: Global,
    entries: &[Vec<u8>],
    stamps: &[Stamp],
    asked: &Asked,
) -> Result<Finding<Vec<u8>>, Fault>
    requires few { length entries.now ≤ most_entries }
    ensures { IfOk result (IsFinding (λ text. text.items) (IsCasePage asked.now (batch_of entries.now) stamps.now) (IsNoReport asked.now (batch_of entries.now))) }
{
    match report_found(alloc, entries, asked)? {
        Finding::Text(page) => Ok(Finding::Text(with_entries(
            alloc,
            entries,
            stamps,
            &asked.case,
            page,
        )?)),
        Finding::Missing(line) => Ok(Finding::Missing(line)),
    }
}

// Writes the page of a case of a folder with these entries.
fn put_page<H: Threads + Wait + Sync, E: Write + IsTerminal + Send + Drop, W: Write>(
    threads: &H,
    alloc: Global,
    errors: E,
    writer: &mut Watched<W>,
    folder: &str,
    entries: &[Vec<u8>],
    stamps: &[Stamp],
    asked: &Asked,
) -> Result<(), Fault>
    requires works { has_failed writer.old ≡ false }
    requires few { length entries.now ≤ most_entries }
    ensures written { OnOk result ((text : List ℕ) × IsCasePage asked.now (batch_of entries.now) stamps.now text × Appends (W.contents (watched writer.old)) (W.contents (watched writer.new)) text) }
    ensures missing { (line : String Global) → result ≡ Err (Fault.Missing line) → writer.new ≡ writer.old }
{
    let found = told_while(threads, errors, "reading", folder, || {
        page_found(alloc, entries, stamps, asked)
    })?;
    match found {
        Finding::Text(text) => Ok(put(writer, &text)?),
        Finding::Missing(line) => Err(Fault::Missing(line)),
    }
}

/// Writes the page of a case.
pub fn case_page<H: Threads + Wait + Sync, W: Write>(
    rt: &HostRuntime,
    threads: &H,
    writer: &mut Watched<W>,
    folder: &str,
    asked: &Asked,
) -> Result<(), Fault>
    requires { has_failed writer.old ≡ false }
{
    let (entries, stamps) = stamped_beside(rt, folder)?;
    put_page(
        threads,
        rt.alloc(),
        rt.stderr(),
        writer,
        folder,
        &entries,
        &stamps,
        asked,
    )
}
