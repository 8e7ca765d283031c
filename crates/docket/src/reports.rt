//! Reports and the memo: of a folder, beside another program that may enter rows, or of an input that clerk_office reads.
ghost use Rattle.std.specs.Prelude.{◌≡◌, ◌<◌, ◌≤◌, ℕ, List, String, length, map, string_bytes, false, Err, IfErr, IfOk, IfSome, OnOk};
ghost use Rattle.std.specs.Io.KnownBytes.{Appends};
ghost use Rattle.std.specs.declared.alloc.Global.{Global};
ghost use Rattle.desk_entries.specs.Words.{IsDocketed, change_in, changes_by, most_entries};
ghost use Rattle.desk_journal.specs.Words.{batch_of};
ghost use Rattle.desk_program.specs.declared.faults.desk.DeskFault.{DeskFault as DeskFaultOf};
ghost use Rattle.docket.specs.Reports.{EndsRun, IsMemo, IsNoMemo, IsNoReport, IsReport, past_of};
ghost use Rattle.program_streams.specs.Words.{has_failed, watched};
ghost use Rattle.program_runs.specs.Words.{IsFinding, IsReportRun};

use crate::fault::Fault;
use crate::folder::{entries_beside, put, read_file};
use crate::progress::told_while;
use desk_entries::{
    Difference, Docketed, corrections_in, refused_rows, standing_file, standing_rows, struck_rows,
};
use desk_program::{DeskFault, OpenFault};
use program_runs::{Finding, Report, run_report};
use program_streams::Watched;
use program_words::Source;
use report_memo::{Asked as MemoAsked, day_made, memo_of};
use report_program::{Asked as ReportAsked, Past, report_of_docket, report_of_rows};
use std::alloc::{AllocError, Global};
use std::io::{IsTerminal, Read, Write};
use std::sync::Wait;
use std::thread::Threads;

// Writes a report of an input.
fn of_input<H: Threads + Wait + Sync, R: Read + Drop, W: Write, P: Report>(
    threads: &H,
    alloc: Global,
    reader: R,
    writer: &mut Watched<W>,
    asked: &P,
) -> Result<(), Fault>
    requires { has_failed writer.old ≡ false }
    ensures { IfSome (R.remaining reader) (λ input. EndsRun (λ answer. IsReportRun (P.clerk_count asked.now) (P.is_text asked.now) (P.is_missing asked.now) (W.contents (watched writer.old)) (W.contents (watched writer.new)) answer input) result) }
{
    let mut reader = Watched::new(reader);
    match run_report(threads, alloc, &mut reader, writer, asked) {
        Ok(None) => Ok(()),
        Ok(Some(line)) => Err(Fault::Missing(line)),
        Err(fault) => Err(Fault::Input(fault)),
    }
}

// Writes a report of a folder with these entries.
fn put_report<H: Threads + Wait + Sync, E: Write + IsTerminal + Send + Drop, W: Write>(
    threads: &H,
    alloc: Global,
    errors: E,
    writer: &mut Watched<W>,
    folder: &str,
    entries: &[Vec<u8>],
    asked: &ReportAsked,
) -> Result<(), Fault>
    requires works { has_failed writer.old ≡ false }
    requires few { length entries.now ≤ most_entries }
    ensures written { OnOk result ((text : List ℕ) × IsReport asked.now (batch_of entries.now) text × Appends (W.contents (watched writer.old)) (W.contents (watched writer.new)) text) }
    ensures missing { (line : String Global) → result ≡ Err (Fault.Missing line) → IsNoReport asked.now (batch_of entries.now) (string_bytes line) × (writer.new ≡ writer.old) }
{
    let found = told_while(threads, errors, "reading", folder, || {
        report_found(alloc, entries, asked)
    })?;
    match found {
        Finding::Text(text) => Ok(put(writer, &text)?),
        Finding::Missing(line) => Err(Fault::Missing(line)),
    }
}

// What entries say beside what the docket has now, where these of its rows are answered otherwise.
fn past_of<'a>(
    alloc: Global,
    docketed: &'a Docketed,
    entries: &[Vec<u8>],
    differences: &[Difference],
) -> Result<Past<'a>, AllocError>
    requires few { length entries.now ≤ most_entries }
    ensures { IsDocketed docketed.now (batch_of entries.now) → map change_in differences.now ≡ changes_by docketed.now.standing (batch_of entries.now) → IfOk result (λ past. past ≡ past_of docketed.now.standing (batch_of entries.now)) }
{
    let numbers = docketed.register.numbers();
    let moved = numbers.moved();
    let struck = struck_rows(alloc, &docketed.standing, moved, entries)?;
    let refused = refused_rows(alloc, &docketed.standing, moved, differences)?;
    let corrected = corrections_in(entries);
    Ok(Past::of(
        struck,
        refused,
        numbers.given(),
        u64::from(corrected.rows_before),
        u64::from(corrected.count),
    ))
}

// What a report finds of the rows of a docket with these entries.
fn report_by_rows(
    alloc: Global,
    docketed: &Docketed,
    entries: &[Vec<u8>],
    asked: &ReportAsked,
) -> Result<Finding<Vec<u8>>, AllocError>
    requires some { 0 < length entries.now }
    requires few { length entries.now ≤ most_entries }
    requires docketed { IsDocketed docketed.now (batch_of entries.now) }
    ensures { IfOk result (IsFinding (λ text. text.items) (IsReport asked.now (batch_of entries.now)) (IsNoReport asked.now (batch_of entries.now))) }
{
    let reported = standing_rows(alloc, &docketed.standing, entries)?;
    let past = past_of(alloc, docketed, entries, &reported.differences)?;
    let register = &docketed.register;
    report_of_rows(
        alloc,
        asked,
        standing_file(entries),
        &docketed.standing.court,
        register.cases(),
        register.numbers().moved(),
        &reported.called,
        &past,
        &reported.rows,
        register.docket(),
    )
}

// What a report finds of a docket with these entries. The rows are decided again only for what rests on them.
fn report_on(
    alloc: Global,
    docketed: &Docketed,
    entries: &[Vec<u8>],
    asked: &ReportAsked,
) -> Result<Finding<Vec<u8>>, AllocError>
    requires some { 0 < length entries.now }
    requires few { length entries.now ≤ most_entries }
    requires docketed { IsDocketed docketed.now (batch_of entries.now) }
    ensures { IfOk result (IsFinding (λ text. text.items) (IsReport asked.now (batch_of entries.now)) (IsNoReport asked.now (batch_of entries.now))) }
{
    let register = &docketed.register;
    let found = report_of_docket(
        alloc,
        asked,
        standing_file(entries),
        &docketed.standing.court,
        register.cases(),
        register.numbers().moved(),
        register.called(),
        register.docket(),
    )?;
    match found {
        Some(found) => Ok(found),
        None => report_by_rows(alloc, docketed, entries, asked),
    }
}

/// What a report finds after entries.
pub fn report_found(
    alloc: Global,
    entries: &[Vec<u8>],
    asked: &ReportAsked,
) -> Result<Finding<Vec<u8>>, Fault>
    requires few { length entries.now ≤ most_entries }
    ensures found { IfOk result (IsFinding (λ text. text.items) (IsReport asked.now (batch_of entries.now)) (IsNoReport asked.now (batch_of entries.now))) }
    ensures fault { IfErr result (λ fault. (cause : DeskFaultOf) × (fault ≡ Fault.Desk cause)) }
{
    if entries.is_empty() {
        return Err(Fault::Desk(DeskFault::Open(OpenFault::NoJournal)));
    }
    let docketed = Docketed::of(alloc, entries)?;
    let found = report_on(alloc, &docketed, entries, asked);
    drop(docketed);
    match found {
        Ok(found) => Ok(found),
        Err(_) => Err(Fault::Desk(DeskFault::OutOfMemory)),
    }
}

// Writes the memo of a folder with these entries.
fn put_memo<H: Threads + Wait + Sync, E: Write + IsTerminal + Send + Drop, W: Write>(
    threads: &H,
    alloc: Global,
    errors: E,
    writer: &mut Watched<W>,
    folder: &str,
    entries: &[Vec<u8>],
    asked: &MemoAsked,
) -> Result<(), Fault>
    requires works { has_failed writer.old ≡ false }
    requires few { length entries.now ≤ most_entries }
    ensures written { OnOk result ((text : List ℕ) × IsMemo asked.now (batch_of entries.now) text × Appends (W.contents (watched writer.old)) (W.contents (watched writer.new)) text) }
    ensures missing { (line : String Global) → result ≡ Err (Fault.Missing line) → IsNoMemo asked.now (batch_of entries.now) (string_bytes line) × (writer.new ≡ writer.old) }
{
    let found = told_while(threads, errors, "reading", folder, || {
        memo_found(alloc, entries, asked)
    })?;
    match found {
        Finding::Text(text) => Ok(put(writer, &text)?),
        Finding::Missing(line) => Err(Fault::Missing(line)),
    }
}

// What the memo finds of a docket with these entries.
fn memo_on(
    alloc: Global,
    docketed: &Docketed,
    entries: &[Vec<u8>],
    asked: &MemoAsked,
) -> Result<Finding<Vec<u8>>, AllocError>
    requires some { 0 < length entries.now }
    requires few { length entries.now ≤ most_entries }
    ensures { IsDocketed docketed.now (batch_of entries.now) → IfOk result (IsFinding (λ text. text.items) (IsMemo asked.now (batch_of entries.now)) (IsNoMemo asked.now (batch_of entries.now))) }
{
    let reported = standing_rows(alloc, &docketed.standing, entries)?;
    let register = &docketed.register;
    let moved = register.numbers().moved();
    let court = &docketed.standing.court;
    let file = standing_file(entries);
    let made = Some(day_made(court, asked));
    memo_of(
        alloc,
        asked,
        file,
        made,
        court,
        register.cases(),
        moved,
        &reported.called,
        &reported.rows,
    )
}

// What the memo finds after entries.
fn memo_found(
    alloc: Global,
    entries: &[Vec<u8>],
    asked: &MemoAsked,
) -> Result<Finding<Vec<u8>>, Fault>
    requires few { length entries.now ≤ most_entries }
    ensures found { IfOk result (IsFinding (λ text. text.items) (IsMemo asked.now (batch_of entries.now)) (IsNoMemo asked.now (batch_of entries.now))) }
    ensures fault { IfErr result (λ fault. (cause : DeskFaultOf) × (fault ≡ Fault.Desk cause)) }
{
    if entries.is_empty() {
        return Err(Fault::Desk(DeskFault::Open(OpenFault::NoJournal)));
    }
    let docketed = Docketed::of(alloc, entries)?;
    let found = memo_on(alloc, &docketed, entries, asked);
    drop(docketed);
    match found {
        Ok(found) => Ok(found),
        Err(_) => Err(Fault::Desk(DeskFault::OutOfMemory)),
    }
}

/// Writes a report.
pub fn report<H: Threads + Wait + Sync, W: Write>(
    rt: &HostRuntime,
    threads: &H,
    writer: &mut Watched<W>,
    source: &Source,
    asked: &ReportAsked,
) -> Result<(), Fault>
    requires { has_failed writer.old ≡ false }
{
    match source {
        Source::Folder(folder, as_of) => {
            let entries = entries_beside(rt, folder.as_str(), *as_of)?;
            put_report(
                threads,
                rt.alloc(),
                rt.stderr(),
                writer,
                folder.as_str(),
                &entries,
                asked,
            )
        }
        Source::File(name) => {
            let bytes = read_file(rt, name.as_str())?;
            of_input(threads, rt.alloc(), bytes.as_slice(), writer, asked)
        }
        Source::StandardInput => of_input(threads, rt.alloc(), rt.stdin(), writer, asked),
    }
}

/// Writes a memo.
pub fn memo<H: Threads + Wait + Sync, W: Write>(
    rt: &HostRuntime,
    threads: &H,
    writer: &mut Watched<W>,
    source: &Source,
    asked: &MemoAsked,
) -> Result<(), Fault>
    requires { has_failed writer.old ≡ false }
{
    match source {
        Source::Folder(folder, as_of) => {
            let entries = entries_beside(rt, folder.as_str(), *as_of)?;
            put_memo(
                threads,
                rt.alloc(),
                rt.stderr(),
                writer,
                folder.as_str(),
                &entries,
                asked,
            )
        }
        Source::File(name) => {
            let bytes = read_file(rt, name.as_str())?;
            of_input(threads, rt.alloc(), bytes.as_slice(), writer, asked)
        }
        Source::StandardInput => of_input(threads, rt.alloc(), rt.stdin(), writer, asked),
    }
}
