//! A correction of a docket: a strike, a restore, or another court's file. What it changes is written before it is taken.
ghost use Rattle.std.specs.Prelude.{◌≡◌, ◌≢◌, ◌≤◌, ◌<◌, ◌++◌, ℕ, List, length, false, Err, IfOk, OnOk, string_bytes};
ghost use Rattle.std.specs.Io.KnownBytes.{Appends};
ghost use Rattle.docket_rows.specs.Words.{setup_of};
ghost use Rattle.office_texts.specs.Run.Words.{Holds};
ghost use Rattle.docket_shifts.specs.Words.{rows_shown, shifts};
ghost use Rattle.desk_journal.specs.Words.{batch_of};
ghost use Rattle.desk_entries.specs.Words.{StandsAt, docketed_by, most_entries};
ghost use Rattle.program_streams.specs.Words.{has_failed, watched};
ghost use Rattle.desk_program.specs.Leave.{asking_between};
ghost use Rattle.desk_program.specs.Inside.Correction.{IsReview};
ghost use Rattle.desk_program.specs.Correction.{IsListed, IsOnlyListed, correction_text, head_text, row_head, shown_at};

use crate::changed_text::push_changed;
use crate::entry_kind::EntryKind;
use crate::faults::CorrectionFault;
use crate::log_text::{kind_text, push_indented};
use desk_entries::{DocketRegister, Review, Standing, decided_again, entry_at};
use docket_shifts::{Compared, push_shifts};
use program_streams::{Watched, write_all};
use std::alloc::{AllocError, Global};
use std::io::Write;

// What is written of a correction, and for how many rows leave is asked.
#[derive(Drop)]
struct Listing {
    text: Vec<u8>,
    count: usize,
}

// A docket as it is shown.
fn compared<'a>(under: &'a Standing, register: &'a DocketRegister) -> Compared<'a>
    ensures holds { (entries : List (List ℕ)) → StandsAt under.now register.now entries → Holds (setup_of result.court) result.docket (docketed_by under.now entries) }
    ensures rows { (entries : List (List ℕ)) → StandsAt under.now register.now entries → rows_shown result (docketed_by under.now entries) ≡ shown_at under.now entries }
{
    Compared {
        court: &under.court,
        docket: register.docket(),
        moved: register.numbers().moved(),
        cases: register.cases(),
    }
}

// The deadlines and hearings that are others under what stands after a correction than now.
fn moved_text(
    alloc: Global,
    now: &Standing,
    before: &DocketRegister,
    after: &Standing,
    register: &DocketRegister,
) -> Result<String, AllocError>
    ensures { (entries : List (List ℕ)) → StandsAt now.now before.now entries → StandsAt after.now register.now entries → IfOk result (λ text. string_bytes text ≡ shifts (shown_at now.now entries) (shown_at after.now entries)) }
{
    let mut text = String::new(alloc);
    let was = compared(now, before);
    let is = compared(after, register);
    push_shifts(alloc, &mut text, &was, &is)?;
    Ok(text)
}

// Adds the row that is struck or restored.
fn push_row_head(
    alloc: Global,
    text: &mut Vec<u8>,
    entries: &[Vec<u8>],
    kind: EntryKind,
    row: u32,
) -> Result<(), AllocError>
    ensures { OnOk result (text.new.items ≡ text.old.items ++ row_head (batch_of entries.now) kind row) }
{
    let heading = kind_text(alloc, kind, u64::from(row))?;
    text.extend_from_slice(heading.as_bytes())?;
    text.extend_from_slice(b":\n")?;
    push_indented(text, entry_at(entries, row))?;
    Ok(())
}

// Adds what is written first of a correction: the row that is struck or restored.
fn push_head(
    alloc: Global,
    text: &mut Vec<u8>,
    entries: &[Vec<u8>],
    kind: EntryKind,
) -> Result<(), AllocError>
    ensures { OnOk result (text.new.items ≡ text.old.items ++ head_text (batch_of entries.now) kind) }
{
    match kind {
        EntryKind::Strike(row) => push_row_head(alloc, text, entries, kind, row),
        EntryKind::Restore(row) => push_row_head(alloc, text, entries, kind, row),
        EntryKind::CourtFile => Ok(()),
        EntryKind::Row => Ok(()),
    }
}

// What is written of a correction, where these are the reviews of entries now and after it.
fn listed(
    alloc: Global,
    now: &Standing,
    before: &Review,
    after: &Standing,
    review: &Review,
    entries: &[Vec<u8>],
    kind: EntryKind,
) -> Result<Listing, AllocError>
    ensures text { IsReview now.now (batch_of entries.now) before.now → IsReview after.now (batch_of entries.now) review.now → IfOk result (λ listing. listing.text.items ≡ correction_text now.now after.now (batch_of entries.now) kind) }
    ensures count { IsReview now.now (batch_of entries.now) before.now → IsReview after.now (batch_of entries.now) review.now → IfOk result (λ listing. listing.count ≡ length (asking_between now.now after.now (batch_of entries.now))) }
{
    let mut text = Vec::new(alloc);
    push_head(alloc, &mut text, entries, kind)?;
    let count = push_changed(
        alloc,
        &mut text,
        &now.corrections,
        &after.corrections,
        &before.differences,
        &review.differences,
        review.register.next_number(),
    )?;
    let moved = moved_text(alloc, now, &before.register, after, &review.register)?;
    text.extend_from_slice(moved.as_bytes())?;
    Ok(Listing { text, count })
}

// Writes what a correction changes. `Differs` says that leave is asked, and not given.
fn write_listing<W: Write>(
    text: &[u8],
    count: usize,
    accept: bool,
    writer: &mut Watched<W>,
) -> Result<(), CorrectionFault>
    requires { has_failed writer.old ≡ false }
    ensures written { OnOk result (Appends (W.contents (watched writer.old)) (W.contents (watched writer.new)) text.now) }
    ensures without_leave { accept ≡ false → OnOk result (count ≡ 0) }
    ensures differs { (rows : ℕ) → result ≡ Err (CorrectionFault.Differs rows) → (rows ≡ count) × (count ≢ 0)
        × Appends (W.contents (watched writer.old)) (W.contents (watched writer.new)) text.now }
{
    if write_all(writer, text).is_err() {
        return Err(CorrectionFault::Write);
    }
    if !accept && count != 0 {
        return Err(CorrectionFault::Differs(count));
    }
    Ok(())
}

// What is written of a correction, where this is the review of entries after it.
fn listed_after(
    alloc: Global,
    now: &Standing,
    after: &Standing,
    review: &Review,
    entries: &[Vec<u8>],
    kind: EntryKind,
) -> Result<Listing, AllocError>
    requires some { 0 < length entries.now }
    requires few { length entries.now ≤ most_entries }
    ensures text { IsReview after.now (batch_of entries.now) review.now → IfOk result (λ listing. listing.text.items ≡ correction_text now.now after.now (batch_of entries.now) kind) }
    ensures count { IsReview after.now (batch_of entries.now) review.now → IfOk result (λ listing. listing.count ≡ length (asking_between now.now after.now (batch_of entries.now))) }
{
    let before = decided_again(alloc, now, entries)?;
    listed(alloc, now, &before, after, review, entries, kind)
}

// Writes what a correction changes, where this is the review of entries after it.
fn list<W: Write>(
    alloc: Global,
    now: &Standing,
    after: &Standing,
    review: &Review,
    entries: &[Vec<u8>],
    kind: EntryKind,
    accept: bool,
    writer: &mut Watched<W>,
) -> Result<(), CorrectionFault>
    requires some { 0 < length entries.now }
    requires few { length entries.now ≤ most_entries }
    requires writer_works { has_failed writer.old ≡ false }
    ensures listed { IsReview after.now (batch_of entries.now) review.now → OnOk result (IsListed now.now after.now (batch_of entries.now) kind accept (W.contents (watched writer.old)) (W.contents (watched writer.new))) }
    ensures differs { (count : ℕ) → IsReview after.now (batch_of entries.now) review.now
        → result ≡ Err (CorrectionFault.Differs count) → IsOnlyListed now.now after.now (batch_of entries.now) kind count (W.contents (watched writer.old)) (W.contents (watched writer.new)) }
{
    match listed_after(alloc, now, after, review, entries, kind) {
        Ok(Listing { text, count }) => write_listing(&text, count, accept, writer),
        Err(_) => Err(CorrectionFault::OutOfMemory),
    }
}

/// The docket that entries come to under what is to stand after a correction, where this stands now. What the correction changes
/// is written. `Differs` says that rows would be answered otherwise than now, for which leave is asked and not given.
pub(crate) fn reviewed<W: Write>(
    alloc: Global,
    now: &Standing,
    after: &Standing,
    entries: &[Vec<u8>],
    kind: EntryKind,
    accept: bool,
    writer: &mut Watched<W>,
) -> Result<DocketRegister, CorrectionFault>
    requires some { 0 < length entries.now }
    requires few { length entries.now ≤ most_entries }
    requires writer_works { has_failed writer.old ≡ false }
    ensures stands { IfOk result (λ register. StandsAt after.now register (batch_of entries.now)) }
    ensures listed { OnOk result (IsListed now.now after.now (batch_of entries.now) kind accept (W.contents (watched writer.old)) (W.contents (watched writer.new))) }
    ensures differs { (count : ℕ) → result ≡ Err (CorrectionFault.Differs count) → IsOnlyListed now.now after.now (batch_of entries.now) kind count (W.contents (watched writer.old)) (W.contents (watched writer.new)) }
{
    let review = match decided_again(alloc, after, entries) {
        Ok(review) => review,
        Err(_) => return Err(CorrectionFault::OutOfMemory),
    };
    match list(alloc, now, after, &review, entries, kind, accept, writer) {
        Ok(()) => Ok(review.register),
        Err(fault) => Err(fault),
    }
}
