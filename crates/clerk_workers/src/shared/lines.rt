//! The text of a clerk's answers.

ghost use Rattle.std.specs.Prelude.{◌≡◌, [], All, IfOk, OnOk, length};
ghost use Rattle.std.specs.Arc.{arc_value};
ghost use Rattle.office_texts.specs.Words.{AddsText};
ghost use Rattle.program_streams.specs.Words.{Adds};
ghost use Rattle.clerk_workers.specs.Shared.Lines.{HoldLines};
ghost use Rattle.clerk_workers.specs.Shared.Merged.{first_text, later_texts};
ghost use Rattle.clerk_workers.specs.Shared.Text.{row_text};

use crate::shared::named::NamesCourt;
use crate::{Notes, SharedReply};
use clerk_seats::NamesOffice;
use court_days::Court;
use office_texts::{push_answer, push_view};
use program_streams::{Gathered, Watched};
use std::alloc::{AllocError, Global};
use std::io::Write;
use std::marker::Model;
use std::sync::Arc;

/// The texts of the answers to a clerk's rows, one after another, without the numbers of row and clerk. At the end they are
/// handed over in their order.
#[derive(Drop)]
pub(crate) struct Lines {
    court: Arc<Court>,
    bytes: Vec<u8>,
    // how many bytes each text has
    lens: Vec<usize>,
    // where the next text is written first
    text: String,
    // how many bytes, and how many texts, are handed over
    place: usize,
    at: usize,
}

impl Model for Lines {
    ghost use Rattle.std.specs.Arc.{arc_value};
    ghost use Rattle.std.specs.Prelude.{drop};
    ghost use Rattle.clerk_workers.specs.Shared.Lines.{AreWithin, LinesView};

    ghost Value = { LinesView };

    ghost view = { λ l. record { court = arc_value l.court; texts = record { bytes = drop l.place l.bytes.items; lens = drop l.at l.lens.items } } };

    ghost invariant = { λ l. AreWithin l.place l.at l.bytes.items l.lens.items };
}

impl Lines {
    /// Those of a clerk who hasn't begun.
    pub(crate) fn new(alloc: Global, court: Arc<Court>) -> Self
        ensures { HoldLines (arc_value court) result [] }
    {
        Lines {
            court,
            bytes: Vec::new(alloc),
            lens: Vec::new(alloc),
            text: String::new(alloc),
            place: 0,
            at: 0,
        }
    }

    // The first text that isn't handed over; no bytes where all are.
    fn first(&self) -> &[u8]
        ensures { result.now ≡ first_text self.now.texts }
    {
        let rest = self.bytes.as_slice().split_at(self.place).1;
        match self.lens.get(self.at) {
            Some(len) if *len < rest.len() => rest.split_at(*len).0,
            Some(_) => rest,
            None => rest.split_at(0).0,
        }
    }

    /// Hands over the next text.
    pub(crate) fn hand_next<W: Write>(&mut self, gathered: &mut Gathered, writer: &mut Watched<W>)
        ensures text { Adds W.contents writer.old gathered.old writer.new gathered.new (first_text self.old.texts) }
        ensures left { self.new.texts ≡ later_texts self.old.texts }
    {
        let text = self.first();
        let len = text.len();
        gathered.add(writer, text);
        self.place += len;
        if self.at < self.lens.len() {
            self.at += 1;
        }
    }
}

impl<L: NamesOffice + NamesCourt> Notes<L> for Lines {
    ghost hold = { HoldLines L.court };

    fn add(&mut self, answer: SharedReply) -> Result<(), AllocError> {
        self.text.clear();
        push_row_answer(&mut self.text, &self.court, &answer)?;
        self.bytes.extend_from_slice(self.text.as_bytes())?;
        self.lens.push(self.text.len())?;
        Ok(())
    }
}

/// Lines for each of the clerks, none of whom has begun. `Err` says that memory ran out.
pub(crate) fn lines_for(
    alloc: Global,
    court: &Arc<Court>,
    clerks: u8,
) -> Result<Vec<Lines>, AllocError>
    ensures as_many { IfOk result (λ lines. length lines.items ≡ clerks) }
    ensures empty { IfOk result (λ lines. All (λ each. HoldLines (arc_value court.now) each []) lines.items) }
{
    let mut lines = Vec::with_capacity(alloc, usize::from(clerks))?;
    for _clerk in 0..clerks {
        lines.push_reserved(Lines::new(alloc, court.clone()?));
    }
    Ok(lines)
}

/// Adds the text of an answer, with the ends of its lines.
fn push_row_answer(text: &mut String, court: &Court, answer: &SharedReply) -> Result<(), AllocError>
    ensures { OnOk result (AddsText text.old text.new (row_text court.now answer.now)) }
{
    match answer {
        SharedReply::Made(done) => {
            push_answer(text, court.clock(), &done.answer)?;
            text.push_str("\n")
        }
        SharedReply::JournalFull => text.push_str("journal full\n"),
        SharedReply::Viewed(view) => push_view(text, court, view),
    }
}
