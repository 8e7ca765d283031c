//! What speaks against taking the rows of a line.
ghost use Rattle.std.specs.Prelude.{◌≡◌, ◌||◌, ℕ, List, IfOk, length, nat_lt, string_bytes};
ghost use Rattle.std.specs.List.{flat_map};
ghost use Rattle.row_forms.specs.Words.{names_of};
ghost use Rattle.row_forms.specs.Line.Words.{line_read};
ghost use Rattle.desk_register.specs.Words.{StandsAt, asks, most_clerks, reading_at, within};
ghost use Rattle.desk_warnings.specs.Inside.Rows.{row_texts};
ghost use Rattle.desk_warnings.specs.Rows.{against_one, against_row, against_rows, against_said, name_at, warned_at, warnings_at, warnings_said};

use crate::register::{CarefulRegister, HeldBack, RowTypes};
use crate::rows::{fault_against, labels_new};
use crate::warnings::warnings_on;
use case_numbers::CaseName;
use csv::StringRecord;
use desk_register::Standing;
use row_forms::{Line, RowCause, Work};
use std::alloc::{AllocError, Global};

// Whether a row asks a question.
fn asks(work: &Work) -> bool
    ensures { result ≡ asks work.now }
{
    match work {
        Work::Command(_) => false,
        Work::Query(_) => true,
    }
}

// Whether a row is answered: there is room for it, or it asks a question.
fn is_answered(room: bool, work: &Work) -> bool
    ensures { result ≡ (room || asks work.now) }
{
    room || asks(work)
}

// Whether rows are several.
fn are_several(rows: &[&[u8]]) -> bool
    ensures { result ≡ nat_lt 1 (length rows.now) }
{
    rows.len() > 1
}

impl CarefulRegister {
    // What a row says as the one that comes next, if there is room for it, and the name in it that no case has.
    fn said(
        &self,
        alloc: Global,
        standing: &Standing,
        row: &[u8],
    ) -> Result<(Line, Option<CaseName>), AllocError>
        ensures said { (kept : List (List ℕ)) → StandsAt standing.now self.now.register kept → IfOk result (λ read. read.0 ≡ line_read most_clerks (names_of standing.now.court) (reading_at standing.now kept row.now).text) }
        ensures name { (kept : List (List ℕ)) → StandsAt standing.now self.now.register kept → IfOk result (λ read. read.1 ≡ name_at standing.now kept row.now) }
    {
        let _types: RowTypes = None;
        let mut fields = StringRecord::new(alloc);
        let (said, name) = self.register.read(alloc, standing, row, &mut fields)?;
        Ok((said, name))
    }

    // What a clerk is warned of a row that says this, and gives a case this name.
    fn warnings_said(
        &self,
        alloc: Global,
        standing: &Standing,
        held_back: &HeldBack,
        name: &Option<CaseName>,
        said: &Line,
    ) -> Result<String, AllocError>
        ensures { (kept : List (List ℕ)) → StandsAt standing.now self.now.register kept → IfOk result (λ text. string_bytes text ≡ warnings_said standing.now held_back.now kept name.now (within kept said.now)) }
    {
        let _types: RowTypes = None;
        match said {
            Line::Row(row) => {
                if self.register.has_room() {
                    warnings_on(
                        alloc,
                        &standing.court,
                        self.register.numbers().moved(),
                        self.register.cases(),
                        self.register.docket(),
                        held_back,
                        name,
                        &row.work,
                    )
                } else {
                    Ok(String::new(alloc))
                }
            }
            Line::Blank | Line::Fault(_) => Ok(String::new(alloc)),
        }
    }

    // What a clerk is warned of a row.
    #[tactic(auto, unfolding(crate::specs::Rows::warnings_at))]
    fn warnings_at(
        &self,
        alloc: Global,
        standing: &Standing,
        held_back: &HeldBack,
        row: &[u8],
    ) -> Result<String, AllocError>
        ensures { (kept : List (List ℕ)) → StandsAt standing.now self.now.register kept → IfOk result (λ text. string_bytes text ≡ warnings_at standing.now held_back.now kept row.now) }
    {
        let _types: RowTypes = None;
        let (said, name) = self.said(alloc, standing, row)?;
        self.warnings_said(alloc, standing, held_back, &name, &said)
    }

    // What speaks against a row that is alone in its line.
    fn warned_at(
        &self,
        alloc: Global,
        standing: &Standing,
        held_back: &HeldBack,
        row: &[u8],
    ) -> Result<String, AllocError>
        ensures { (kept : List (List ℕ)) → StandsAt standing.now self.now.register kept → IfOk result (λ text. string_bytes text ≡ warned_at standing.now held_back.now kept row.now) }
    {
        match held_back {
            HeldBack::Nothing => Ok(String::new(alloc)),
            HeldBack::Warned(_) => self.warnings_at(alloc, standing, held_back, row),
        }
    }

    // What speaks against one of several rows that says this.
    fn against_said(
        &self,
        alloc: Global,
        standing: &Standing,
        held_back: &HeldBack,
        name: &Option<CaseName>,
        said: &Line,
    ) -> Result<String, AllocError>
        ensures { (kept : List (List ℕ)) → StandsAt standing.now self.now.register kept → IfOk result (λ text. string_bytes text ≡ against_said standing.now held_back.now kept name.now (within kept said.now)) }
    {
        let _types: RowTypes = None;
        match said {
            Line::Blank => Ok(String::new(alloc)),
            Line::Fault(cause) => fault_against(alloc, *cause),
            Line::Row(row) => {
                if is_answered(self.register.has_room(), &row.work) {
                    self.warnings_said(alloc, standing, held_back, name, said)
                } else {
                    fault_against(alloc, RowCause::TooManyRows)
                }
            }
        }
    }

    // What speaks against one of several rows.
    #[tactic(auto, unfolding(crate::specs::Rows::against_row))]
    fn against_row(
        &self,
        alloc: Global,
        standing: &Standing,
        held_back: &HeldBack,
        row: &[u8],
    ) -> Result<String, AllocError>
        ensures { (kept : List (List ℕ)) → StandsAt standing.now self.now.register kept → IfOk result (λ text. string_bytes text ≡ against_row standing.now held_back.now kept row.now) }
    {
        let _types: RowTypes = None;
        let is_passed = labels_new(alloc, standing, row)?;
        if is_passed {
            return Ok(String::new(alloc));
        }
        let (said, name) = self.said(alloc, standing, row)?;
        self.against_said(alloc, standing, held_back, &name, &said)
    }

    // What speaks against one of the rows of a line, which are several or not.
    fn against_one(
        &self,
        alloc: Global,
        standing: &Standing,
        held_back: &HeldBack,
        several: bool,
        row: &[u8],
    ) -> Result<String, AllocError>
        ensures { (kept : List (List ℕ)) → StandsAt standing.now self.now.register kept → IfOk result (λ text. string_bytes text ≡ against_one standing.now held_back.now kept several row.now) }
    {
        if several {
            self.against_row(alloc, standing, held_back, row)
        } else {
            self.warned_at(alloc, standing, held_back, row)
        }
    }

    // What speaks against these rows of a line, whose rows are several or not.
    fn against_each(
        &self,
        alloc: Global,
        standing: &Standing,
        held_back: &HeldBack,
        several: bool,
        rows: &[&[u8]],
    ) -> Result<String, AllocError>
        ensures { (kept : List (List ℕ)) → StandsAt standing.now self.now.register kept → IfOk result (λ text. string_bytes text ≡ flat_map (against_one standing.now held_back.now kept several) (row_texts rows.now)) }
    {
        let mut text = String::new(alloc);
        for row in rows {
            let against = self.against_one(alloc, standing, held_back, several, row)?;
            text.push_str(against.as_str())?;
        }
        Ok(text)
    }

    /// What speaks against the rows of a line.
    pub(crate) fn against_rows(
        &self,
        alloc: Global,
        standing: &Standing,
        held_back: &HeldBack,
        rows: &[&[u8]],
    ) -> Result<String, AllocError>
        ensures { (kept : List (List ℕ)) → StandsAt standing.now self.now.register kept → IfOk result (λ text. string_bytes text ≡ against_rows standing.now held_back.now kept (row_texts rows.now)) }
    {
        let several = are_several(rows);
        self.against_each(alloc, standing, held_back, several, rows)
    }
}
