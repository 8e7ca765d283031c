//! Entries to which the register comes: the row of one is decided again or passed over, and what is no row is passed over.
ghost use Rattle.std.specs.Prelude.{◌≡◌, ◌<◌, ◌+◌, ◌++◌, ◌∷◌, [], ℕ, false, List, length, None, IfOk, IsSome, MatchOption, OnOk};
ghost use Rattle.csv.specs.Records.{fields_of};
ghost use Rattle.row_forms.specs.Words.{names_of};
ghost use Rattle.row_forms.specs.declared.row.Row.{Row as RowOf};
ghost use Rattle.row_forms.specs.Line.Words.{fields_read, line_read};
ghost use Rattle.row_forms.specs.declared.line.line.Line.TheVariants as says;
ghost use Rattle.case_numbers.specs.Words.{after_name, name_before};
ghost use Rattle.desk_numbers.specs.Strikes.Words.{is_struck};
ghost use Rattle.desk_numbers.specs.Words.{passed};
ghost use Rattle.desk_register.specs.Cases.{opened_in, with_opened};
ghost use Rattle.desk_register.specs.Differences.{IsOtherwise};
ghost use Rattle.desk_register.specs.Entries.{most_clerks, most_entries, note_in};
ghost use Rattle.desk_register.specs.declared.standing.Standing.{Standing as StandingOf};
ghost use Rattle.desk_register.specs.Rows.{follows};

use crate::case_line::note_case;
use crate::cause::{LineCause, push_cause};
use crate::register::{DocketRegister, Done, MOST_CLERKS, RowTypes};
use crate::standing::Standing;
use case_numbers::{after_name, name_before};
use row_forms::{Line, read_line};
use std::alloc::{AllocError, Global};

impl DocketRegister {
    ghost use Rattle.desk_register.specs.Register.{StandsAt, entries_taken, number_of_next};

    // What a plain line says, whose fields are kept where it says a row.
    fn said(&mut self, alloc: Global, under: &Standing, line: &[u8]) -> Result<Line, AllocError>
        ensures said { IfOk result (λ said. said ≡ line_read most_clerks (names_of under.now.court) line.now) }
        ensures fields { IfOk result (λ said. (row : RowOf) → said ≡ says.Row row → fields_of self.new.fields ≡ fields_read line.now) }
        ensures cases { self.new.cases ≡ self.old.cases }
        ensures docket { self.new.docket ≡ self.old.docket }
        ensures called { self.new.called ≡ self.old.called }
        ensures numbers { self.new.numbers ≡ self.old.numbers }
        ensures count { self.new.count ≡ self.old.count }
        ensures number { self.new.number ≡ self.old.number }
    {
        read_line(alloc, line, MOST_CLERKS, &under.court, &mut self.fields)
    }

    /// Passes over an entry that is no row.
    pub fn pass_note(&mut self)
        ensures { (under : StandingOf) (kept : List (List ℕ)) (entry : List ℕ) → StandsAt under self.old kept → length kept < most_entries → IsSome (note_in entry) → StandsAt under self.new (kept ++ entry ∷ []) }
    {
        self.count = self.count.saturating_add(1);
    }

    // Passes over an entry that says no row of this court: the row keeps its number.
    fn pass_row(&mut self, under: &Standing) -> Result<(), AllocError>
        requires { self.old.count < most_entries }
        ensures docket { self.new.docket ≡ self.old.docket }
        ensures called { self.new.called ≡ self.old.called }
        ensures numbers { OnOk result (self.new.numbers ≡ passed under.now.corrections.kept self.old.numbers self.old.number) }
        ensures cases { self.new.cases ≡ self.old.cases }
        ensures count { OnOk result (self.new.count ≡ self.old.count + 1) }
        ensures number { OnOk result (self.new.number ≡ self.old.number + 1) }
    {
        self.numbers.pass(under.corrections.kept(), self.number)?;
        self.count += 1;
        self.number += 1;
        Ok(())
    }

    // Passes over an entry whose row is struck: the row keeps its number, and the case that it opened its number and its name.
    pub(crate) fn pass_struck(
        &mut self,
        alloc: Global,
        under: &Standing,
        entry: &[u8],
    ) -> Result<(), AllocError>
        requires { self.old.count < most_entries }
        ensures docket { self.new.docket ≡ self.old.docket }
        ensures called { self.new.called ≡ self.old.called }
        ensures numbers { OnOk result (self.new.numbers ≡ passed under.now.corrections.kept self.old.numbers self.old.number) }
        ensures cases { OnOk result (self.new.cases ≡ with_opened self.old.cases (opened_in (line_read most_clerks (names_of under.now.court) (after_name entry.now))) (name_before entry.now)) }
        ensures count { OnOk result (self.new.count ≡ self.old.count + 1) }
        ensures number { OnOk result (self.new.number ≡ self.old.number + 1) }
    {
        let _types: RowTypes = None;
        let name = name_before(alloc, entry)?;
        match self.said(alloc, under, after_name(entry))? {
            Line::Row(row) => note_case(alloc, &mut self.cases, &row.work, name)?,
            Line::Fault(_) | Line::Blank => {}
        }
        self.pass_row(under)
    }

    /// Decides the row of an entry again. `None` says that it has the answer that it gets; else this is the one that it gets.
    /// `Err` says that memory ran out.
    pub fn review(
        &mut self,
        alloc: Global,
        under: &Standing,
        entry: &[u8],
    ) -> Result<Option<Vec<u8>>, AllocError>
        requires room { entries_taken self.old < most_entries }
        requires stays { is_struck under.now.corrections (number_of_next self.old) ≡ false }
        ensures other { (kept : List (List ℕ)) → StandsAt under.now self.old kept → IfOk result (λ other.
            MatchOption other (follows under.now kept entry.now) (λ answer. IsOtherwise under.now kept entry.now answer.items)) }
        ensures stands { (kept : List (List ℕ)) → StandsAt under.now self.old kept → note_in entry.now ≡ None → OnOk result (StandsAt under.now self.new (kept ++ entry.now ∷ [])) }
        ensures count { OnOk result (entries_taken self.new ≡ entries_taken self.old + 1) }
    {
        let _types: RowTypes = None;
        let name = name_before(alloc, entry)?;
        match self.said(alloc, under, after_name(entry))? {
            Line::Row(row) => {
                let Done {
                    answer,
                    entry: again,
                    ..
                } = self.done(alloc, under, &row, name)?;
                if again.as_slice() == entry {
                    Ok(None)
                } else {
                    Ok(Some(answer.into_bytes()))
                }
            }
            Line::Fault(cause) => {
                let mut answer = Vec::new(alloc);
                let wrong = LineCause::Row(cause);
                push_cause(alloc, &mut answer, self.number, after_name(entry), wrong)?;
                self.pass_row(under)?;
                Ok(Some(answer))
            }
            Line::Blank => {
                self.pass_row(under)?;
                Ok(Some(Vec::new(alloc)))
            }
        }
    }
}
