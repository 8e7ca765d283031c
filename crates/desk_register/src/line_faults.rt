//! What is wrong with the lines of an input, which is found before any of them is kept.
ghost use Rattle.std.specs.Prelude.{◌≡◌, ◌++◌, ◌∷◌, [], ℕ, List, length, map, IfOk, OnOk};
ghost use Rattle.row_forms.specs.Words.{names_of};
ghost use Rattle.row_forms.specs.Line.Words.{line_read};
ghost use Rattle.desk_session.specs.Words.{numbered_lines, unmarked_lines};
ghost use Rattle.desk_register.specs.Entries.{most_clerks};
ghost use Rattle.desk_register.specs.LineFaults.{CountsAs, fault_as, fault_in, faults_of, left_before, read_before};
ghost use Rattle.desk_register.specs.Rows.{too_many_at, within};

use crate::case_line::{note_case, opens_too_many};
use crate::cause::{LineCause, cause_as};
use crate::next_line::read_apart;
use crate::outcome::{has_room, within};
use crate::register::{DocketRegister, RowTypes};
use crate::standing::Standing;
use case_numbers::Cases;
use csv::StringRecord;
use desk_session::{number_after, split_line, unmarked};
use row_forms::Line;
use std::alloc::{AllocError, Global};

/// What is wrong with a line.
#[derive(Debug, Drop)]
pub struct LineFault {
    /// The line's number in its file, counted from 1.
    pub number: usize,
    /// What is wrong with it.
    pub cause: LineCause,
    /// The line, without its end.
    pub line: Vec<u8>,
}

// Lines that are read one after another.
#[derive(Drop)]
struct Reading {
    // The fields of the row that was read last.
    fields: StringRecord,
    // How many entries there would be.
    count: u32,
    // The cases that would be opened.
    cases: Cases,
    faults: Vec<LineFault>,
}

impl Reading {
    // Notes the fault of a line.
    fn note(
        &mut self,
        alloc: Global,
        number: usize,
        cause: LineCause,
        line: &[u8],
    ) -> Result<(), AllocError>
        ensures faults { OnOk result (map fault_in self.new.faults.items ≡ map fault_in self.old.faults.items ++ record { number = number; cause = cause; line = line.now } ∷ []) }
        ensures count { self.new.count ≡ self.old.count }
        ensures cases { self.new.cases ≡ self.old.cases }
        ensures fields { self.new.fields ≡ self.old.fields }
    {
        let line = Vec::from_slice(alloc, line)?;
        self.faults.push(LineFault {
            number,
            cause,
            line,
        })?;
        Ok(())
    }

    // Reads the line of that number.
    fn read(
        &mut self,
        alloc: Global,
        under: &Standing,
        number: usize,
        line: &[u8],
    ) -> Result<(), AllocError>
        ensures faults { (kept : List (List ℕ)) → CountsAs under.now kept self.old.count self.old.cases → OnOk result
            (map fault_in self.new.faults.items ≡ map fault_in self.old.faults.items ++ fault_as number line.now (too_many_at under.now kept line.now) (within kept (line_read most_clerks (names_of under.now.court) (read_before under.now kept line.now).text))) }
        ensures counts { (kept : List (List ℕ)) → CountsAs under.now kept self.old.count self.old.cases → OnOk result (CountsAs under.now (kept ++ left_before under.now kept line.now) self.new.count self.new.cases) }
    {
        let _types: RowTypes = None;
        let (said, name) = read_apart(alloc, &under.court, &self.cases, line, &mut self.fields)?;
        match within(said, self.count) {
            Line::Blank => Ok(()),
            Line::Fault(cause) => {
                let too_many = opens_too_many(alloc, &under.court, &self.cases, line)?;
                self.note(alloc, number, cause_as(too_many, cause), line)
            }
            Line::Row(row) => {
                if !has_room(self.count) {
                    return Ok(());
                }
                self.count += 1;
                note_case(alloc, &mut self.cases, &row.work, name)
            }
        }
    }
}

impl DocketRegister {
    ghost use Rattle.desk_register.specs.Register.{IsReadyAt};

    /// What is wrong with the lines of an input, if they come next. Where lines may be marked, one that begins with a '!' is read
    /// without it. `Err` says that memory ran out.
    pub fn line_faults(
        &self,
        alloc: Global,
        under: &Standing,
        marked: bool,
        input: &[u8],
    ) -> Result<Vec<LineFault>, AllocError>
        ensures { (kept : List (List ℕ)) → IsReadyAt under.now self.now kept → IfOk result (λ faults. map fault_in faults.items ≡ faults_of under.now kept (unmarked_lines marked (numbered_lines input.now))) }
    {
        let mut reading = Reading {
            fields: StringRecord::new(alloc),
            count: self.count,
            cases: self.cases.copy(alloc)?,
            faults: Vec::new(alloc),
        };
        let mut number = 1usize;
        let mut rest = input;
        while let Some(split) = split_line(rest) {
            reading.read(alloc, under, number, unmarked(marked, split.line))?;
            number = number_after(number, split.end);
            rest = split.rest;
        }
        Ok(reading.faults)
    }
}
