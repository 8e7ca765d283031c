//! What rows that stand call cases, deadlines and motions.
ghost use Rattle.std.specs.Prelude.{◌≡◌, ℕ, List, IfOk, OnOk, is_some};
ghost use Rattle.csv.specs.Records.{fields_of};
ghost use Rattle.docket_rows.specs.declared.command.Command.TheVariants as commands;
ghost use Rattle.docket_rows.specs.Words.{CourtSetup, Rows, parts_of, refusal, setup_of};
ghost use Rattle.row_forms.specs.declared.row.Work.TheVariants as works;
ghost use Rattle.office_texts.specs.Run.Words.{Holds};
ghost use Rattle.desk_numbers.specs.Words.{calls};
ghost use Rattle.desk_register.specs.declared.standing.Standing.{Standing as StandingOf};
ghost use Rattle.desk_register.specs.Called.{called_standing, is_refused, newly_called, unless_refused, with_newly};
ghost use Rattle.desk_register.specs.Run.{docketed_by, run_by};

use crate::register::DocketRegister;
use csv::StringRecord;
use desk_numbers::{Called, CalledTexts, MovedNumbers};
use docket_core::Docket;
use docket_rows::{Command, Fact};
use row_forms::{Row, Work, column};
use std::alloc::{AllocError, Global};

// What a fact of that case calls something, whose row has these fields, if it does.
fn called_by(
    alloc: Global,
    case: u32,
    fact: &Fact,
    fields: &StringRecord,
) -> Result<Option<Called>, AllocError>
    ensures { IfOk result (λ called. called ≡ calls (works.Command (commands.Fact case fact.now)) (fields_of fields.now)) }
{
    match *fact {
        Fact::Titled => {
            let text = String::from_str(alloc, column(fields, 4))?;
            Ok(Some(Called::new(case, None, text)))
        }
        Fact::Labelled { counted, number } => {
            let text = String::from_str(alloc, column(fields, 6))?;
            Ok(Some(Called::new(case, Some((counted, number)), text)))
        }
        _ => Ok(None),
    }
}

// What a row that asks for this and has these fields calls something, if it does.
fn called_in(
    alloc: Global,
    asked: &Work,
    fields: &StringRecord,
) -> Result<Option<Called>, AllocError>
    ensures { IfOk result (λ called. called ≡ calls asked.now (fields_of fields.now)) }
{
    match asked {
        Work::Command(Command::Fact { case, fact }) => called_by(alloc, *case, fact, fields),
        _ => Ok(None),
    }
}

// Whether the docket refuses a command that comes next.
fn is_command_refused(alloc: Global, docket: &Docket, command: &Command) -> Result<bool, AllocError>
    ensures { (setup : CourtSetup) (docketed : Rows) → Holds setup docket.now docketed → IfOk result (λ no. no ≡ is_some (refusal setup (parts_of docketed) command.now)) }
{
    let refusal = docket.refusal(alloc, command)?;
    Ok(refusal.is_some())
}

// Whether the docket refuses a row that comes next and asks for this, in which things are named by their places.
fn is_refused(alloc: Global, docket: &Docket, asked: &Work) -> Result<bool, AllocError>
    ensures { (setup : CourtSetup) (docketed : Rows) → Holds setup docket.now docketed → IfOk result (λ no. no ≡ is_refused setup docketed asked.now) }
{
    match asked {
        Work::Command(command) => is_command_refused(alloc, docket, command),
        Work::Query(_) => Ok(false),
    }
}

// What is so called by a row that comes next and asks for this, in which things are named by their places, unless it is refused.
fn unless_refused(
    alloc: Global,
    docket: &Docket,
    asked: &Work,
    called: Option<Called>,
) -> Result<Option<Called>, AllocError>
    ensures { (setup : CourtSetup) (docketed : Rows) → Holds setup docket.now docketed → IfOk result (λ newly. newly ≡ unless_refused setup docketed asked.now called) }
{
    let Some(called) = called else {
        return Ok(None);
    };
    if is_refused(alloc, docket, asked)? {
        return Ok(None);
    }
    Ok(Some(called))
}

// What a row that comes next, asks for this and has these fields calls something, if it does and isn't refused.
pub(crate) fn newly_called(
    alloc: Global,
    docket: &Docket,
    moved: &MovedNumbers,
    asked: &Work,
    fields: &StringRecord,
) -> Result<Option<Called>, AllocError>
    ensures { (setup : CourtSetup) (docketed : Rows) → Holds setup docket.now docketed → IfOk result (λ newly. newly ≡ newly_called setup docketed moved.now asked.now (fields_of fields.now)) }
{
    let called = called_in(alloc, asked, fields)?;
    unless_refused(alloc, docket, &moved.place(asked), called)
}

// Adds what a row calls something, if it does.
pub(crate) fn add_newly(
    alloc: Global,
    texts: &mut CalledTexts,
    newly: Option<Called>,
) -> Result<(), AllocError>
    ensures { OnOk result (texts.new ≡ with_newly texts.old newly) }
{
    match newly {
        Some(called) => texts.add(alloc, called),
        None => Ok(()),
    }
}

impl DocketRegister {
    ghost use Rattle.desk_register.specs.Register.{StandsAt};

    // What the row that comes next calls something, if it does and isn't refused.
    pub(crate) fn newly(&self, alloc: Global, row: &Row) -> Result<Option<Called>, AllocError>
        ensures { (under : StandingOf) (kept : List (List ℕ)) → StandsAt under self.now kept → IfOk result (λ newly. newly ≡ newly_called (setup_of under.court) (docketed_by under kept) (run_by under kept).numbers.moved row.now.work (fields_of self.now.fields)) }
    {
        let moved = self.numbers.moved();
        newly_called(alloc, &self.docket, moved, &row.work, &self.fields)
    }

    /// What rows call cases, deadlines and motions, by the numbers that these have for the office.
    pub fn called(&self) -> &CalledTexts
        ensures { (under : StandingOf) (kept : List (List ℕ)) → StandsAt under self.now kept → result.now ≡ called_standing under kept }
    {
        &self.called
    }

    /// The same, where the register isn't needed any more.
    pub fn into_called(self) -> CalledTexts
        ensures { (under : StandingOf) (kept : List (List ℕ)) → StandsAt under self kept → result ≡ called_standing under kept }
    {
        self.called
    }
}
