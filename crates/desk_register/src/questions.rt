//! A docket of which only questions are asked.
ghost use Rattle.std.specs.Prelude.{◌≡◌, ◌++◌, ℕ, List, OnOk};
ghost use Rattle.desk_register.specs.Questions.{command_text};

use crate::cause::push_cause;
use crate::register::{DocketRegister, RowTypes};
use crate::standing::Standing;
use desk_session::{Outcome, Register};
use row_forms::{Line, Work};
use std::alloc::{AllocError, Global};

/// A court's docket of which only questions are asked: no line leaves an entry, so a question is answered however full the journal
/// is. A command is answered with a line that says where to enter it.
#[derive(Drop)]
pub struct Questions {
    /// The docket.
    pub register: DocketRegister,
}

// Adds the line that tells that a row is a command.
fn push_command(alloc: Global, text: &mut Vec<u8>, number: u32) -> Result<(), AllocError>
    ensures { OnOk result (text.new.items ≡ text.old.items ++ command_text number) }
{
    let line = format!(in alloc; "row {number} is a command: enter it with 'docket enter'\n")?;
    text.extend_from_slice(line.as_bytes())
}

impl Register for Questions {
    type Setup = Standing;

    ghost use Rattle.std.specs.Prelude.{[]};
    ghost use Rattle.desk_register.specs.Questions.{AsksOf, came_shown, shown};

    ghost stands = { λ under questions kept. AsksOf under questions kept };

    ghost leaves = { λ under kept line. [] };

    ghost answers = { λ under kept line. shown under kept line };

    ghost outcome = { λ under kept line. came_shown under kept line };

    fn take(
        &mut self,
        under: &Standing,
        alloc: Global,
        line: &[u8],
        _batch: &mut Vec<Vec<u8>>,
        text: &mut Vec<u8>,
    ) -> Result<Outcome, AllocError> {
        let _types: RowTypes = None;
        let (said, _) = self.register.heard(alloc, under, line)?;
        match said {
            Line::Blank => Ok(Outcome::Blank),
            Line::Fault(cause) => {
                let cause = self.register.cause_of(alloc, under, line, cause)?;
                push_cause(alloc, text, self.register.next_number(), line, cause)?;
                Ok(Outcome::Fault)
            }
            Line::Row(row) => match &row.work {
                Work::Command(_) => {
                    push_command(alloc, text, self.register.next_number())?;
                    Ok(Outcome::Taken)
                }
                Work::Query(_) => {
                    self.register.show(alloc, under, &row, text)?;
                    Ok(Outcome::Taken)
                }
            },
        }
    }
}
