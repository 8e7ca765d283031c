//! A case, as a command changes it: a changed copy.

ghost use Rattle.std.specs.Prelude.{◌≡◌, IfOk, option_copied};
ghost use Rattle.docket_rows.specs.Words.{case_written};
ghost use Rattle.docket_core.specs.Inside.Changes.{CanChangeCase};

use docket_decisions::{Sight, case_of_command, change_case};
use docket_rows::{CaseRecord, Command};
use std::alloc::{AllocError, Global};

/// A copy of the case, if it is open.
fn copied(alloc: Global, case: Option<&CaseRecord>) -> Result<Option<CaseRecord>, AllocError>
    ensures { IfOk result (λ c. c ≡ option_copied case.entry) }
{
    match case {
        Some(case) => Ok(Some(case.copy(alloc)?)),
        None => Ok(None),
    }
}

/// The case of that number, where the command changes it.
pub(crate) fn case_written<S: Sight>(
    alloc: Global,
    sight: &S,
    command: &Command,
    number: u32,
) -> Result<Option<CaseRecord>, AllocError>
    requires { CanChangeCase (S.parts sight.now) command.now }
    ensures { IfOk result (λ c. c ≡ case_written (S.parts sight.now) command.now number) }
{
    let Some(case) = case_of_command(command) else {
        return Ok(None);
    };
    if case != number {
        return Ok(None);
    }
    let mut case = copied(alloc, sight.case(number))?;
    change_case(alloc, &mut case, command)?;
    Ok(case)
}
