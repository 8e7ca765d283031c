//! The cases of a docket, changed in place.

ghost use Rattle.std.specs.Prelude.{◌≡◌, true, None, set, get_or, IfSome, OnOk, OnErr};
ghost use Rattle.docket_rows.specs.Words.{case_after};
ghost use Rattle.docket_decisions.specs.Words.{CanChangeRecord, takes_memory};

use docket_decisions::change_case;
use docket_rows::{CaseRecord, Command};
use std::alloc::{AllocError, Global};

/// Opens or changes the case of that number as the command says. An error leaves the cases as they were.
pub(crate) fn change(
    alloc: Global,
    cases: &mut [Option<CaseRecord>],
    number: u32,
    command: &Command,
) -> Result<(), AllocError>
    requires { IfSome (get_or cases.old number None) (CanChangeRecord command.now) }
    ensures ok { OnOk result (cases.new ≡ set cases.old number (case_after command.now (get_or cases.old number None))) }
    ensures err { OnErr result (cases.new ≡ cases.old) }
    ensures memory { OnErr result (takes_memory None command.now ≡ true) }
{
    if number as usize >= cases.len() {
        return Ok(());
    }
    let case = &mut cases[number as usize];
    change_case(alloc, case, command)
}
