//! The text of a run, of one clerk or of several.

ghost use Rattle.std.specs.Prelude.{All, IfOk};
ghost use Rattle.row_forms.specs.Words.{IsOfClerk};
ghost use Rattle.clerk_program.specs.ClerkText.{bytes_of};
ghost use Rattle.clerk_program.specs.Text.{IsTextBy};

use crate::clerk_text::ClerkText;
use clerk_workers::{Gate, run_shared};
use office_texts::run_text;
use program_main::Options;
use program_runs::CheckedInput;
use std::alloc::{AllocError, Global};
use std::sync::Wait;
use std::thread::Threads;

// The text of the run of these rows in this court, by one clerk or by several.
pub(crate) fn text_of<H: Threads + Wait + Sync, G: Gate>(
    rt: &H,
    alloc: Global,
    checked: CheckedInput,
    options: Options,
    gate: &G,
) -> Result<ClerkText, AllocError>
    requires { All (IsOfClerk options.clerks) checked.rows.items }
    ensures { IfOk result (λ text. IsTextBy options.clerks options.journal checked.court checked.rows.items (bytes_of text)) }
{
    let CheckedInput { court, rows } = checked;
    let Options { clerks, journal } = options;
    if clerks == 1 {
        let text = run_text(alloc, &court, &rows)?;
        return Ok(ClerkText::One(text.into_bytes()));
    }
    let text = run_shared(rt, alloc, court, clerks, journal, rows, gate)?;
    Ok(ClerkText::Several(text))
}
