//! The sheets and calendars at the end of a run.

ghost use Rattle.std.specs.Prelude.{◌≡◌, IfOk, IfSome, string_bytes};
ghost use Rattle.docket_rows.specs.Words.{setup_of, parts_of};
ghost use Rattle.shared_docket.specs.Words.{rows_of};
ghost use Rattle.published_docket.specs.Words.{IsShown};
ghost use Rattle.office_texts.specs.Run.Words.{closing_text};

use crate::shared::last_docket::LastDocket;
use clerk_seats::Journal;
use court_days::Court;
use office_texts::{Closing, push_closing};
use published_docket::Board;
use std::alloc::{AllocError, Global};

/// The sheets and the calendars of the docket after the journal. They are written of the docket that was published last;
/// where there is none, the commands of the journal are given to a docket once more. `Err` says that memory ran out.
pub(crate) fn closing_of(
    alloc: Global,
    court: &Court,
    journal: &Journal,
    board: Option<Box<Board>>,
) -> Result<String, AllocError>
    requires { IfSome board (λ b. IsShown b.value × (b.value.parts ≡ setup_of court.now) × (b.value.trail.log ≡ journal.now)) }
    ensures { IfOk result (λ text. string_bytes text ≡ closing_text court.now (parts_of (rows_of (setup_of court.now) journal.now))) }
{
    match board {
        Some(board) => closing_by(alloc, court, &LastDocket::new(board)),
        None => closing_by(alloc, court, &journal.docket(alloc, court)?),
    }
}

/// The sheets and the calendars of a docket. `Err` says that memory ran out.
fn closing_by<D: Closing>(alloc: Global, court: &Court, docket: &D) -> Result<String, AllocError>
    requires { D.setup docket.now ≡ setup_of court.now }
    ensures { IfOk result (λ text. string_bytes text ≡ closing_text court.now (D.parts docket.now)) }
{
    let mut text = String::new(alloc);
    push_closing(alloc, &mut text, court, docket)?;
    Ok(text)
}
