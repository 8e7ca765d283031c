//! What a row is answered.

ghost use Rattle.std.specs.Prelude.{◌≡◌, IfOk};
ghost use Rattle.docket_rows.specs.Words.{CourtSetup, Rows};
ghost use Rattle.office_texts.specs.Run.Replies.{Holds, docketed_then, reply_to};

use docket_core::Docket;
use docket_rows::{Answer, View};
use row_forms::Work;
use std::alloc::{AllocError, Global};

/// What a row is answered.
#[derive(Debug, Drop)]
pub enum Reply {
    /// The answer to a command.
    Made(Answer),
    /// What a query shows.
    Viewed(View),
}

/// Carries out what a row asks for, and answers it. `Err` says that memory ran out, and leaves the docket as it was.
pub fn reply_to(alloc: Global, docket: &mut Docket, work: &Work) -> Result<Reply, AllocError>
    ensures { (setup : CourtSetup) (docketed : Rows) → Holds setup docket.old docketed → IfOk result (λ r. (r ≡ reply_to setup docketed work.now) × Holds setup docket.new (docketed_then setup docketed work.now)) }
{
    match work {
        Work::Command(command) => Ok(Reply::Made(docket.apply(alloc, command)?)),
        Work::Query(query) => Ok(Reply::Viewed(docket.show(alloc, query)?)),
    }
}
