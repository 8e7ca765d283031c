//! The rule of what is published, and how readers take it.

ghost use Rattle.std.specs.Prelude.{◌≡◌, MatchResult};
ghost use Rattle.left_right.specs.Sides.{view};
ghost use Rattle.published_docket.specs.Published.{Sees};

use crate::board::Board;
use crate::change::BoardChange;
use crate::known::Known;
use atomic_table::{Join, Split};
use crossbeam_utils::rule::{Outcome, Protocol};
use left_right::reader::{Reader, Reading};
use left_right::writer::Writer;

/// What is published is the docket after its history, and goes on from all that was seen of it.
pub struct Growing;

impl Protocol<Board, Option<Known>> for Growing {
    ghost use Rattle.std.specs.Prelude.{None};
    ghost use Rattle.published_docket.specs.Published.{Published};

    ghost holds = { Published };

    ghost first = { None };
}

/// A reader takes what is published, or something is published. It goes on from all that was seen before, and all of it
/// is seen.
pub struct See;

impl Outcome<Board, Option<Known>> for See {
    ghost use Rattle.published_docket.specs.Published.{Sees};

    ghost then = { Sees };
}

// The publisher says what it knows, and still knows it.
pub(crate) struct Told;

impl Split<Option<Known>> for Told {
    ghost left = { λ known. known };

    ghost right = { λ known. known };
}

impl Join<Option<Known>> for Told {
    ghost use Rattle.std.specs.Prelude.{None};

    ghost both = { λ known told. told };

    ghost spent = { None };
}

/// Reads the published docket, and waits for nobody.
pub type DocketReader = Reader<Board, Option<Known>, Growing>;

/// A reader with what it took, which stays as it is until the reader leaves.
pub type DocketReading = Reading<Board, Option<Known>, Growing>;

/// Who publishes.
pub(crate) type DocketWriter = Writer<Board, BoardChange, Option<Known>, Growing>;

/// Takes what is published now. The reader comes back where nobody publishes any more.
pub fn enter(reader: DocketReader) -> Result<DocketReading, DocketReader>
    ensures { MatchResult result (λ r. Sees (view reader.place) r.part.value r.part.value (view r.place)) (λ r. view r.place ≡ view reader.place) }
{
    reader.enter_as::<See>()
}
