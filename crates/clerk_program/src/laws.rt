//! What the definition of the text means.

ghost use Rattle.clerk_program.specs.UniqueText.{TextsAreUnique};

use court_clock::texts_name_clocks;

/// All texts that a run of one clerk may write for one input are equal, however many entries the journal takes. The
/// court's file names its zone, and the text can't differ between values of that zone, by the law of `court_clock` that
/// they are one clock.
pub fn texts_are_unique()
    ensures { TextsAreUnique }
{
    texts_name_clocks();
}
