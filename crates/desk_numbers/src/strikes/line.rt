//! The first line of an entry by which a row is struck or restored, and its remark.
ghost use Rattle.std.specs.Prelude.{◌≡◌, option_map};
ghost use Rattle.desk_numbers.specs.Strikes.Line.{after_mark, remark_in, row_after, row_named};

use crate::strikes::words::{cut, number_of};

/// The remark of such an entry: what comes after its first line.
#[tactic(auto, unfolding(crate::specs::Strikes::Line::remark_in))]
pub fn remark_in(entry: &[u8]) -> &[u8]
    ensures { result.now ≡ remark_in entry.now }
{
    cut(entry, b'\n').1
}

// The row that an entry names whose first line begins with this mark.
#[tactic(auto, unfolding(crate::specs::Strikes::Line::row_after))]
pub(crate) fn row_after(mark: &[u8], entry: &[u8]) -> Option<u32>
    ensures { result ≡ row_after mark.now entry.now }
{
    match after_mark(mark, entry) {
        Some(rest) => row_named(cut(rest, b'\n').0),
        None => None,
    }
}

// What comes after the mark, where a text begins with it.
fn after_mark<'a>(mark: &[u8], text: &'a [u8]) -> Option<&'a [u8]>
    ensures { option_map (λ rest. rest.now) result ≡ after_mark mark.now text.now }
{
    text.strip_prefix(mark)
}

// The row that the first line names after its mark.
#[tactic(auto, unfolding(crate::specs::Strikes::Line::row_named))]
fn row_named(line: &[u8]) -> Option<u32>
    ensures { result ≡ row_named line.now }
{
    number_of(cut(line, b' ').0)
}
