//! A strike, and the entry that says it.
ghost use Rattle.std.specs.Prelude.{◌≡◌, string_bytes, IfOk};
ghost use Rattle.desk_numbers.specs.Strikes.Strike.{strike_entry, strike_in, strike_line};

use crate::said::Said;
use crate::strikes::line::row_after;
use crate::strikes::said_text::entry_with;
use std::alloc::{AllocError, Global};

/// A row that is struck.
#[derive(Clone, Copy, Debug, PartialEq, Eq)]
pub struct Strike {
    /// The row's number, counted from 1.
    pub row: u32,
}

/// The strike that an entry is. `None` says that it is none.
#[tactic(auto, unfolding(crate::specs::Strikes::Strike::strike_in))]
pub fn strike_in(entry: &[u8]) -> Option<Strike>
    ensures { result ≡ strike_in entry.now }
{
    match row_after(b"%%strike ", entry) {
        Some(row) => Some(Strike { row }),
        None => None,
    }
}

/// The entry of a strike: its first line says what rows gave since the correction before it, each with a number below 2 to the 32,
/// and on the lines below is a remark of any text. `Err` says that memory ran out.
#[tactic(auto, unfolding(crate::specs::Strikes::Strike::strike_entry))]
pub fn strike_entry(
    alloc: Global,
    strike: &Strike,
    said: &[Said],
    remark: &[u8],
) -> Result<Vec<u8>, AllocError>
    ensures { IfOk result (λ entry. entry.items ≡ strike_entry strike.now said.now remark.now) }
{
    entry_with(alloc, strike_line(alloc, strike)?, said, remark)
}

// What its first line says first: the row.
fn strike_line(alloc: Global, strike: &Strike) -> Result<String, AllocError>
    ensures { IfOk result (λ line. string_bytes line ≡ strike_line strike.now) }
{
    let row = strike.row;
    format!(in alloc; "%%strike {row}")
}
