//! A restore, and the entry that says it.
ghost use Rattle.std.specs.Prelude.{◌≡◌, string_bytes, IfOk};
ghost use Rattle.desk_numbers.specs.Strikes.Restore.{restore_entry, restore_in, restore_line};

use crate::said::Said;
use crate::strikes::line::row_after;
use crate::strikes::said_text::entry_with;
use std::alloc::{AllocError, Global};

/// A row that was struck, and is in its place again.
#[derive(Clone, Copy, Debug, PartialEq, Eq)]
pub struct Restore {
    /// The row's number, counted from 1.
    pub row: u32,
}

/// The restore that an entry is. `None` says that it is none.
#[tactic(auto, unfolding(crate::specs::Strikes::Restore::restore_in))]
pub fn restore_in(entry: &[u8]) -> Option<Restore>
    ensures { result ≡ restore_in entry.now }
{
    match row_after(b"%%restore ", entry) {
        Some(row) => Some(Restore { row }),
        None => None,
    }
}

/// The entry of a restore: its first line says what rows gave since the correction before it, each with a number below 2 to the 32,
/// and on the lines below is a remark of any text. `Err` says that memory ran out.
#[tactic(auto, unfolding(crate::specs::Strikes::Restore::restore_entry))]
pub fn restore_entry(
    alloc: Global,
    restore: &Restore,
    said: &[Said],
    remark: &[u8],
) -> Result<Vec<u8>, AllocError>
    ensures { IfOk result (λ entry. entry.items ≡ restore_entry restore.now said.now remark.now) }
{
    entry_with(alloc, restore_line(alloc, restore)?, said, remark)
}

// What its first line says first: the row.
fn restore_line(alloc: Global, restore: &Restore) -> Result<String, AllocError>
    ensures { IfOk result (λ line. string_bytes line ≡ restore_line restore.now) }
{
    let row = restore.row;
    format!(in alloc; "%%restore {row}")
}
