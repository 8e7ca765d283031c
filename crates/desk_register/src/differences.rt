//! Rows of entries that are answered otherwise than they were.
ghost use Rattle.std.specs.Prelude.{◌≡◌, ◌<◌, ◌++◌, ◌∷◌, [], ℕ, List, map, OnOk};
ghost use Rattle.desk_register.specs.Differences.{change_as, change_in};
ghost use Rattle.desk_register.specs.Entries.{most_entries, note_in};
ghost use Rattle.desk_register.specs.Register.{StandsAt, entries_taken};

use crate::entry::is_row;
use crate::register::DocketRegister;
use crate::standing::Standing;
use std::alloc::{AllocError, Global};

/// A row that would be answered otherwise.
#[derive(Debug, Drop)]
pub struct Difference {
    /// The row's number, counted from 1.
    pub number: u32,
    /// Its entry: the row and the answer that it was given, each with the end of its line.
    pub entry: Vec<u8>,
    /// The answer that it would get, with the ends of its lines.
    pub answer: Vec<u8>,
}

/// Decides the row of an entry again, if it is one that isn't struck, and adds it where it is answered otherwise. `Err` says that
/// memory ran out.
pub fn decide_entry(
    alloc: Global,
    under: &Standing,
    register: &mut DocketRegister,
    entry: &[u8],
    differences: &mut Vec<Difference>,
) -> Result<(), AllocError>
    requires room { entries_taken register.old < most_entries }
    ensures stands { (kept : List (List ℕ)) → StandsAt under.now register.old kept → OnOk result (StandsAt under.now register.new (kept ++ entry.now ∷ [])) }
    ensures changes { (kept : List (List ℕ)) → StandsAt under.now register.old kept → OnOk result
        (map change_in differences.new.items ≡ map change_in differences.old.items ++ change_as (note_in entry.now) under.now kept entry.now) }
{
    if !is_row(entry) {
        register.pass_note();
        return Ok(());
    }
    let number = register.number;
    if under.corrections.is_struck(number) {
        register.pass_struck(alloc, under, entry)?;
        return Ok(());
    }
    if let Some(answer) = register.review(alloc, under, entry)? {
        let entry = Vec::from_slice(alloc, entry)?;
        differences.push(Difference {
            number,
            entry,
            answer,
        })?;
    }
    Ok(())
}
