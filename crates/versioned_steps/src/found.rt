//! Looking up a part among the recent writes, and putting these to the older parts.
ghost use Rattle.std.specs.Prelude.{◌≡◌, ◌<◌, [], Some, OnOk, option_copied, if◌then◌else◌};
ghost use Rattle.std.specs.HashMap.{spare};
ghost use Rattle.std.specs.Map.{lookup};
ghost use Rattle.versioned_steps.specs.Stores.{found_in};

use crate::stored::{Stored, StoredParts};
use std::alloc::{AllocError, Allocator};
use std::hash::Hash;

/// The value written for a part.
pub(crate) fn value_written<T: Eq + Copy, V>(writes: &[(T, V)], part: T) -> Option<&V>
    ensures { option_copied result ≡ lookup (T.eq part) writes.now }
{
    for write in writes {
        if part == write.0 {
            return Some(&write.1);
        }
    }
    None
}

// Puts one write of this version into the stored_parts, which have room for it.
fn put<T: Eq + Hash + Copy, V: Drop, A: Allocator + Clone>(
    older: &mut StoredParts<T, V, A>,
    write: (T, V),
    version: u64,
)
    requires { 0 < spare older.old }
    ensures { (q : T) → lookup (T.eq q) older.new.entries ≡
        (if T.eq write.0 q then Some (record { version = version; value = write.1 }) else lookup (T.eq q) older.old.entries) }
{
    let (part, value) = write;
    match older.insert(part, Stored { version, value }) {
        Ok(before) => drop(before),
        Err(_) => unreachable!(),
    }
}

/// Puts the recent writes, which all have this version, among the older stored_parts. Every part is found as before, also
/// after an Err, which may leave some of the writes.
pub(crate) fn put_away<T: Eq + Hash + Copy, V: Drop, A: Allocator + Clone>(
    recent: &mut Vec<(T, V), A>,
    older: &mut StoredParts<T, V, A>,
    version: u64,
) -> Result<(), AllocError>
    ensures found { (q : T) → found_in (T.eq q) version recent.new.items older.new.entries ≡ found_in (T.eq q) version recent.old.items older.old.entries }
    ensures ok { OnOk result (recent.new.items ≡ []) }
{
    while !recent.is_empty() {
        older.reserve(1)?;
        if let Some(write) = recent.pop() {
            put(older, write, version);
        }
    }
    Ok(())
}
