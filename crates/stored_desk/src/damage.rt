//! Each byte of a journal's file changed in turn.
use crate::expected::Expected;
use crate::files::are_first;
use crate::tally::Tally;
use anyhow::Result;
use desk_journal::{JournalFault, stamped_in};
use std::alloc::Global;

// A byte of a shut latch.
const SHUT: u8 = 45;

/// Changes each byte of a whole journal's file in turn, to that of a shut latch, and looks at what is read then. It must be a damaged
/// entry, or all entries: a latch of which one byte is changed still isn't shut.
pub fn check_damage(
    alloc: Global,
    expected: &Expected,
    file: &[u8],
    tally: &mut Tally,
) -> Result<()> {
    for (place, byte) in file.iter().enumerate() {
        if *byte != SHUT {
            let bytes = changed(alloc, file, place)?;
            check_read(alloc, expected, &bytes, place, tally)?;
        }
    }
    Ok(())
}

// The file with that byte at this place.
fn changed(alloc: Global, file: &[u8], at: usize) -> Result<Vec<u8>> {
    let mut bytes = Vec::new(alloc);
    for (place, byte) in file.iter().enumerate() {
        bytes.push(if place == at { SHUT } else { *byte })?;
    }
    Ok(bytes)
}

// Looks at what is read of a file whose byte at this place was changed.
fn check_read(
    alloc: Global,
    expected: &Expected,
    bytes: &[u8],
    place: usize,
    tally: &mut Tally,
) -> Result<()> {
    match stamped_in(alloc, bytes) {
        Err(JournalFault::Damaged(_)) => tally.count_found(),
        Err(fault) => return Err(fault.into()),
        Ok((entries, _stamps)) => {
            tally.count_harmless();
            if entries.len() != expected.entries.len() || !are_first(&expected.entries, &entries) {
                let text = format!(in alloc;
                    "other entries are read where byte {place} is changed"
                )?;
                tally.note(alloc, &text)?;
            }
        }
    }
    Ok(())
}
