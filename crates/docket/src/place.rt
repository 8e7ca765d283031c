//! Which file a name leads to.
use std::fs::{self, File, Metadata};
use std::io;
use std::os::unix::fs::MetadataExt;

/// A file, as the system tells it from all others: by its device, and by its number there.
#[derive(Clone, Copy, Debug, PartialEq, Eq)]
pub struct Place {
    device: u64,
    number: u64,
}

// The place of a file of which this is known.
fn place_by(found: &Metadata) -> Place {
    Place {
        device: found.dev(),
        number: found.ino(),
    }
}

/// The file to which a name leads, through links.
pub fn place_of(rt: &HostRuntime, name: &str) -> io::Result<Place> {
    Ok(place_by(&fs::metadata(rt, name)?))
}

// The file that is open.
fn place_in(file: &File) -> io::Result<Place> {
    Ok(place_by(&file.metadata()?))
}

/// Whether a name leads to another file than this, or to none.
pub fn is_replaced(rt: &HostRuntime, name: &str, place: Place) -> bool {
    match place_of(rt, name) {
        Ok(now) => now != place,
        Err(_) => true,
    }
}

/// Whether a file that is open is the one at its name.
pub fn is_at(rt: &HostRuntime, name: &str, file: &File) -> bool {
    match place_in(file) {
        Ok(place) => !is_replaced(rt, name, place),
        Err(_) => false,
    }
}
