//! The keys of a court's file, as a text writes them.

use court_file_text::Key;

/// The keys, in the order in which they are read.
const ALL: [Key; 10] = [
    Key::Zone,
    Key::Opens,
    Key::Closes,
    Key::From,
    Key::To,
    Key::Federal,
    Key::State,
    Key::Judges,
    Key::Rooms,
    Key::EfilingUntil,
];

/// The key that the bytes write, with or without quotes and blanks around it.
pub fn key_of(written: &[u8]) -> Option<Key> {
    let name = bare(written);
    ALL.iter()
        .copied()
        .find(|key| key.name().as_bytes() == name)
}

/// The bytes without the brackets, the quotes and the blanks around them.
fn bare(written: &[u8]) -> &[u8] {
    let first = written.iter().position(|byte| !is_wrapping(*byte));
    let last = written.iter().rposition(|byte| !is_wrapping(*byte));
    match (first, last) {
        (Some(first), Some(last)) => match written.get(first..=last) {
            Some(inner) => inner,
            None => &[],
        },
        _ => &[],
    }
}

/// Whether the byte may be around a key.
fn is_wrapping(byte: u8) -> bool {
    byte == b' '
        || byte == b'\t'
        || byte == b'\r'
        || byte == b'"'
        || byte == b'\''
        || byte == b'['
        || byte == b']'
}
