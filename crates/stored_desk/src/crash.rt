//! What a crash may leave of a file.
use crate::session::Device;
use anyhow::Result;
use sqlite_disk::Crash;
use std::alloc::Global;

/// A file at the moment of a crash: what was durable, and what a read gave.
#[derive(Drop)]
pub struct Crashed {
    pub durable: Vec<u8>,
    pub seen: Vec<u8>,
}

/// How the bytes are that a write may have torn: cut off, as they were, zeros, open latches, shut latches, or others than
/// were written.
#[derive(Clone, Copy, Debug)]
pub enum Fill {
    Cut,
    Old,
    Zeros,
    Open,
    Shut,
    Other,
}

/// All of them.
pub const FILLS: [Fill; 6] = [
    Fill::Cut,
    Fill::Old,
    Fill::Zeros,
    Fill::Open,
    Fill::Shut,
    Fill::Other,
];

/// Makes a disk crash.
pub fn crash_of(alloc: Global, disk: &mut Device) -> Result<Crashed> {
    let seen = Vec::from_slice(alloc, disk.inner().bytes())?;
    disk.crash();
    let durable = Vec::from_slice(alloc, disk.inner().bytes())?;
    Ok(Crashed { durable, seen })
}

impl Crashed {
    // The longer of its two files.
    fn longer(&self) -> &[u8] {
        if self.seen.len() < self.durable.len() {
            &self.durable
        } else {
            &self.seen
        }
    }

    /// How many bytes are certain at the file's beginning: both files begin with them.
    pub fn certain(&self) -> usize {
        let both = self.durable.iter().zip(self.seen.iter());
        both.take_while(|(old, new)| old == new).count()
    }

    /// How long it may be at the most.
    pub fn longest(&self) -> usize {
        self.longer().len()
    }

    /// The file with this number of bytes as they were written, and those after them as the fill says.
    pub fn left(&self, alloc: Global, written: usize, fill: Fill) -> Result<Vec<u8>> {
        let mut file = Vec::new(alloc);
        for (place, byte) in self.longer().iter().enumerate() {
            if place < written {
                file.push(*byte)?;
            } else if let Some(byte) = self.torn(place, *byte, fill) {
                file.push(byte)?;
            }
        }
        Ok(file)
    }

    // The byte at this place where a write was torn before it.
    fn torn(&self, place: usize, byte: u8, fill: Fill) -> Option<u8> {
        let old = self.durable.get(place).copied();
        if old == self.seen.get(place).copied() {
            return old;
        }
        match fill {
            Fill::Cut => {
                if place < self.durable.len().min(self.seen.len()) {
                    old
                } else {
                    None
                }
            }
            Fill::Old => Some(old.unwrap_or(0)),
            Fill::Zeros => Some(0),
            Fill::Open => Some(43),
            Fill::Shut => Some(45),
            Fill::Other => Some(byte ^ 255),
        }
    }
}
