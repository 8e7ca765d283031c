//! Bytes that are gathered before they are written, so that many short pieces take few writes.

ghost use Rattle.std.specs.Prelude.{◌≡◌, ◌++◌, [], IfOk, if◌then◌else◌};
ghost use Rattle.program_streams.specs.Gathered.{Adds};

use crate::output::write_all;
use crate::watched::Watched;
use std::alloc::{AllocError, Global};
use std::io::Write;
use std::marker::Model;

/// How many bytes are gathered at the most.
const ROOM: usize = 65_536;

/// Bytes of a text that wait to be written.
#[derive(Drop)]
pub struct Gathered {
    bytes: Vec<u8>,
}

impl Model for Gathered {
    ghost use Rattle.std.specs.Prelude.{ℕ, List};

    ghost Value = { List ℕ };

    ghost view = { λ g. g.bytes.items };
}

impl Gathered {
    /// None, with the room for those that will wait. `Err` says that memory ran out.
    pub fn new(alloc: Global) -> Result<Gathered, AllocError>
        ensures { IfOk result (λ gathered. gathered ≡ []) }
    {
        let bytes = Vec::with_capacity(alloc, ROOM)?;
        Ok(Gathered { bytes })
    }

    /// Hands over the next piece of a text. It waits where it finds room; else what waits is written, and then the piece.
    /// It takes no memory, and after a write has failed nothing is written.
    pub fn add<W: Write>(&mut self, writer: &mut Watched<W>, piece: &[u8])
        ensures { Adds W.contents writer.old self.old writer.new self.new piece.now }
    {
        if self.keep(piece) {
            return;
        }
        self.flush(writer);
        give(writer, piece);
    }

    // Whether the piece found room, where it waits then. A body that never finds room would meet this clause too: each piece
    // would be written at once, and only time would show it.
    fn keep(&mut self, piece: &[u8]) -> bool
        ensures { self.new ≡ (if result then self.old ++ piece.now else self.old) }
    {
        if ROOM.saturating_sub(self.bytes.len()) < piece.len() {
            return false;
        }
        self.bytes.extend_from_slice(piece).is_ok()
    }

    /// Writes what waits.
    pub(crate) fn flush<W: Write>(&mut self, writer: &mut Watched<W>)
        ensures given { Adds W.contents writer.old self.old writer.new self.new [] }
        ensures empty { self.new ≡ [] }
    {
        give(writer, self.bytes.as_slice());
        self.bytes.clear();
    }
}

// Writes these bytes, unless a write has failed. The writer keeps whether one fails.
fn give<W: Write>(writer: &mut Watched<W>, bytes: &[u8])
    ensures { Adds W.contents writer.old bytes.now writer.new [] [] }
{
    if !writer.failed() {
        let _answer = write_all(writer, bytes);
    }
}
