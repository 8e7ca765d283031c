//! The text of a run, of one clerk or of several, as it is made.

use clerk_workers::SharedText;
use program_streams::{Gathered, MadeText, Watched};
use std::io::Write;

/// The text of a run.
#[derive(Drop)]
pub enum ClerkText {
    /// That of one clerk, whose bytes these are.
    One(Vec<u8>),
    /// That of several clerks.
    Several(SharedText),
}

impl MadeText for ClerkText {
    ghost use Rattle.clerk_program.specs.ClerkText.{bytes_of};

    ghost bytes = { bytes_of };

    fn hand_over<W: Write>(self, gathered: &mut Gathered, writer: &mut Watched<W>) {
        match self {
            ClerkText::One(bytes) => bytes.hand_over(gathered, writer),
            ClerkText::Several(text) => text.hand_over(gathered, writer),
        }
    }
}
