//! A reader that ends lines that are too long.
ghost use Rattle.std.specs.Prelude.{◌≡◌, ◌≤◌, length, take, option_map, option_to_list};
ghost use Rattle.desk_session.specs.ShortLines.{CutLinesAreNoText, LongLinesAreCut, ShortLinesAreShort, ShortLinesStay, ShortLinesStopNone, count_after, count_with, passed_on, short_from, short_lines, short_remaining};

use crate::gather::MAX_LINE;
use crate::lines::ends_line;
use std::io;
use std::io::Read;

// A byte that no text in UTF-8 has.
const NO_TEXT: u8 = 255;

/// A reader whose lines have at most 65,536 bytes. Of a line with more than 65,535 bytes the next one becomes 255, so that what
/// is left of the line is no text: its first bytes alone may read as a line that nobody wrote. The line gets an end in place of
/// the byte after that, as soon as it has come, and the rest of it is passed over, up to its own end and with it. A read fails
/// where one of the inner reader does, or where nothing comes that is passed on within 2^64 - 1 of them.
#[derive(Drop)]
pub struct ShortLines<R> {
    inner: R,
    // How many bytes of a line have come: 65,537 where it has been ended.
    count: usize,
}

impl<R: Read> ShortLines<R> {
    /// Shortens the lines of a reader from here on, where a line begins.
    pub fn new(inner: R) -> ShortLines<R>
        ensures { short_remaining R.remaining result ≡ option_map short_lines (R.remaining inner) }
    {
        ShortLines { inner, count: 0 }
    }
}

// Counts a byte, and says what is passed on of it.
#[tactic(auto, unfolding(crate::specs::ShortLines::most_line, crate::specs::ShortLines::most_whole))]
fn pass_on(count: &mut usize, byte: u8) -> Option<u8>
    ensures byte { option_to_list result ≡ passed_on count.old byte }
    ensures count { count.new ≡ count_with count.old byte }
{
    let before = *count;
    let ends = ends_line(byte);
    *count = if ends { 0 } else { before.min(MAX_LINE) + 1 };
    if before > MAX_LINE {
        None
    } else if before == MAX_LINE && !ends {
        Some(b'\n')
    } else if before == MAX_LINE - 1 && !ends {
        Some(NO_TEXT)
    } else {
        Some(byte)
    }
}

// Moves what is passed on of these bytes to their front, and says how many bytes that is.
fn shorten(count: &mut usize, bytes: &mut [u8]) -> usize
    ensures within { result ≤ length bytes.new }
    ensures bytes { take result bytes.new ≡ short_from count.old bytes.old }
    ensures count { count.new ≡ count_after count.old bytes.old }
{
    let mut kept = 0;
    for place in 0..bytes.len() {
        if let Some(byte) = pass_on(count, bytes[place]) {
            bytes[kept] = byte;
            kept += 1;
        }
    }
    kept
}

impl<R: Read> Read for ShortLines<R> {
    ghost use Rattle.desk_session.specs.ShortLines.{short_remaining};

    ghost remaining = { short_remaining R.remaining };

    // It reads again where nothing is passed on of what came, since a read of no bytes says that the input has ended.
    // A body that always failed would meet this contract: the trait doesn't say when a reader may fail.
    fn read(&mut self, buf: &mut [u8]) -> io::Result<usize> {
        'reads: for _ in 0..u64::MAX {
            let given = self.inner.read(buf)?;
            let kept = shorten(&mut self.count, &mut buf[..given]);
            if kept > 0 || given == 0 {
                return Ok(kept);
            }
        }
        Err(io::Error::from(io::ErrorKind::Other))
    }
}

/// A law, the contract of a function that does nothing: no line has more than 65,536 bytes, so no session ends for one.
pub fn short_lines_are_short()
    ensures short { ShortLinesAreShort }
    ensures stops_none { ShortLinesStopNone }
{}

/// A law, as above: bytes all of whose lines have at most 65,535 bytes stay as they are.
#[tactic(auto, using(crate::proofs::ShortLawLemmas::stay))]
pub fn short_lines_stay()
    ensures { ShortLinesStay }
{}

/// A law, as above: the lines are those of the bytes, in their order, each with more than 65,535 bytes without what comes after
/// them, and with the byte 255 in its place.
pub fn long_lines_are_cut()
    ensures { LongLinesAreCut }
{}

/// A law, as above: what is left of a line that is cut is no text in UTF-8.
#[tactic(auto, using(crate::proofs::ShortLawLemmas::no_text))]
pub fn cut_lines_are_no_text()
    ensures { CutLinesAreNoText }
{}
