//! Runs of an office, where no whole run shows them: readers that give their bytes in pieces or without end, and reads and writes
//! that fail.

use super::sample_court::file;
use clerk_program::run_office;
use program_main::Options;
use program_runs::{OfficeFault, fault_line, status_of};
use program_streams::Watched;
use std::alloc::{AllocError, Global};
use std::io;
use std::io::{Read, Write};
use std::process::Abort;
use std::sync::Wait;
use std::test::Fail;
use std::thread::Threads;

const ROW: &str = "1,compute,28d/after/filing/event/plain,2025-08-04,,,\n";

const TEXT: &str = "1 1 last 2025-09-02\njudge Ames\njudge Brandt\n";

// The rows of four clerks, and the text of their run, the same in whatever order they come.
const ROWS_OF_FOUR: &str = "1,open,1,2025-03-03\n2,sheet,5\n3,open,3,2025-03-10\n\
    4,compute,28d/after/filing/event/plain,2025-08-04,,,\n";

const TEXT_OF_FOUR: &str = "1 1 opened\n2 2 refused 1 NoSuchCase\n3 3 opened\n4 4 last 2025-09-02\n\
    case 1 filed 2025-03-03\ncase 3 filed 2025-03-10\njudge Ames\njudge Brandt\n";

// A reader that gives its bytes in pieces, and may fail instead of giving one.
#[derive(Drop)]
struct Pieces<'a> {
    bytes: &'a [u8],
    most: usize,
    reads_left: u64,
}

impl Read for Pieces<'_> {
    fn read(&mut self, buf: &mut [u8]) -> io::Result<usize> {
        if self.reads_left == 0 {
            return Err(io::Error::from(io::ErrorKind::Other));
        }
        self.reads_left -= 1;
        let count = self.most.min(self.bytes.len()).min(buf.len());
        let (piece, rest) = self.bytes.split_at(count);
        buf[..count].copy_from_slice(piece);
        self.bytes = rest;
        Ok(count)
    }
}

// A reader that gives a number of line ends at a time, and never ends.
#[derive(Drop)]
struct Endless {
    most: usize,
}

impl Read for Endless {
    fn read(&mut self, buf: &mut [u8]) -> io::Result<usize> {
        let count = self.most.min(buf.len());
        buf[..count].fill(b'\n');
        Ok(count)
    }
}

// A writer that takes a few bytes at a time, and fails once it is full.
#[derive(Drop)]
pub(super) struct Page {
    pub text: Vec<u8>,
    most: usize,
    room: usize,
}

impl Write for Page {
    fn write(&mut self, buf: &[u8]) -> io::Result<usize> {
        let count = self.most.min(self.room).min(buf.len());
        if count == 0 && !buf.is_empty() {
            return Err(io::Error::from(io::ErrorKind::Other));
        }
        self.text.extend_from_slice(&buf[..count])?;
        self.room -= count;
        Ok(count)
    }

    fn flush(&mut self) -> io::Result<()> {
        Ok(())
    }
}

// Rows of the sample court, and blank lines up to a number of bytes.
fn input_of(alloc: Global, rows: &str, bytes: usize) -> Result<String, AllocError> {
    let mut input = format!(in alloc; "{}%%\n{rows}", file())?;
    for _ in input.len()..bytes {
        input.push('\n')?;
    }
    Ok(input)
}

// A run of these clerks, each of whose reads gives at most this number of bytes, and whose reads fail after this number of
// them; its writer, and whether its input ended.
fn run<H: Threads + Wait + Sync>(
    rt: &H,
    alloc: Global,
    clerks: u8,
    input: &str,
    most: usize,
    reads_left: u64,
    page: Page,
) -> Result<(Result<(), OfficeFault>, Watched<Page>, bool), Fail> {
    let bytes = input.as_bytes();
    let mut reader = Watched::new(Pieces {
        bytes,
        most,
        reads_left,
    });
    let mut writer = Watched::new(page);
    let options = Options::new(clerks, 100_000).ok_or("options")?;
    let result = run_office(rt, alloc, &mut reader, &mut writer, options);
    Ok((result, writer, reader.ended()))
}

pub(super) fn make_page(alloc: Global, most: usize, room: usize) -> Page {
    let text = Vec::new(alloc);
    Page { text, most, room }
}

#[test]
fn takes_two_megabytes_in_any_pieces(rt: HostRuntime) -> Result<(), Fail> {
    let alloc = rt.alloc();
    let input = input_of(alloc, ROW, 2_000_000)?;
    for (clerks, most, at_once) in [(1, 1, 1), (4, 7, 3)] {
        let page = make_page(alloc, at_once, usize::MAX);
        let (result, writer, ended) = run(
            &rt,
            alloc,
            clerks,
            input.as_str(),
            most,
            u64::MAX,
            page,
        )?;
        result?;
        assert!(rt; ended && !writer.failed());
        assert_eq!(rt; writer.inner().text.as_slice(), TEXT.as_bytes());
    }
    Ok(())
}

// Lets each read fail of a run of these clerks with these rows.
fn fail_each_read<H: Threads + Wait + Sync + Abort>(
    rt: &H,
    alloc: Global,
    clerks: u8,
    rows: &str,
) -> Result<(), Fail> {
    let input = input_of(alloc, rows, 0)?;
    // With 7 bytes a read, this many reads come before the one that tells of the end.
    for reads_left in 0..=(input.len() as u64).div_ceil(7) {
        let page = make_page(alloc, 1, usize::MAX);
        let (result, writer, ended) = run(rt, alloc, clerks, input.as_str(), 7, reads_left, page)?;
        let fault = result.err().ok_or("no fault")?;
        assert_eq!(rt; fault_line(alloc, &fault)?.as_str(), "read fault");
        assert_eq!(rt; status_of(&fault), 4);
        assert!(rt; !ended && writer.inner().text.is_empty());
    }
    Ok(())
}

#[test]
fn stops_at_each_read_that_fails(rt: HostRuntime) -> Result<(), Fail> {
    fail_each_read(&rt, rt.alloc(), 1, ROW)?;
    fail_each_read(&rt, rt.alloc(), 4, ROWS_OF_FOUR)
}

#[test]
fn stops_where_the_input_never_ends(rt: HostRuntime) -> Result<(), Fail> {
    let alloc = rt.alloc();
    for (clerks, most) in [(1, usize::MAX), (4, 1)] {
        let mut reader = Watched::new(Endless { most });
        let mut writer = Watched::new(Vec::new(alloc));
        let options = Options::new(clerks, 100_000).ok_or("options")?;
        let result = run_office(&rt, alloc, &mut reader, &mut writer, options);
        let fault = result.err().ok_or("no fault")?;
        assert_eq!(rt; fault_line(alloc, &fault)?.as_str(), "read fault");
        assert!(rt; !reader.ended() && writer.inner().is_empty());
    }
    Ok(())
}

// Lets a write fail, after this number of bytes of that text, of a run of these clerks with these rows.
fn fail_a_write<H: Threads + Wait + Sync + Abort>(
    rt: &H,
    alloc: Global,
    clerks: u8,
    rows: &str,
    text: &str,
    room: usize,
) -> Result<(), Fail> {
    let input = input_of(alloc, rows, 0)?;
    let taken = text.as_bytes().get(..room).ok_or("room")?;
    for most in [1, 100] {
        let page = make_page(alloc, most, room);
        let (result, writer, _ended) = run(rt, alloc, clerks, input.as_str(), 100, u64::MAX, page)?;
        let fault = result.err().ok_or("no fault")?;
        assert_eq!(rt; fault_line(alloc, &fault)?.as_str(), "write fault");
        assert_eq!(rt; status_of(&fault), 4);
        assert!(rt; writer.failed());
        assert_eq!(rt; writer.inner().text.as_slice(), taken);
    }
    Ok(())
}

#[test]
fn leaves_the_beginning_that_a_failing_writer_took(rt: HostRuntime) -> Result<(), Fail> {
    for room in 0..TEXT.len() {
        fail_a_write(&rt, rt.alloc(), 1, ROW, TEXT, room)?;
    }
    for room in [0, 1, 100, TEXT_OF_FOUR.len() - 1] {
        fail_a_write(&rt, rt.alloc(), 4, ROWS_OF_FOUR, TEXT_OF_FOUR, room)?;
    }
    Ok(())
}
