//! The rows of an input that is too large to be stored, entered at a desk over a disk in memory.

ghost use Rattle.std.specs.Prelude.{◌≡◌, false};
ghost use Rattle.program_streams.specs.Words.{has_failed};

use crate::clerk::{FirstClock, stamp};
use crate::lines::input_of;
use crate::stored::push_name;
use crate::sums::push_sum;
use desk_program::{Desk, DeskFault, ended_by, write_rows};
use program_runs::divide;
use program_streams::Watched;
use sqlite_disk::Memory;
use std::alloc::{AllocError, Global};

// No clause says what is written; what is stored to be written shows it.

/// Adds the line `%%%% NAME`, and then two sums: of what the desk answers to the rows of the input that the text stands for,
/// and of the court's file and the rows that the desk then writes. After a fault comes its line. `Err` says that memory ran out.
pub fn push_desk(
    alloc: Global,
    output: &mut Vec<u8>,
    name: &str,
    text: &str,
) -> Result<(), AllocError> {
    push_name(output, name)?;
    let input = input_of(alloc, text)?;
    let mut answers = Watched::new(Vec::new(alloc));
    let mut rows = Watched::new(Vec::new(alloc));
    let mut errors = Watched::new(Vec::new(alloc));
    if let Err(fault) = desk_run(alloc, &input, &mut answers, &mut rows) {
        let _status = ended_by(alloc, &mut errors, &fault);
    }
    push_sum(alloc, output, answers.inner().as_slice())?;
    push_sum(alloc, output, rows.inner().as_slice())?;
    output.extend_from_slice(errors.inner().as_slice())
}

// Enters the rows of an input at a desk of its court, and writes what the desk then has.
fn desk_run(
    alloc: Global,
    input: &[u8],
    answers: &mut Watched<Vec<u8>>,
    rows: &mut Watched<Vec<u8>>,
) -> Result<(), DeskFault>
    requires answers_work { has_failed answers.old ≡ false }
    requires rows_work { has_failed rows.old ≡ false }
{
    let (court, lines) = divide(input);
    let file = Vec::from_slice(alloc, court)?;
    let disk = match Desk::begin(alloc, Memory::new(alloc), file, stamp(alloc)?) {
        Ok(disk) => disk,
        Err((fault, _)) => return Err(DeskFault::Begin(fault)),
    };
    let disk = entered(alloc, disk, lines, answers)?;
    write_kept(alloc, disk, rows)
}

// The docket of a disk with all these rows.
fn entered(
    alloc: Global,
    disk: Memory,
    lines: &[u8],
    answers: &mut Watched<Vec<u8>>,
) -> Result<Memory, DeskFault>
    requires { has_failed answers.old ≡ false }
{
    let mut desk = match Desk::open(alloc, disk, stamp(alloc)?) {
        Ok((desk, _)) => desk,
        Err((fault, _)) => return Err(DeskFault::Open(fault)),
    };
    let mut reader = Watched::new(lines);
    let ended = desk.enter(alloc, &FirstClock, &mut reader, answers);
    let disk = desk.into_disk();
    match ended {
        Ok(_) => Ok(disk),
        Err(fault) => Err(DeskFault::Session(fault)),
    }
}

// Writes the court's file and the rows of a disk's docket.
fn write_kept(alloc: Global, disk: Memory, rows: &mut Watched<Vec<u8>>) -> Result<(), DeskFault>
    requires { has_failed rows.old ≡ false }
{
    match Desk::open(alloc, disk, stamp(alloc)?) {
        Ok((desk, entries)) => {
            Ok(write_rows(alloc, desk.standing(), desk.moved(), &entries, rows)?)
        }
        Err((fault, _)) => Err(DeskFault::Open(fault)),
    }
}
