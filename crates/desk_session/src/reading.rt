//! The lines that one read of an input ends, for who keeps the lines of one input in several sessions.
ghost use Rattle.std.specs.Prelude.{◌≡◌, ◌≢◌, ◌⊎◌, ◌<◌, ◌≤◌, [], ℕ, List, None, Ok, length, take, true, IfErr, IfOk, IfSome};
ghost use Rattle.program_streams.specs.Words.{has_failed, watched};
ghost use Rattle.desk_session.specs.Lines.{unfinished_from};
ghost use Rattle.desk_session.specs.Reading.{GivesLines, IsCutInLines};
ghost use Rattle.desk_session.specs.Served.{AfterBytes};

use crate::fault::SessionFault;
use crate::lines::ends_line;
use program_streams::Watched;
use std::alloc::{AllocError, Global};
use std::io::Read;
use std::mem;

// How many bytes come up to the end of the last line that has one, and with it.
fn ended_length(bytes: &[u8]) -> usize
    ensures within { result ≤ length bytes.now }
    ensures ended { 0 < result → (begun : List ℕ) → unfinished_from begun (take result bytes.now) ≡ [] }
{
    let mut count = bytes.len();
    while count > 0 {
        if ends_line(bytes[count - 1]) {
            return count;
        }
        count -= 1;
    }
    0
}

// The lines that bytes end, the first of which has begun; there may be none. What comes after the last end begins the next.
fn cut_lines(alloc: Global, begun: &mut Vec<u8>, bytes: &[u8]) -> Result<Vec<u8>, AllocError>
    ensures { IfOk result (λ lines. IsCutInLines begun.old.items bytes.now lines.items begun.new.items) }
{
    let (ended, rest) = bytes.split_at(ended_length(bytes));
    if ended.is_empty() {
        begun.extend_from_slice(rest)?;
        return Ok(Vec::new(alloc));
    }
    let next = Vec::from_slice(alloc, rest)?;
    begun.extend_from_slice(ended)?;
    Ok(mem::replace(begun, next))
}

// Nothing more comes: no line may have begun.
fn end_of_input(begun: &Vec<u8>) -> Result<Option<Vec<u8>>, SessionFault>
    ensures none { IfOk result (λ lines. (lines ≡ None) × (begun.now.items ≡ [])) }
    ensures fault { IfErr result (λ fault. (fault ≡ SessionFault.Unfinished) × (begun.now.items ≢ [])) }
{
    if begun.is_empty() {
        Ok(None)
    } else {
        Err(SessionFault::Unfinished)
    }
}

/// Reads once, and gives the lines that end with it, the first of which has begun; where none ends, what came goes on with that one.
/// `None` at the end of the input. `chunk` is room for what a read gives. At `Err` the input can't be read, its last line has no end, or
/// memory ran out.
pub fn read_lines<R: Read>(
    alloc: Global,
    reader: &mut Watched<R>,
    chunk: &mut [u8],
    begun: &mut Vec<u8>,
) -> Result<Option<Vec<u8>>, SessionFault>
    ensures lines { IfOk result (λ lines. AfterBytes (R.remaining (watched reader.old)) (R.remaining (watched reader.new)) (λ bytes. GivesLines begun.old.items bytes lines begun.new.items)) }
    ensures ended { 0 < length chunk.old → result ≡ Ok None → IfSome (R.remaining (watched reader.old)) (λ left. left ≡ []) }
    ensures fault { IfErr result (λ fault. ((fault ≡ SessionFault.Read) × (has_failed reader.new ≡ true)) ⊎ (((fault ≡ SessionFault.Unfinished) × (begun.old.items ≢ [])) ⊎ (fault ≡ SessionFault.OutOfMemory))) }
{
    match reader.read(chunk) {
        Err(_) => Err(SessionFault::Read),
        Ok(count) => {
            if count == 0 {
                return end_of_input(begun);
            }
            let lines = cut_lines(alloc, begun, &chunk[..count])?;
            Ok(Some(lines))
        }
    }
}
