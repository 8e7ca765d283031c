//! One run whose input is too large to be stored.

use crate::lines::input_of;
use crate::stored::{push_fault, push_name};
use crate::sums::push_sum;
use clerk_program::run_office;
use program_main::Options;
use program_runs::OfficeFault;
use program_streams::Watched;
use std::alloc::{AllocError, Global};
use std::sync::Wait;
use std::thread::Threads;

/// Adds the line `%%%% NAME`, and then a line with the sum of what a run of the office with these options writes for
/// the input that the text stands for, or the line of the fault with which it ends. `Err` says that memory ran out.
pub fn push_made<H: Threads + Wait + Sync>(
    rt: &H,
    alloc: Global,
    output: &mut Vec<u8>,
    name: &str,
    options: Options,
    text: &str,
) -> Result<(), AllocError> {
    push_name(output, name)?;
    let input = input_of(alloc, text)?;
    let mut reader = Watched::new(input.as_slice());
    let mut writer = Watched::new(Vec::new(alloc));
    match run_office(rt, alloc, &mut reader, &mut writer, options) {
        Ok(()) => push_sum(alloc, output, writer.inner().as_slice()),
        Err(OfficeFault::OutOfMemory) => Err(AllocError),
        Err(fault) => push_fault(alloc, output, &fault),
    }
}
