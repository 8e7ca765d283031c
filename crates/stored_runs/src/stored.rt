//! One stored run.

ghost use Rattle.std.specs.Prelude.{◌≡◌, ◌++◌, [], ◌∷◌, OnOk};
ghost use Rattle.program_runs.specs.Words.{fault_text};
ghost use Rattle.stored_runs.specs.Stored.{AppendsRun, name_line};

use clerk_program::run_office;
use program_main::Options;
use program_runs::{OfficeFault, fault_line};
use program_streams::Watched;
use std::alloc::{AllocError, Global};
use std::sync::Wait;
use std::thread::Threads;

/// Adds the line `%%%% NAME`, and then what a run of the office with these options writes for that input and, where it
/// ends with a fault, the fault's line. `Err` says that memory ran out.
pub fn push_run<H: Threads + Wait + Sync>(
    rt: &H,
    alloc: Global,
    output: &mut Vec<u8>,
    name: &str,
    options: Options,
    input: &[u8],
) -> Result<(), AllocError>
    ensures { OnOk result (AppendsRun options.clerks options.journal output.old.items output.new.items name.now input.now) }
{
    push_name(output, name)?;
    let mut reader = Watched::new(input);
    let mut writer = Watched::new(Vec::new(alloc));
    let answer = run_office(rt, alloc, &mut reader, &mut writer, options);
    output.extend_from_slice(writer.inner().as_slice())?;
    match answer {
        Ok(()) => Ok(()),
        Err(OfficeFault::OutOfMemory) => Err(AllocError),
        Err(fault) => push_fault(alloc, output, &fault),
    }
}

/// Adds the line with the run's name.
pub fn push_name(output: &mut Vec<u8>, name: &str) -> Result<(), AllocError>
    ensures { OnOk result (output.new.items ≡ output.old.items ++ name_line name.now) }
{
    output.extend_from_slice(b"%%%% ")?;
    output.extend_from_slice(name.as_bytes())?;
    output.extend_from_slice(b"\n")
}

/// Adds the fault's line.
pub fn push_fault(
    alloc: Global,
    output: &mut Vec<u8>,
    fault: &OfficeFault,
) -> Result<(), AllocError>
    ensures { OnOk result (output.new.items ≡ output.old.items ++ fault_text fault.now ++ 10 ∷ []) }
{
    let line = fault_line(alloc, fault)?;
    output.extend_from_slice(line.as_bytes())?;
    output.extend_from_slice(b"\n")
}
