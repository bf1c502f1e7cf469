//! A source that is checked, and the line that tells what was found.
#![tactic(auto)]

ghost use Rattle.std.specs.Prelude.{◌≡◌, [], IfOk, IfErr, OnOk};
ghost use Rattle.byte_io.specs.Sink.{Puts};
ghost use Rattle.simfile.specs.Lines.{check_line};
ghost use Rattle.cli.specs.Checking.{Checked, Unchecked, source_status_of};

use crate::reading::bytes_of;
use byte_io::{Read, Write, WriteFailed};
use host_commands::build::{NotBuilt, build};
use host_commands::command::BuildFault;
use limits::Limits;
use simfile::faults::{Reader, RunFault};
use simfile::replies::write_check;
use std::alloc::Global;

/// Writes the line of a check, and lets go of it.
pub(crate) fn tell<W: Write>(fault: Option<BuildFault>, writer: &mut W) -> Result<(), WriteFailed>
    ensures line { Puts (W.sink writer.old) result (W.sink writer.new) (check_line fault) }
    ensures released { OnOk result ((W.sink writer.new).held ≡ []) }
{
    write_check(fault, writer)?;
    writer.flush()
}

/// Reads a source and checks it within limits, as a program is built: `read`, then `check`. Writes `ok`, or the fault
/// with its number, name and place in the source, as a line. Answers whether the source builds.
///
/// No fault is a `BadLine`; after `Read` and `OutOfMemory` nothing was written, after `Write` a beginning of the line.
pub fn check_file<R: Read, W: Write>(
    alloc: Global,
    limits: Limits,
    reader: &mut R,
    writer: &mut W,
) -> Result<bool, RunFault>
    ensures checked { IfOk result (Checked limits (R.rest reader.old) (W.sink writer.old) (W.sink writer.new)) }
    ensures failed { IfErr result
        (Unchecked limits (R.rest reader.old) (R.failures reader.old) (R.failures reader.new) (W.sink writer.old) (W.sink writer.new)) }
{
    let source = bytes_of(alloc, reader, Reader::First)?;
    let fault = match build(alloc, limits, source.as_slice()) {
        Ok(_) => None,
        Err(NotBuilt::Fault(fault)) => Some(fault),
        Err(NotBuilt::OutOfMemory) => return Err(RunFault::OutOfMemory),
    };
    tell(fault, writer)?;
    Ok(fault.is_none())
}

/// The status of a check or a dump: 0 where the source builds, else 2.
pub fn source_status(outcome: &Result<bool, RunFault>) -> u8
    ensures { result ≡ source_status_of outcome.now }
{
    match outcome {
        Ok(true) => 0,
        _ => 2,
    }
}
