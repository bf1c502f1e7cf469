//! A source of which a kernel's register code is written as text.
#![tactic(auto)]

ghost use Rattle.std.specs.Prelude.{IfOk, IfErr, OnOk};
ghost use Rattle.byte_io.specs.Sink.{Puts};
ghost use Rattle.clmodel.specs.Tree.{program};
ghost use Rattle.code_text.specs.Text.{text_of};
ghost use Rattle.cli.specs.Dumping.{CodeWritten, CodeUnwritten, Dumped, Undumped};

use crate::checking::tell;
use crate::reading::bytes_of;
use byte_io::{Read, Write, WriteFailed};
use cltypes::Checked;
use code_text::{DumpFault, dump};
use host_commands::build::{NotBuilt, build};
use limits::Limits;
use lower::{LowerFault, lower};
use regcode::Code;
use simfile::faults::{Reader, RunFault};
use std::alloc::Global;

/// Writes code as text.
fn write_code<W: Write>(code: &Code, writer: &mut W) -> Result<(), WriteFailed>
    ensures { Puts (W.sink writer.old) result (W.sink writer.new) (text_of code.now.instructions) }
{
    match dump(code, writer) {
        Ok(()) => Ok(()),
        Err(DumpFault::Write) => Err(WriteFailed),
    }
}

/// Writes the code of a program's kernel as text, and lets go of it.
fn tell_kernel<W: Write>(
    alloc: Global,
    checked: &Checked,
    kernel: &str,
    writer: &mut W,
) -> Result<(), RunFault>
    ensures told { OnOk result (CodeWritten (program checked.now.tree) kernel.now (W.sink writer.old) (W.sink writer.new)) }
    ensures untold { IfErr result (CodeUnwritten (program checked.now.tree) kernel.now (W.sink writer.old) (W.sink writer.new)) }
{
    let code = match lower(alloc, checked, kernel) {
        Ok(code) => code,
        Err(LowerFault::NoSuchKernel) => return Err(RunFault::NoSuchKernel),
        Err(LowerFault::OutOfMemory) => return Err(RunFault::OutOfMemory),
    };
    write_code(&code, writer)?;
    Ok(writer.flush()?)
}

/// Reads a source, builds it within limits, as a program is built, and writes the register code of a kernel, a line for
/// each instruction. Of a source that doesn't build it writes the line of `check_file`. Answers whether the source
/// builds.
///
/// No fault is a `BadLine`; after `Read`, `OutOfMemory` and `NoSuchKernel` nothing was written, after `Write` a
/// beginning of the text.
pub fn dump_file<R: Read, W: Write>(
    alloc: Global,
    limits: Limits,
    reader: &mut R,
    kernel: &str,
    writer: &mut W,
) -> Result<bool, RunFault>
    ensures dumped { IfOk result (Dumped limits (R.rest reader.old) kernel.now (W.sink writer.old) (W.sink writer.new)) }
    ensures failed { IfErr result
        (Undumped limits (R.rest reader.old) kernel.now (R.failures reader.old) (R.failures reader.new) (W.sink writer.old) (W.sink writer.new)) }
{
    let source = bytes_of(alloc, reader, Reader::First)?;
    match build(alloc, limits, source.as_slice()) {
        Ok(checked) => {
            tell_kernel(alloc, &checked, kernel, writer)?;
            Ok(true)
        }
        Err(NotBuilt::Fault(fault)) => {
            tell(Some(fault), writer)?;
            Ok(false)
        }
        Err(NotBuilt::OutOfMemory) => Err(RunFault::OutOfMemory),
    }
}
