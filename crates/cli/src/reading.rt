//! What a command reads: the bytes of a reader, and a script.
#![tactic(auto)]

ghost use Rattle.std.specs.Prelude.{IfOk, IfErr};
ghost use Rattle.byte_io.specs.Source.{Are};
ghost use Rattle.cli.specs.Reading.{ReadFails, ReadsScript, ScriptFails};

use byte_io::Read;
use host_commands::command::Command;
use simfile::faults::{Reader, RunFault, read_fault};
use simfile::script::{Script, read_script};
use std::alloc::Global;

/// All that a reader has left.
pub fn bytes_of<R: Read>(alloc: Global, reader: &mut R, named: Reader) -> Result<Vec<u8>, RunFault>
    ensures read { IfOk result (λ bytes. Are (R.rest reader.old) bytes.items) }
    ensures failed { IfErr result (ReadFails named (R.failures reader.old) (R.failures reader.new)) }
{
    match reader.read_all(alloc) {
        Ok(bytes) => Ok(bytes),
        Err(fault) => Err(read_fault(named, fault)),
    }
}

/// Reads a script.
pub fn commands_of<R: Read>(alloc: Global, reader: &mut R) -> Result<Vec<Command>, RunFault>
    ensures read { IfOk result (λ commands. ReadsScript (R.rest reader.old) commands.items) }
    ensures failed { IfErr result (ScriptFails (R.rest reader.old) (R.failures reader.old) (R.failures reader.new)) }
{
    let bytes = bytes_of(alloc, reader, Reader::First)?;
    let script = read_script(alloc, bytes.as_slice())?;
    let Script {
        commands,
        places: _,
    } = script;
    Ok(commands)
}
