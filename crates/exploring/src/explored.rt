//! A script, and what other orders of its launches show.
#![tactic(auto)]

ghost use Rattle.std.specs.Prelude.{◌≡◌, ◌≤◌, ℕ, List, [], IfOk, IfErr, length};
ghost use Rattle.byte_io.specs.Sink.{Wrote};
ghost use Rattle.host_commands.specs.declared.command.Command.{Command as CommandOf};
ghost use Rattle.exploring.specs.Commands.{launch_count};
ghost use Rattle.exploring.specs.Explored.{IsExploredScript, IsMissing, IsToldOf, Unexplored, Untold, status_of};

use crate::counting::{is_among, launch_count, least};
use crate::facts::{Clock, ExploreEnd, ExploreOptions};
use crate::lines::write_missing;
use crate::walks::tell_commands;
use byte_io::Write;
use device::Command;
use simfile::faults::RunFault;
use simfile::script::{Script, read_script};
use std::alloc::Global;

/// Writes that the wanted launch isn't among so many, and answers that.
fn tell_missing<W: Write>(
    options: &ExploreOptions,
    count: usize,
    writer: &mut W,
) -> Result<ExploreEnd, RunFault>
    ensures told { (commands : List CommandOf) → count ≡ launch_count commands → IfOk result (λ end. (text : List ℕ) × IsMissing options.now commands end text × Wrote (W.sink writer.old) (W.sink writer.new) text) }
    ensures failed { (commands : List CommandOf) → count ≡ launch_count commands → IfErr result (Untold options.now commands (W.sink writer.old) (W.sink writer.new)) }
{
    write_missing(least(options.launch), count, writer)?;
    Ok(ExploreEnd {
        missing: true,
        faulted: false,
        refused: false,
    })
}

/// Writes what is told of commands.
fn tell_wanted<C: Clock, W: Write>(
    alloc: Global,
    options: &ExploreOptions,
    commands: Vec<Command>,
    clock: &mut C,
    writer: &mut W,
) -> Result<ExploreEnd, RunFault>
    requires { length commands.items ≤ 4096 }
    ensures told { IfOk result (λ end. (text : List ℕ) × IsToldOf options.now commands.items end text × Wrote (W.sink writer.old) (W.sink writer.new) text) }
    ensures failed { IfErr result (Untold options.now commands.items (W.sink writer.old) (W.sink writer.new)) }
{
    let count = launch_count(commands.as_slice());
    if is_among(least(options.launch), count) {
        tell_commands(alloc, options, commands, clock, writer)
    } else {
        tell_missing(options, count, writer)
    }
}

/// Explores the launches of a script, and writes what was found, each launch's lines as soon as they are known. Of a
/// text that is no script nothing is written. `OutOfMemory` comes where memory is refused to the reading, or to the
/// exploring of a launch: then what was told of the commands before it is written. A launch takes the time of its
/// orders and of its run, and memory for one order, beside the bytes of two.
pub fn explore<C: Clock, W: Write>(
    alloc: Global,
    options: ExploreOptions,
    script: &[u8],
    clock: &mut C,
    writer: &mut W,
) -> Result<ExploreEnd, RunFault>
    ensures explored { IfOk result (λ end. (text : List ℕ) × IsExploredScript options script.now end text × Wrote (W.sink writer.old) (W.sink writer.new) text × ((W.sink writer.new).held ≡ [])) }
    ensures failed { IfErr result (Unexplored options script.now (W.sink writer.old) (W.sink writer.new)) }
{
    let Script { commands, .. } = read_script(alloc, script)?;
    let end = tell_wanted(alloc, &options, commands, clock, writer)?;
    writer.flush()?;
    Ok(end)
}

/// The status of it: 2 where a command was refused, the wanted launch isn't there, or it failed; else 1 where a fault
/// was told; else 0.
pub fn status(outcome: &Result<ExploreEnd, RunFault>) -> u8
    ensures { result ≡ status_of outcome.now }
{
    match outcome {
        Ok(end) if !(end.refused || end.missing) => u8::from(end.faulted),
        _ => 2,
    }
}
