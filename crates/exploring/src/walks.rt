//! The commands of a script, done and told one after another.
#![tactic(auto)]

ghost use Rattle.std.specs.Prelude.{◌≤◌, ℕ, List, IfOk, IfErr, length};
ghost use Rattle.byte_io.specs.Sink.{Wrote};
ghost use Rattle.device.specs.Machine.{machine_of};
ghost use Rattle.exploring.specs.Commands.{CommandUntold, TellsCommand};
ghost use Rattle.exploring.specs.Explored.{HasTold, Untold};

use crate::counting::{is_past, next};
use crate::facts::{Clock, ExploreEnd, ExploreOptions, Spot};
use crate::lines::tell;
use crate::manners::{is_launch, manner_of, with_told};
use byte_io::Write;
use device::{Command, Device};
use simfile::faults::RunFault;
use std::alloc::Global;

/// Does a command, and writes what is told of it and of its reply, without any of it held back. Answers what the script
/// came to with it.
fn tell_command<C: Clock, W: Write>(
    alloc: Global,
    device: &mut Device,
    options: &ExploreOptions,
    spot: Spot,
    command: Command,
    end: ExploreEnd,
    clock: &mut C,
    writer: &mut W,
) -> Result<ExploreEnd, RunFault>
    ensures told { IfOk result (λ after. (text : List ℕ) × TellsCommand options.now.launch spot (machine_of device.old) command (machine_of device.new) end after text × Wrote (W.sink writer.old) (W.sink writer.new) text) }
    ensures failed { IfErr result (CommandUntold options.now.launch spot (machine_of device.old) command end (W.sink writer.old) (W.sink writer.new)) }
{
    let launch = is_launch(&command);
    let how = manner_of(alloc, device, &command, spot.number, options, clock)?;
    let reply = device.apply(command);
    tell(spot, launch, &how, &reply, writer)?;
    Ok(with_told(&how, &reply, end))
}

/// Does commands on a new device, up to the wanted launch or to the last of them, and writes what is told of each.
pub(crate) fn tell_commands<C: Clock, W: Write>(
    alloc: Global,
    options: &ExploreOptions,
    commands: Vec<Command>,
    clock: &mut C,
    writer: &mut W,
) -> Result<ExploreEnd, RunFault>
    requires { length commands.items ≤ 4096 }
    ensures told { IfOk result (λ end. (text : List ℕ) × HasTold options.now commands.items end text × Wrote (W.sink writer.old) (W.sink writer.new) text) }
    ensures failed { IfErr result (Untold options.now commands.items (W.sink writer.old) (W.sink writer.new)) }
{
    let mut device = Device::new(alloc, options.configuration);
    let mut spot = Spot {
        ticket: 0,
        number: 1,
    };
    let mut end = ExploreEnd {
        missing: false,
        faulted: false,
        refused: false,
    };
    for command in commands {
        if is_past(options.launch, spot.number) {
            return Ok(end);
        }
        let launch = is_launch(&command);
        end = tell_command(
            alloc,
            &mut device,
            options,
            spot,
            command,
            end,
            clock,
            writer,
        )?;
        spot = next(spot, launch);
    }
    Ok(end)
}
