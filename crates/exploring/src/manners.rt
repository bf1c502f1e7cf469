//! What is told of a command beside its reply.
#![tactic(auto)]

ghost use Rattle.std.specs.Prelude.{◌≡◌, IfOk};
ghost use Rattle.device.specs.Machine.{machine_of};
ghost use Rattle.exploring.specs.Commands.{IsExplored, IsManner, IsMannerOf, is_fault, is_launch, is_refused, is_wanted, with_told};
ghost use Rattle.exploring.specs.Lines.{has_shown};

use crate::facts::{Clock, ExploreEnd, ExploreOptions};
use crate::findings::Manner;
use crate::playing::findings_of;
use clmodel::setup::Range;
use clmodel::text::Name;
use device::{Command, Device, Refusal, Reply};
use std::alloc::{AllocError, Global};

/// Whether a command is a launch.
pub(crate) fn is_launch(command: &Command) -> bool
    ensures { result ≡ is_launch command.now }
{
    match command {
        Command::Launch { .. } => true,
        Command::Buffer { .. }
        | Command::Write { .. }
        | Command::Fill { .. }
        | Command::Copy { .. }
        | Command::Read { .. }
        | Command::Release { .. }
        | Command::Program { .. }
        | Command::Kernel { .. }
        | Command::Arg { .. } => false,
    }
}

/// Whether the launch of a number is wanted, by the one that is, or each.
fn is_wanted(wanted: Option<usize>, number: usize) -> bool
    ensures { result ≡ is_wanted wanted number }
{
    match wanted {
        Some(wanted) => wanted == number,
        None => true,
    }
}

/// What the orders of a launch show, on a device in front of it; nothing, where it is refused. An error is out of
/// memory.
fn explored<C: Clock>(
    alloc: Global,
    device: &Device,
    kernel: &Name,
    range: &Range,
    options: &ExploreOptions,
    clock: &mut C,
) -> Result<Manner, AllocError>
    ensures { IfOk result (IsExplored (machine_of device.now) kernel.now range.now) }
{
    let launch = match device.prepare(kernel, range) {
        Ok(launch) => launch,
        Err(Refusal::OutOfMemory) => return Err(AllocError),
        Err(_) => return Ok(Manner::Quiet),
    };
    let findings = findings_of(alloc, &launch, device.buffers(), options, clock)?;
    Ok(Manner::Explored(findings))
}

/// What is told of a launch, by whether it is wanted and has `orders`. An error is out of memory.
fn launch_manner<C: Clock>(
    alloc: Global,
    device: &Device,
    kernel: &Name,
    range: &Range,
    wanted: bool,
    orders: bool,
    options: &ExploreOptions,
    clock: &mut C,
) -> Result<Manner, AllocError>
    ensures { IfOk result (IsMannerOf (machine_of device.now) kernel.now range.now wanted orders) }
{
    if !wanted {
        return Ok(Manner::Quiet);
    }
    if !orders {
        return Ok(Manner::Unordered);
    }
    explored(alloc, device, kernel, range, options, clock)
}

/// What is told of a command, on a device in front of it, where a launch has this number. An error is out of memory.
pub(crate) fn manner_of<C: Clock>(
    alloc: Global,
    device: &Device,
    command: &Command,
    number: usize,
    options: &ExploreOptions,
    clock: &mut C,
) -> Result<Manner, AllocError>
    ensures { IfOk result (IsManner options.now.launch number (machine_of device.now) command.now) }
{
    match command {
        Command::Launch {
            kernel,
            range,
            orders,
        } => launch_manner(
            alloc,
            device,
            kernel,
            range,
            is_wanted(options.launch, number),
            *orders,
            options,
            clock,
        ),
        Command::Buffer { .. }
        | Command::Write { .. }
        | Command::Fill { .. }
        | Command::Copy { .. }
        | Command::Read { .. }
        | Command::Release { .. }
        | Command::Program { .. }
        | Command::Kernel { .. }
        | Command::Arg { .. } => Ok(Manner::Quiet),
    }
}

/// Whether a reply is a fault.
fn is_fault(reply: &Reply) -> bool
    ensures { result ≡ is_fault reply.now }
{
    matches!(reply, Reply::Fault { .. })
}

/// Whether a reply is a refusal.
fn is_refused(reply: &Reply) -> bool
    ensures { result ≡ is_refused reply.now }
{
    matches!(reply, Reply::Refused(_))
}

/// Whether an order has shown a fault.
fn has_shown(how: &Manner) -> bool
    ensures { result ≡ has_shown how.now }
{
    match how {
        Manner::Explored(findings) => findings.shown.is_some(),
        Manner::Quiet | Manner::Unordered => false,
    }
}

/// What a script came to, with one more command.
pub(crate) fn with_told(how: &Manner, reply: &Reply, end: ExploreEnd) -> ExploreEnd
    ensures { result ≡ with_told how.now reply.now end }
{
    let shown = has_shown(how);
    let faulted = is_fault(reply);
    let refused = is_refused(reply);
    ExploreEnd {
        missing: end.missing,
        faulted: end.faulted || shown || faulted,
        refused: end.refused || refused,
    }
}
