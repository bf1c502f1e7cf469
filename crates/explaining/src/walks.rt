//! The commands of a script, performed up to what is to be explained.
#![tactic(auto)]

ghost use Rattle.std.specs.Prelude.{◌≡◌, ◌||◌, ◌+◌, [], ◌∷◌, ◌++◌, length, IfOk, IfSome, IfNone, OnOk, Decides, true};
ghost use Rattle.device.specs.Machine.{Step, machine_of, opening};
ghost use Rattle.explaining.specs.Leading.{HadMemory, IsNoted, Leads, WalkedTo, EndsAt, goes_on, is_done, is_end, is_ordered};

use crate::facts::ExplainOptions;
use clmodel::fault::Fault;
use clmodel::schedule::Schedule;
use device::{BuildFault, Command, Device, Refusal, Reply};
use std::alloc::{AllocError, Global};
use std::mem::drop;

/// A fault with a schedule, and the number of the launch's command.
#[derive(Drop)]
pub(crate) struct Case {
    pub ticket: usize,
    pub fault: Fault,
    pub schedule: Schedule,
}

/// A build that is refused: the number of its command, and the fault of its source.
#[derive(Clone, Copy)]
pub(crate) struct Unbuilt {
    pub ticket: usize,
    pub fault: BuildFault,
}

/// A command that is refused, and not for its source: its number, and the refusal.
#[derive(Clone, Copy)]
pub(crate) struct RefusedCase {
    pub ticket: usize,
    pub refusal: Refusal,
}

/// What a walk over commands came to.
#[derive(Drop)]
pub(crate) enum Walked {
    /// The last one, and no reply was a fault or a refusal; whether one was `ordered`
    Passed { ordered: bool },
    /// A launch's fault
    Faulted(Case),
    /// A build that is refused
    Unbuilt(Unbuilt),
    /// Another command that is refused
    Refused(RefusedCase),
}

impl Walked {
    /// Whether a command has a fault or is refused there.
    pub(crate) fn is_end(&self) -> bool
        ensures { result ≡ is_end self.now }
    {
        match self {
            Walked::Passed { .. } => false,
            Walked::Faulted(_) | Walked::Unbuilt(_) | Walked::Refused(_) => true,
        }
    }
}

/// What a walk came to, and of each command that was performed whether it was done.
#[derive(Drop)]
struct Walk {
    end: Walked,
    done: Vec<bool>,
}

/// A device on which commands were performed, and what a walk over them came to.
#[derive(Drop)]
pub(crate) struct Performed {
    pub device: Device,
    pub end: Walked,
    pub done: Vec<bool>,
}

/// Whether a reply is the refusal for want of memory.
fn lacked_memory(reply: &Reply) -> bool
    ensures { Decides result (reply.now ≡ Reply.Refused Refusal.OutOfMemory) }
{
    matches!(reply, Reply::Refused(Refusal::OutOfMemory))
}

/// Whether a command was done that has this reply, and not refused.
fn is_done(reply: &Reply) -> bool
    ensures { result ≡ is_done reply.now }
{
    !matches!(reply, Reply::Refused(_))
}

/// Whether `ordered` is among replies and one more.
pub(crate) fn ordered_by(ordered: bool, reply: &Reply) -> bool
    ensures { result ≡ (ordered || is_ordered reply.now) }
{
    ordered || matches!(reply, Reply::Ordered)
}

/// Performs a command, and notes whether it was done. An error is out of memory.
pub(crate) fn perform(
    device: &mut Device,
    command: Command,
    done: &mut Vec<bool>,
) -> Result<Reply, AllocError>
    ensures step { IfOk result (λ reply. Step (machine_of device.old) command reply (machine_of device.new)) }
    ensures memory { IfOk result HadMemory }
    ensures noted { IfOk result (λ reply. done.new.items ≡ done.old.items ++ is_done reply ∷ []) }
    ensures counted { OnOk result (length done.new.items ≡ length done.old.items + 1) }
{
    let reply = device.apply(command);
    if lacked_memory(&reply) {
        return Err(AllocError);
    }
    done.push(is_done(&reply))?;
    Ok(reply)
}

/// Performs commands, and notes of each whether it was done. An error is out of memory.
pub(crate) fn perform_all(
    alloc: Global,
    device: &mut Device,
    commands: Vec<Command>,
) -> Result<Vec<bool>, AllocError>
    ensures { IfOk result (λ done. Leads (machine_of device.old) commands.items (machine_of device.new) done.items) }
{
    let mut done = Vec::new(alloc);
    for command in commands {
        drop(perform(device, command, &mut done)?);
    }
    Ok(done)
}

/// What a reply to the command of a number comes to, if a walk ends there.
pub(crate) fn end_of(ticket: usize, reply: Reply) -> Option<Walked>
    ensures ends { IfSome result (EndsAt ticket reply) }
    ensures goes_on { IfNone result (goes_on reply ≡ true) }
{
    match reply {
        Reply::Fault { fault, schedule } => Some(Walked::Faulted(Case {
            ticket,
            fault,
            schedule,
        })),
        Reply::Refused(Refusal::BuildFailed(fault)) => {
            Some(Walked::Unbuilt(Unbuilt { ticket, fault }))
        }
        Reply::Refused(refusal) => Some(Walked::Refused(RefusedCase { ticket, refusal })),
        Reply::Done | Reply::Data(_) | Reply::Clean | Reply::Ordered => None,
    }
}

/// Performs commands up to the first launch that has a fault, or to the first command that is refused, and notes of
/// each whether it was done. Neither changes the device, so that it is then as before that command. An error is out of
/// memory.
fn walk_commands(
    alloc: Global,
    device: &mut Device,
    commands: Vec<Command>,
) -> Result<Walk, AllocError>
    ensures walked { IfOk result (λ walk. WalkedTo (machine_of device.old) commands.items (machine_of device.new) walk.end) }
    ensures noted { IfOk result (λ walk. IsNoted walk.end walk.done.items) }
{
    let mut done = Vec::new(alloc);
    let mut ordered = false;
    for command in commands {
        let ticket = done.len();
        let reply = perform(device, command, &mut done)?;
        ordered = ordered_by(ordered, &reply);
        if let Some(end) = end_of(ticket, reply) {
            return Ok(Walk { end, done });
        }
    }
    Ok(Walk {
        end: Walked::Passed { ordered },
        done,
    })
}

/// The same on a new device, made with the configuration that is wanted.
pub(crate) fn walk_anew(
    alloc: Global,
    options: ExplainOptions,
    commands: Vec<Command>,
) -> Result<Performed, AllocError>
    ensures walked { IfOk result (λ performed. WalkedTo (opening options.configuration) commands.items (machine_of performed.device) performed.end) }
    ensures noted { IfOk result (λ performed. IsNoted performed.end performed.done.items) }
{
    let mut device = Device::new(alloc, options.configuration);
    let Walk { end, done } = walk_commands(alloc, &mut device, commands)?;
    Ok(Performed { device, end, done })
}
