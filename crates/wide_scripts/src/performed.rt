//! The commands of a script, performed on a device, and what is noted of each.
#![tactic(auto)]

ghost use Rattle.std.specs.Prelude.{◌≡◌, [], IfOk, Decides};
ghost use Rattle.std.specs.Option.{MatchOption};
ghost use Rattle.item_step.specs.Launches.{code_of, setup_of};
ghost use Rattle.device.specs.Kept.{IsCodeOf};
ghost use Rattle.device.specs.Machine.{Machine, Answers, machine_of, opening};
ghost use Rattle.host_commands.specs.declared.command.Command.{Command as CommandOf};
ghost use Rattle.host_commands.specs.declared.command.Reply.TheVariants.{Done};
ghost use Rattle.wide_scripts.specs.Notes.{AreNoted, IsLaunchNote, IsNoted, IsOrderedNote};

use crate::laws::nothing_is_free;
use crate::note::Note;
use clmodel::setup::Range;
use clmodel::text::Name;
use device::{Command, Configuration, Device, Launch, Refusal, Reply};
use std::alloc::{AllocError, Global};
use wide_launches::{Wide, widen_launch};

/// A script's replies, and what is noted of each of its commands.
#[derive(Drop)]
pub(crate) struct Performed {
    pub(crate) replies: Vec<Reply>,
    pub(crate) notes: Vec<Note>,
}

/// Whether a refusal is for want of memory.
fn is_lack(refusal: &Refusal) -> bool
    ensures { Decides result (refusal.now ≡ Refusal.OutOfMemory) }
{
    matches!(refusal, Refusal::OutOfMemory)
}

/// Whether a reply is the refusal for want of memory.
fn lacked_memory(reply: &Reply) -> bool
    ensures { Decides result (reply.now ≡ Reply.Refused Refusal.OutOfMemory) }
{
    matches!(reply, Reply::Refused(Refusal::OutOfMemory))
}

/// What was found of a launch; where nothing was, nothing of it is free.
fn or_nothing(alloc: Global, found: Option<Wide>) -> Wide
    ensures { MatchOption found ((result.buffers.items ≡ []) × (result.arguments.items ≡ [])) (λ wide. result ≡ wide) }
{
    match found {
        Some(wide) => wide,
        None => Wide {
            buffers: Vec::new(alloc),
            arguments: Vec::new(alloc),
            decisions: Vec::new(alloc),
        },
    }
}

/// What is noted of a launch that may run. An error is out of memory.
fn launch_note(alloc: Global, launch: &Launch<'_>) -> Result<Note, AllocError>
    ensures { IfOk result (λ note. (m : Machine) → IsCodeOf (setup_of launch.now).program (setup_of launch.now).kernel (code_of launch.now) → IsLaunchNote m (setup_of launch.now) note) }
{
    nothing_is_free();
    let names = launch.buffer_names();
    let buffers = Name::copies(alloc, names)?;
    let uniform = launch.range().uniform;
    let found = widen_launch(alloc, launch.code(), names, launch.arguments(), uniform)?;
    let wide = or_nothing(alloc, found);
    Ok(Note::Launched { buffers, wide })
}

/// What is noted of a launch with `orders` that may run: nothing of it is free. An error is out of memory.
fn ordered_note(alloc: Global, launch: &Launch<'_>) -> Result<Note, AllocError>
    ensures { IfOk result (IsOrderedNote (setup_of launch.now)) }
{
    let buffers = Name::copies(alloc, launch.buffer_names())?;
    let wide = or_nothing(alloc, None);
    Ok(Note::Launched { buffers, wide })
}

/// What is noted of a launch of a kernel over a range, with `orders` or without: nothing, where it is refused. An error
/// is out of memory.
fn kernel_note(
    alloc: Global,
    device: &Device,
    kernel: &Name,
    range: &Range,
    orders: bool,
) -> Result<Note, AllocError>
    ensures { IfOk result (λ note. IsNoted (machine_of device.now) (Command.Launch kernel.now range.now orders) Done note) }
{
    match device.prepare(kernel, range) {
        Ok(launch) => {
            if orders {
                ordered_note(alloc, &launch)
            } else {
                launch_note(alloc, &launch)
            }
        }
        Err(refusal) => {
            if is_lack(&refusal) {
                return Err(AllocError);
            }
            Ok(Note::Other)
        }
    }
}

/// What is to be noted of a command, if it is done. An error is out of memory.
fn note_of(alloc: Global, device: &Device, command: &Command) -> Result<Note, AllocError>
    ensures { IfOk result (λ note. IsNoted (machine_of device.now) command.now Done note) }
{
    match command {
        Command::Buffer { name, .. } => Ok(Note::Made {
            buffer: name.copied(alloc)?,
        }),
        Command::Write { buffer, .. } | Command::Fill { buffer, .. } => Ok(Note::Put {
            buffer: buffer.copied(alloc)?,
        }),
        Command::Copy { source, target, .. } => Ok(Note::Copied {
            source: source.copied(alloc)?,
            target: target.copied(alloc)?,
        }),
        Command::Read { buffer, .. } => Ok(Note::Read {
            buffer: buffer.copied(alloc)?,
        }),
        Command::Launch {
            kernel,
            range,
            orders,
        } => kernel_note(alloc, device, kernel, range, *orders),
        Command::Release { .. }
        | Command::Program { .. }
        | Command::Kernel { .. }
        | Command::Arg { .. } => Ok(Note::Other),
    }
}

/// What is noted of a command that was answered: nothing of a buffer that wasn't made.
fn answered_note(note: Note, reply: &Reply) -> Note
    ensures { (m : Machine) (c : CommandOf) → IsNoted m c Done note → IsNoted m c reply.now result }
{
    match note {
        Note::Made { buffer } => match reply {
            Reply::Done => Note::Made { buffer },
            Reply::Data(_)
            | Reply::Clean
            | Reply::Ordered
            | Reply::Fault { .. }
            | Reply::Refused(_) => Note::Other,
        },
        Note::Other => Note::Other,
        Note::Put { buffer } => Note::Put { buffer },
        Note::Copied { source, target } => Note::Copied { source, target },
        Note::Read { buffer } => Note::Read { buffer },
        Note::Launched { buffers, wide } => Note::Launched { buffers, wide },
    }
}

/// Performs a command, with what is noted of it. An error is out of memory.
fn perform(
    alloc: Global,
    device: &mut Device,
    command: Command,
) -> Result<(Reply, Note), AllocError>
    ensures answers { IfOk result (λ both. Answers (machine_of device.old) command both.0 (machine_of device.new)) }
    ensures noted { IfOk result (λ both. IsNoted (machine_of device.old) command both.0 both.1) }
{
    let note = note_of(alloc, device, &command)?;
    let reply = device.apply(command);
    if lacked_memory(&reply) {
        return Err(AllocError);
    }
    let note = answered_note(note, &reply);
    Ok((reply, note))
}

/// Performs the commands of a script on a new device of this configuration. An error is out of memory.
pub(crate) fn perform_all(
    alloc: Global,
    configuration: Configuration,
    commands: Vec<Command>,
) -> Result<Performed, AllocError>
    ensures { IfOk result (λ performed. (new : Machine) × AreNoted (opening configuration) commands.items performed.replies.items performed.notes.items new) }
{
    let mut device = Device::new(alloc, configuration);
    let mut replies = Vec::new(alloc);
    let mut notes = Vec::new(alloc);
    for command in commands {
        let (reply, note) = perform(alloc, &mut device, command)?;
        replies.push(reply)?;
        notes.push(note)?;
    }
    Ok(Performed { replies, notes })
}
