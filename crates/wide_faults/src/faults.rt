//! Whether the faults of a script are in their kernels or in their data.
#![tactic(auto)]

ghost use Rattle.std.specs.Prelude.{◌≡◌, ◌++◌, List, ℕ, IsTrue, IfOk, IfErr, OnOk, Decides, false, true, not, ◌||◌, codes, string_bytes};
ghost use Rattle.clmodel.specs.Setup.{buffer_names};
ghost use Rattle.clmodel.specs.declared.fault.Fault.{Fault as FaultOf};
ghost use Rattle.clmodel.specs.declared.schedule.Schedule.{Schedule as ScheduleOf};
ghost use Rattle.item_step.specs.Launches.{code_of, setup_of};
ghost use Rattle.device.specs.Kept.{IsCodeOf};
ghost use Rattle.device.specs.Machine.{Machine, Answers, Launches, kernel_of, machine_of, opening, setup_of as setup_on};
ghost use Rattle.host_commands.specs.declared.command.Reply.TheVariants.{Fault, Refused};
ghost use Rattle.host_commands.specs.declared.command.Refusal.TheVariants.{OutOfMemory};
ghost use Rattle.simfile.specs.Faults.{NoScript};
ghost use Rattle.wide_sources.specs.Replies.{is_fault};
ghost use Rattle.wide_faults.specs.Faults.{AreAllFree, IsAside, IsDataLine, IsFaultAside, IsFaultAsides, IsFaultLine, IsInKernel, IsKernelLine, TellsFaults, are_free, command_words, goes_on, head_of, is_any, is_number, line_at, more_names, names_text, orders_line};

use crate::laws::faults_are_in_kernel;
use clmodel::setup::{Argument, Range};
use clmodel::text::Name;
use device::{Command, Configuration, Device, Launch, Refusal, Reply};
use placed_scripts::{PlacedScript, told_script};
use simfile::copies::copy_of;
use simfile::faults::RunFault;
use simfile::script::{CommandPlace, Script, read_script};
use std::alloc::{AllocError, Global};
use std::fmt::Write;
use wide_launches::{Wide, widen_launch};
use wide_sources::{
    Deciding, FreeArgument, LaunchSource, Sources, all_deciding, free_arguments, is_fault,
    is_refused, is_set, push_arguments, push_deciding, push_in_line,
};

/// Whether an argument is a number.
fn is_number(argument: &Option<Argument>) -> bool
    ensures { result ≡ is_number argument.now }
{
    match argument {
        Some(Argument::Value(_)) => true,
        Some(Argument::Buffer(_)) | Some(Argument::Local(_)) | None => false,
    }
}

/// Whether each buffer of a launch is free, by its place.
fn are_buffers_free(names: &[Name], free: &[bool]) -> bool
    ensures { IsTrue result → are_free is_any names.now free.now ≡ true }
{
    for number in 0..names.len() {
        if !is_set(free, number) {
            return false;
        }
    }
    true
}

/// Whether an argument is no number, or is free.
fn lets(argument: &Option<Argument>, free: bool) -> bool
    ensures { result ≡ (not (is_number argument.now) || free) }
{
    !is_number(argument) || free
}

/// Whether each number among the arguments of a launch is free, by its place.
fn are_numbers_free(arguments: &[Option<Argument>], free: &[bool]) -> bool
    ensures { IsTrue result → are_free is_number arguments.now free.now ≡ true }
{
    for index in 0..arguments.len() {
        if !lets(&arguments[index], is_set(free, index)) {
            return false;
        }
    }
    true
}

/// Whether all bytes and all numbers of a launch are free.
fn are_all_free(names: &[Name], arguments: &[Option<Argument>], wide: &Wide) -> bool
    ensures { IsTrue result → AreAllFree names.now arguments.now wide.now.buffers.items wide.now.arguments.items }
{
    are_buffers_free(names, wide.buffers.as_slice())
        && are_numbers_free(arguments, wide.arguments.as_slice())
}

/// Adds names, each behind a comma.
fn push_more(names: &[Name], out: &mut Vec<u8>) -> Result<(), AllocError>
    ensures { OnOk result (out.new.items ≡ out.old.items ++ more_names names.now) }
{
    for name in names {
        out.extend_from_slice(b", ")?;
        out.extend_from_slice(name.as_slice())?;
    }
    Ok(())
}

/// Adds the first name, behind its words.
fn push_first(name: &Name, out: &mut Vec<u8>) -> Result<(), AllocError>
    ensures { OnOk result (out.new.items ≡ out.old.items ++ (codes " for all bytes of " ++ name.now)) }
{
    out.extend_from_slice(b" for all bytes of ")?;
    out.extend_from_slice(name.as_slice())?;
    Ok(())
}

/// Adds the names of the buffers for all of whose bytes a fault is the same.
fn push_names(names: &[Name], out: &mut Vec<u8>) -> Result<(), AllocError>
    ensures { OnOk result (out.new.items ≡ out.old.items ++ names_text names.now) }
{
    match names {
        [] => Ok(()),
        [name, rest @ ..] => {
            push_first(name, out)?;
            push_more(rest, out)
        }
    }
}

/// The line of a fault that is in its kernel; the text is what stands behind its buffers. An error is out of memory.
fn kernel_line(alloc: Global, head: &str, names: &[Name], more: &str) -> Result<Vec<u8>, AllocError>
    ensures { IfOk result (λ text. IsKernelLine head.now names.now text.items) }
{
    let mut out = Vec::new(alloc);
    out.extend_from_slice(head.as_bytes())?;
    out.extend_from_slice(b"in the kernel: the same fault by the same schedule")?;
    push_names(names, &mut out)?;
    push_in_line(more.as_bytes(), &mut out)?;
    out.push(b'\n')?;
    Ok(out)
}

/// The line of a fault that may be in its data; the text is what stands behind these words. An error is out of memory.
fn data_line(alloc: Global, head: &str, more: &str) -> Result<Vec<u8>, AllocError>
    ensures { IfOk result (λ text. IsDataLine head.now text.items) }
{
    let mut out = Vec::new(alloc);
    out.extend_from_slice(head.as_bytes())?;
    out.extend_from_slice(b"in the data")?;
    push_in_line(more.as_bytes(), &mut out)?;
    out.push(b'\n')?;
    Ok(out)
}

/// For all numbers of which arguments a fault is the same, behind its buffers. An error is out of memory.
fn numbers_text(
    alloc: Global,
    names: &[Name],
    arguments: &[FreeArgument],
) -> Result<String, AllocError> {
    let mut out = String::new(alloc);
    let first = if names.is_empty() {
        " for all numbers of "
    } else {
        "; for all numbers of "
    };
    push_arguments(first, arguments, &mut out)?;
    if names.is_empty() && arguments.is_empty() {
        out.push_str("; it has no bytes and no numbers")?;
    }
    Ok(out)
}

/// What is told where nothing was found of a launch.
const NOT_FOUND: &str = " or in the kernel: nothing was found of its buffers and numbers";

/// What decides, and where, one behind another. An error is out of memory.
fn places_text(alloc: Global, all: &[Deciding]) -> Result<String, AllocError> {
    if all.is_empty() {
        return String::from_str(alloc, NOT_FOUND);
    }
    let mut out = String::new(alloc);
    let mut before = ": ";
    for deciding in all {
        out.push_str(before)?;
        push_deciding(deciding, &mut out)?;
        before = "; ";
    }
    Ok(out)
}

/// The line of a launch that faulted, of which this was found. An error is out of memory.
fn found_line(
    alloc: Global,
    head: &str,
    source: Option<&LaunchSource<'_>>,
    launch: &Launch<'_>,
    wide: &Wide,
) -> Result<Vec<u8>, AllocError>
    ensures { IfOk result (λ text. IsFaultLine (AreAllFree (buffer_names (setup_of launch.now)) (setup_of launch.now).arguments wide.now.buffers.items wide.now.arguments.items) head.now (buffer_names (setup_of launch.now)) text.items) }
{
    let names = launch.buffer_names();
    if are_all_free(names, launch.arguments(), wide) {
        let arguments = free_arguments(alloc, source, wide.arguments.as_slice())?;
        let more = numbers_text(alloc, names, arguments.as_slice())?;
        return kernel_line(alloc, head, names, more.as_str());
    }
    let deciding = all_deciding(alloc, source, names, wide.decisions.as_slice())?;
    let more = places_text(alloc, deciding.as_slice())?;
    data_line(alloc, head, more.as_str())
}

/// The line of a launch without `orders` that faulted. An error is out of memory.
fn launch_line(
    alloc: Global,
    head: &str,
    source: Option<&LaunchSource<'_>>,
    launch: &Launch<'_>,
) -> Result<Vec<u8>, AllocError>
    ensures { IfOk result (λ text. (m : Machine) (fault : FaultOf) (schedule : ScheduleOf) → IsCodeOf (setup_of launch.now).program (setup_of launch.now).kernel (code_of launch.now) → Launches m (setup_of launch.now) (Fault fault schedule) m → IsFaultLine (IsInKernel m (setup_of launch.now) fault schedule) head.now (buffer_names (setup_of launch.now)) text.items) }
{
    faults_are_in_kernel();
    let uniform = launch.range().uniform;
    let names = launch.buffer_names();
    let found = widen_launch(alloc, launch.code(), names, launch.arguments(), uniform)?;
    match found {
        Some(wide) => found_line(alloc, head, source, launch, &wide),
        None => data_line(alloc, head, NOT_FOUND),
    }
}

/// The line of a kernel's launch over a range, without `orders`, that faulted on this device. A launch that was done is
/// refused only for want of memory. An error is out of memory.
fn kernel_aside(
    alloc: Global,
    device: &Device,
    sources: &mut Sources<'_>,
    head: &str,
    kernel: &Name,
    range: &Range,
) -> Result<Vec<u8>, AllocError>
    ensures { IfOk result (λ text. (fault : FaultOf) (schedule : ScheduleOf) → Launches (machine_of device.now) (setup_on (machine_of device.now) (kernel_of (machine_of device.now) kernel.now) range.now) (Fault fault schedule) (machine_of device.now) → IsFaultLine (IsInKernel (machine_of device.now) (setup_on (machine_of device.now) (kernel_of (machine_of device.now) kernel.now) range.now) fault schedule) head.now (buffer_names (setup_on (machine_of device.now) (kernel_of (machine_of device.now) kernel.now) range.now)) text.items) }
{
    let source = sources.of(kernel)?;
    match device.prepare(kernel, range) {
        Ok(launch) => launch_line(alloc, head, source.as_ref(), &launch),
        Err(_) => Err(AllocError),
    }
}

/// The line of a launch with `orders` that faulted: with other data its items may meet otherwise. An error is out of
/// memory.
fn orders_line(alloc: Global, head: &str) -> Result<Vec<u8>, AllocError>
    ensures { IfOk result (λ text. text.items ≡ orders_line head.now) }
{
    let mut out = Vec::new(alloc);
    out.extend_from_slice(head.as_bytes())?;
    out.extend_from_slice(
        b"in the data or in the kernel: of a launch with orders nothing is said for other data\n",
    )?;
    Ok(out)
}

/// The line of a kernel's launch over a range, with `orders` or without, that faulted on this device. An error is out
/// of memory.
fn fault_aside(
    alloc: Global,
    device: &Device,
    sources: &mut Sources<'_>,
    head: &str,
    kernel: &Name,
    range: &Range,
    orders: bool,
) -> Result<Vec<u8>, AllocError>
    ensures { IfOk result (λ text. (fault : FaultOf) (schedule : ScheduleOf) → (orders ≡ false → Launches (machine_of device.now) (setup_on (machine_of device.now) (kernel_of (machine_of device.now) kernel.now) range.now) (Fault fault schedule) (machine_of device.now)) → IsFaultAside orders head.now (machine_of device.now) (setup_on (machine_of device.now) (kernel_of (machine_of device.now) kernel.now) range.now) fault schedule text.items) }
{
    if orders {
        return orders_line(alloc, head);
    }
    kernel_aside(alloc, device, sources, head, kernel, range)
}

/// What is told of a command that a device has answered. An error is out of memory.
fn aside(
    alloc: Global,
    device: &Device,
    sources: &mut Sources<'_>,
    head: &str,
    command: &Command,
    reply: &Reply,
) -> Result<Vec<u8>, AllocError>
    ensures { IfOk result (λ text. (old : Machine) → Answers old command.now reply.now (machine_of device.now) → IsAside head.now old command.now reply.now text.items) }
{
    match command {
        Command::Launch {
            kernel,
            range,
            orders,
        } => {
            if !is_fault(reply) {
                return Ok(Vec::new(alloc));
            }
            fault_aside(alloc, device, sources, head, kernel, range, *orders)
        }
        Command::Buffer { .. }
        | Command::Write { .. }
        | Command::Fill { .. }
        | Command::Copy { .. }
        | Command::Read { .. }
        | Command::Release { .. }
        | Command::Program { .. }
        | Command::Kernel { .. }
        | Command::Arg { .. } => Ok(Vec::new(alloc)),
    }
}

/// Whether a reply is the refusal for want of memory.
fn lacked_memory(reply: &Reply) -> bool
    ensures { Decides result (reply.now ≡ Refused OutOfMemory) }
{
    matches!(reply, Reply::Refused(Refusal::OutOfMemory))
}

/// Has a device do a command, with its answer. An error is out of memory.
fn answered(alloc: Global, device: &mut Device, command: &Command) -> Result<Reply, AllocError>
    ensures { IfOk result (λ reply. Answers (machine_of device.old) command.now reply (machine_of device.new)) }
{
    let same = copy_of(alloc, command)?;
    let reply = device.apply(same);
    if lacked_memory(&reply) {
        return Err(AllocError);
    }
    Ok(reply)
}

/// The line of the command of a number, or 0, where there is none.
fn line_at(places: &[CommandPlace], number: usize) -> usize
    ensures { result ≡ line_at places.now number }
{
    match places.get(number) {
        Some(place) => place.line,
        None => 0,
    }
}

/// Adds the number of a command and its line.
fn push_command(number: usize, line: usize, out: &mut String) -> Result<(), AllocError>
    ensures { OnOk result (string_bytes out.new ≡ string_bytes out.old ++ command_words number line) }
{
    write!(out, "command {number}, line {line} of the script: ")
}

/// What stands in front of the line of a command. An error is out of memory.
fn head_of(
    alloc: Global,
    all: bool,
    places: &[CommandPlace],
    number: usize,
) -> Result<String, AllocError>
    ensures { IfOk result (λ text. string_bytes text ≡ head_of all number places.now) }
{
    let mut out = String::new(alloc);
    if all {
        push_command(number, line_at(places, number), &mut out)?;
    }
    Ok(out)
}

/// Whether more is told behind a reply.
fn goes_on(all: bool, reply: &Reply) -> bool
    ensures { result ≡ goes_on all reply.now }
{
    all || !(is_fault(reply) || is_refused(reply))
}

/// Has a device do the command of a number, with its reply; a text gets what is told of it. An error is out of memory.
fn step(
    alloc: Global,
    device: &mut Device,
    sources: &mut Sources<'_>,
    head: &str,
    number: usize,
    command: &Command,
    out: &mut Vec<u8>,
) -> Result<Reply, AllocError>
    ensures { IfOk result (λ reply. Answers (machine_of device.old) command.now reply (machine_of device.new) × (line : List ℕ) × IsAside head.now (machine_of device.old) command.now reply line × (out.new.items ≡ out.old.items ++ line)) }
{
    let reply = answered(alloc, device, command)?;
    let text = aside(alloc, device, sources, head, command, &reply)?;
    out.extend_from_slice(text.as_slice())?;
    sources.pass_done(number, &reply)?;
    Ok(reply)
}

/// The lines of the faults of a script's commands, on this device. An error is out of memory.
fn told_faults(
    alloc: Global,
    device: &mut Device,
    sources: &mut Sources<'_>,
    commands: &[Command],
    places: &[CommandPlace],
    all: bool,
) -> Result<Vec<u8>, AllocError>
    ensures { IfOk result (λ text. TellsFaults all places.now 0 (machine_of device.old) commands.now text.items) }
{
    let mut out = Vec::new(alloc);
    for number in 0..commands.len() {
        let head = head_of(alloc, all, places, number)?;
        let command = &commands[number];
        let reply = step(
            alloc,
            device,
            sources,
            head.as_str(),
            number,
            command,
            &mut out,
        )?;
        if !goes_on(all, &reply) {
            return Ok(out);
        }
    }
    Ok(out)
}

/// The same on a new device of this configuration, by the text by which the script is told.
fn faults_of(
    alloc: Global,
    configuration: Configuration,
    commands: &[Command],
    told: PlacedScript<'_>,
    all: bool,
) -> Result<Vec<u8>, AllocError>
    ensures { IfOk result (λ text. TellsFaults all told.entry.places.now 0 (opening configuration) commands.now text.items) }
{
    let mut device = Device::new(alloc, configuration);
    let mut sources = Sources::new(alloc, configuration.limits, commands, told);
    told_faults(alloc, &mut device, &mut sources, commands, told.places, all)
}

/// Whether the faults of a script are in their kernels or in their data: a line of each launch that faulted, in their
/// order, or, where not all are wished, of the first reply that is a fault or a refusal, if that is a fault. The line
/// says that a fault is in the kernel only where the launch has it by the same schedule with whatever bytes in its
/// buffers and whatever numbers as its arguments (OpenCL 1.2, sections 3.2 and 3.3.1); else it tells where the others
/// decide, as far as that was found, or that nothing is said of a launch with `orders`. Where each is told, the number
/// of its command and the line stand in front. The lines are those of the text that a user wrote, where one is given
/// with a place for each command, and else those of the script, which the bytes have to be. It takes the time of the
/// script's run, and for each launch without `orders` that faulted that of `widen_launch` and of a build of its
/// program.
pub fn fault_asides(
    alloc: Global,
    configuration: Configuration,
    script: &[u8],
    written: Option<PlacedScript<'_>>,
    all: bool,
) -> Result<Vec<u8>, RunFault>
    ensures told { IfOk result (λ text. IsFaultAsides configuration script.now written.entry all text.items) }
    ensures failed { IfErr result (NoScript script.now) }
{
    let Script { commands, places } = read_script(alloc, script)?;
    let by = told_script(script, places.as_slice(), written);
    let text = faults_of(alloc, configuration, commands.as_slice(), by, all)?;
    Ok(text)
}
