//! Every fault and every refusal of a script, told one behind another.
#![tactic(auto)]

ghost use Rattle.std.specs.Prelude.{◌≡◌, ◌+◌, ◌<◌, [], ◌++◌, Bool, List, Some, true, false, codes, decimal, length, IfOk, IfErr, OnOk, slice_get, string_bytes};
ghost use Rattle.device.specs.Machine.{machine_of};
ghost use Rattle.placed_scripts.specs.Placed.{HasPlaces, IsTold};
ghost use Rattle.simfile.specs.Faults.{NoScript};
ghost use Rattle.simfile.specs.Script.{IsScript};
ghost use Rattle.explaining.specs.Every.{IsEndAdded, TellsCommand};
ghost use Rattle.explaining.specs.Explaining.{Found};
ghost use Rattle.explaining.specs.Leading.{IsMet, StandsBehind};
ghost use Rattle.explaining.specs.Whole.{SaysAll, TellsEach, heading, word_of};

use crate::answers::{Answer, word_answer, word_of};
use crate::cases::PerformedScript;
use crate::ends::end_text;
use crate::facts::{ExplainOptions, Format, Given};
use crate::walks::{Walked, end_of, ordered_by, perform};
use device::{Command, Device};
use placed_scripts::PlacedScript;
use simfile::copies::copies_of;
use simfile::faults::RunFault;
use std::alloc::{AllocError, Global};
use std::fmt::Write;

/// A script that was read: what is given of it, how and by which text it is told, and its commands.
#[derive(Clone, Copy)]
pub(crate) struct ReadScript<'a> {
    pub given: Given<'a>,
    pub options: ExplainOptions,
    pub commands: &'a [Command],
    pub told: PlacedScript<'a>,
}

/// Adds a line with the number of a command and its line in the script.
fn push_command(ticket: usize, line: usize, out: &mut String) -> Result<(), AllocError>
    ensures { OnOk result (string_bytes out.new ≡ string_bytes out.old ++ (codes "---- command " ++ decimal ticket ++ codes ", line " ++ decimal line ++ codes " of the script ----\n")) }
{
    write!(
        out,
        "---- command {ticket}, line {line} of the script ----\n"
    )
}

/// Adds the line in front of what is told of the command of a number, which stands in this line of the script. Lines of
/// JSON have none.
fn push_heading(
    format: Format,
    ticket: usize,
    line: usize,
    out: &mut String,
) -> Result<(), AllocError>
    ensures { OnOk result (string_bytes out.new ≡ string_bytes out.old ++ heading format ticket line) }
{
    match format {
        Format::Text => push_command(ticket, line, out),
        Format::Json => Ok(()),
    }
}

/// Adds a text behind the heading of the command of a number, which stands in this line of the script.
fn push_headed(
    format: Format,
    ticket: usize,
    line: usize,
    text: &str,
    out: &mut String,
) -> Result<(), AllocError>
    ensures { OnOk result (string_bytes out.new ≡ string_bytes out.old ++ (heading format ticket line ++ text.now)) }
{
    push_heading(format, ticket, line, out)?;
    out.push_str(text)
}

/// Adds what is told of the command of a number, at which a walk ended, on the device behind it. An error is out of
/// memory.
fn push_end(
    alloc: Global,
    device: &Device,
    performed: &PerformedScript<'_>,
    ticket: usize,
    end: Walked,
    out: &mut String,
) -> Result<(), RunFault>
    requires placed { HasPlaces performed.now.told performed.now.commands.now }
    requires within { ticket < length performed.now.commands.now }
    requires ended { StandsBehind performed.now.commands.now (machine_of device.now) end }
    ensures told { OnOk result (IsEndAdded performed.now.options performed.now.given.name.now performed.now.told performed.now.commands.now performed.now.done.now (machine_of device.now) ticket end (string_bytes out.old) (string_bytes out.new)) }
    ensures failed { IfErr result (NoScript performed.now.given.script.now) }
{
    let text = end_text(alloc, device, performed, end)?;
    let place = performed.told.place(ticket);
    push_headed(
        performed.options.format,
        ticket,
        place.line,
        text.as_str(),
        out,
    )?;
    Ok(())
}

/// What was met among the replies so far.
#[derive(Clone, Copy)]
pub(crate) struct Met {
    /// Whether a fault or a refusal was
    pub end: bool,
    /// Whether `ordered` was
    pub ordered: bool,
}

/// Performs the next command of a script, and adds what is told of its reply, if that is a fault or a refusal. Answers
/// what was met, now or before. An error is out of memory.
fn tell_command(
    alloc: Global,
    device: &mut Device,
    script: &ReadScript<'_>,
    command: Command,
    met: Met,
    done: &mut Vec<bool>,
    out: &mut String,
) -> Result<Met, RunFault>
    requires placed { HasPlaces script.now.told script.now.commands.now }
    requires next { slice_get script.now.commands.now (length done.old.items) ≡ Some command }
    ensures told { IfOk result (TellsCommand script.now.options script.now.given.name.now script.now.told script.now.commands.now done.old.items (machine_of device.old) command (machine_of device.new)
        done.new.items (string_bytes out.old) (string_bytes out.new) met) }
    ensures counted { OnOk result (length done.new.items ≡ length done.old.items + 1) }
    ensures failed { IfErr result (NoScript script.now.given.script.now) }
{
    let ticket = done.len();
    let reply = perform(device, command, done)?;
    let ordered = ordered_by(met.ordered, &reply);
    let Some(end) = end_of(ticket, reply) else {
        return Ok(Met {
            end: met.end,
            ordered,
        });
    };
    let performed = PerformedScript {
        given: script.given,
        options: script.options,
        commands: script.commands,
        told: script.told,
        done: done.as_slice(),
    };
    push_end(alloc, device, &performed, ticket, end, out)?;
    Ok(Met { end: true, ordered })
}

/// What is told of the commands of a script, and what was met.
#[derive(Drop)]
struct AllTold {
    text: String,
    met: Met,
}

/// Performs the commands of a script, and tells each reply that is a fault or a refusal. An error is out of memory.
fn tell_commands(
    alloc: Global,
    device: &mut Device,
    script: &ReadScript<'_>,
    same: Vec<Command>,
) -> Result<AllTold, RunFault>
    requires placed { HasPlaces script.now.told script.now.commands.now }
    requires same { same.items ≡ script.now.commands.now }
    ensures each { IfOk result (λ told. (done : List Bool) × TellsEach script.now.options script.now.given.name.now script.now.told script.now.commands.now [] (machine_of device.old) same.items (machine_of device.new) done (string_bytes told.text)) }
    ensures met { IfOk result (λ told. IsMet (machine_of device.old) same.items same.items (machine_of device.new) told.met.end told.met.ordered) }
    ensures failed { IfErr result (NoScript script.now.given.script.now) }
{
    let mut done = Vec::new(alloc);
    let mut text = String::new(alloc);
    let mut met = Met {
        end: false,
        ordered: false,
    };
    for command in same {
        met = tell_command(alloc, device, script, command, met, &mut done, &mut text)?;
    }
    Ok(AllTold { text, met })
}

/// What was told, or the word that there was nothing. An error is out of memory.
fn or_word(alloc: Global, told: AllTold) -> Result<Answer, AllocError>
    ensures yes { IfOk result (λ answer. answer.yes ≡ told.met.end) }
    ensures some { IfOk result (λ answer. told.met.end ≡ true → string_bytes answer.text ≡ string_bytes told.text) }
    ensures none { IfOk result (λ answer. told.met.end ≡ false → string_bytes answer.text ≡ word_of told.met.ordered) }
{
    if told.met.end {
        return Ok(Answer {
            text: told.text,
            yes: true,
        });
    }
    word_answer(alloc, word_of(told.met.ordered))
}

/// Tells each fault and each refusal of a script, in the order of its commands; `clean` or `ordered` where there is
/// none. A launch that has a fault and a command that is refused leave the device as it was, so that each is told by
/// the buffers that it had. An error is out of memory.
pub(crate) fn explain_all(alloc: Global, script: &ReadScript<'_>) -> Result<Answer, RunFault>
    requires script { IsScript script.now.given.script.now script.now.commands.now }
    requires placed { IsTold script.now.given.script.now script.now.commands.now script.now.given.written script.now.told }
    ensures found { IfOk result (λ answer. Found script.now.options.configuration script.now.given.script.now answer.yes) }
    ensures says { IfOk result (λ answer. SaysAll script.now.options script.now.given.name.now script.now.given.script.now script.now.given.written answer.yes (string_bytes answer.text)) }
    ensures failed { IfErr result (NoScript script.now.given.script.now) }
{
    let same = copies_of(alloc, script.commands)?;
    let mut device = Device::new(alloc, script.options.configuration);
    let told = tell_commands(alloc, &mut device, script, same)?;
    Ok(or_word(alloc, told)?)
}
