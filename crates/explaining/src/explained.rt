//! A script, or a script with a schedule, explained.
#![tactic(auto)]

ghost use Rattle.std.specs.Prelude.{◌≡◌, ◌≤◌, [], IfOk, IfErr, IfSome, OnOk, List, ℕ, length, is_some, string_bytes};
ghost use Rattle.byte_io.specs.Sink.{Wrote};
ghost use Rattle.device.specs.Machine.{machine_of, opening};
ghost use Rattle.placed_scripts.specs.Placed.{HasPlaces, IsTold as IsToldIn};
ghost use Rattle.simfile.specs.Faults.{NoScript};
ghost use Rattle.simfile.specs.Script.{IsScript};
ghost use Rattle.explaining.specs.Explaining.{Explained, Explains, Found, IsTold, Unanswered, Unexplained, Unled, Unwritten};
ghost use Rattle.explaining.specs.Leading.{IsNoted, WalkedTo};
ghost use Rattle.explaining.specs.Whole.{IsToldOf, IsToldThere, Says, SaysOf, SaysOne, SaysScript};

use crate::answers::{Answer, answer_of, tell};
use crate::building::explain_source;
use crate::cases::{PerformedScript, explain_case};
use crate::ends::end_text;
use crate::every::{ReadScript, explain_all};
use crate::facts::{ExplainOptions, Given};
use crate::walks::{Performed, Walked, perform_all, walk_anew};
use byte_io::Write;
use clmodel::fault::Fault;
use clmodel::schedule::Schedule;
use device::{Command, Device};
use fault_lines::read;
use placed_scripts::{PlacedScript, told_script};
use simfile::copies::copies_of;
use simfile::faults::RunFault;
use simfile::script::{Script, read_script};
use std::alloc::{AllocError, Global};
use telling::ExplainedCase;

/// Explains a case on a new device, to which the commands before its ticket lead.
fn told_at(
    alloc: Global,
    given: Given<'_>,
    options: ExplainOptions,
    commands: &[Command],
    told: PlacedScript<'_>,
    ticket: usize,
    fault: &Fault,
    schedule: Schedule,
) -> Result<Option<ExplainedCase>, RunFault>
    requires placed { HasPlaces told commands.now }
    requires within { ticket ≤ length commands.now }
    ensures told { IfOk result (λ found. IsTold options.configuration commands.now ticket fault.now schedule (is_some found)) }
    ensures whole { IfOk result (λ found. IfSome found (IsToldThere options given.entry.name.now told.entry commands.now ticket fault.now schedule)) }
    ensures failed { IfErr result (Unled options.configuration commands.now ticket) }
{
    let (first, _) = commands.split_at(ticket);
    let before = copies_of(alloc, first)?;
    let mut device = Device::new(alloc, options.configuration);
    let done = perform_all(alloc, &mut device, before)?;
    let performed = PerformedScript {
        given,
        options,
        commands,
        told,
        done: done.as_slice(),
    };
    explain_case(alloc, &device, &performed, ticket, fault, schedule, false)
}

/// Explains the case of a schedule file.
fn told_in(
    alloc: Global,
    given: Given<'_>,
    options: ExplainOptions,
    commands: &[Command],
    told: PlacedScript<'_>,
    schedule: &[u8],
) -> Result<Option<ExplainedCase>, RunFault>
    requires script { IsScript given.script.now commands.now }
    requires placed { IsToldIn given.script.now commands.now given.written told }
    ensures explained { IfOk result (λ found. Explained options.configuration given.entry.script.now schedule.now (is_some found)) }
    ensures whole { IfOk result (λ found. IfSome found (IsToldOf options given.entry.name.now given.entry.script.now given.entry.written schedule.now)) }
    ensures failed { IfErr result (Unexplained options.configuration given.entry.script.now schedule.now) }
{
    let (number, fault, runs) = read(alloc, schedule)?;
    if number >= commands.len() as u64 {
        return Err(RunFault::NotALaunch(number));
    }
    told_at(
        alloc,
        given,
        options,
        commands,
        told,
        number as usize,
        &fault,
        runs,
    )
}

/// Explains the fault of a schedule file.
fn explain_schedule(
    alloc: Global,
    given: Given<'_>,
    schedule: &[u8],
    options: ExplainOptions,
) -> Result<Answer, RunFault>
    ensures explained { IfOk result (λ answer. Explained options.configuration given.entry.script.now schedule.now answer.yes) }
    ensures says { IfOk result (λ answer. SaysOf options given.entry.name.now given.entry.script.now given.entry.written schedule.now answer.yes (string_bytes answer.text)) }
    ensures failed { IfErr result (Unexplained options.configuration given.entry.script.now schedule.now) }
{
    let Script { commands, places } = read_script(alloc, given.script)?;
    let by = told_script(given.script, places.as_slice(), given.written);
    let told = told_in(alloc, given, options, commands.as_slice(), by, schedule)?;
    Ok(answer_of(alloc, told, options.format, "no\n")?)
}

/// Explains what a walk over the commands of a script came to, on the device that they led to it.
fn answer_at(
    alloc: Global,
    device: &Device,
    performed: &PerformedScript<'_>,
    end: Walked,
) -> Result<Answer, RunFault>
    requires script { IsScript performed.now.given.script.now performed.now.commands.now }
    requires placed { IsToldIn performed.now.given.script.now performed.now.commands.now performed.now.given.written performed.now.told }
    requires walked { WalkedTo (opening performed.now.options.configuration) performed.now.commands.now (machine_of device.now) end }
    requires noted { IsNoted end performed.now.done.now }
    ensures found { IfOk result (λ answer. Found performed.now.options.configuration performed.now.given.script.now answer.yes) }
    ensures says { IfOk result (λ answer. SaysOne performed.now.options performed.now.given.name.now performed.now.given.script.now performed.now.given.written answer.yes (string_bytes answer.text)) }
    ensures failed { IfErr result (NoScript performed.now.given.script.now) }
{
    let yes = end.is_end();
    let text = end_text(alloc, device, performed, end)?;
    Ok(Answer { text, yes })
}

/// Performs the commands of a script on a new device, and explains what they come to.
fn explain_commands(
    alloc: Global,
    given: Given<'_>,
    options: ExplainOptions,
    commands: &[Command],
    told: PlacedScript<'_>,
) -> Result<Answer, RunFault>
    requires script { IsScript given.script.now commands.now }
    requires placed { IsToldIn given.script.now commands.now given.written told }
    ensures found { IfOk result (λ answer. Found options.configuration given.entry.script.now answer.yes) }
    ensures says { IfOk result (λ answer. SaysOne options given.entry.name.now given.entry.script.now given.entry.written answer.yes (string_bytes answer.text)) }
    ensures failed { IfErr result (NoScript given.entry.script.now) }
{
    let same = copies_of(alloc, commands)?;
    let Performed { device, end, done } = walk_anew(alloc, options, same)?;
    let performed = PerformedScript {
        given,
        options,
        commands,
        told,
        done: done.as_slice(),
    };
    answer_at(alloc, &device, &performed, end)
}

/// Explains the first fault of a script, or the first command that is refused, if that comes first; or all of them.
fn explain_script(
    alloc: Global,
    given: Given<'_>,
    options: ExplainOptions,
) -> Result<Answer, RunFault>
    ensures found { IfOk result (λ answer. Found options.configuration given.entry.script.now answer.yes) }
    ensures says { IfOk result (λ answer. SaysScript options given.entry.name.now given.entry.script.now given.entry.written answer.yes (string_bytes answer.text)) }
    ensures failed { IfErr result (NoScript given.entry.script.now) }
{
    let Script { commands, places } = read_script(alloc, given.script)?;
    let told = told_script(given.script, places.as_slice(), given.written);
    if options.all {
        let script = ReadScript {
            given,
            options,
            commands: commands.as_slice(),
            told,
        };
        return explain_all(alloc, &script);
    }
    explain_commands(alloc, given, options, commands.as_slice(), told)
}

/// What is explained of what is given.
fn answer_to(alloc: Global, given: Given<'_>, options: ExplainOptions) -> Result<Answer, RunFault>
    ensures explains { IfOk result (λ answer. Explains options.configuration given.entry answer.yes) }
    ensures says { IfOk result (λ answer. Says options given.entry answer.yes (string_bytes answer.text)) }
    ensures failed { IfErr result (Unanswered options.configuration given.entry) }
{
    if given.name.ends_with(b".cl") {
        let limits = options.configuration.limits;
        return explain_source(alloc, limits, options.format, given.name, given.script);
    }
    match given.schedule {
        Some(schedule) => explain_schedule(alloc, given, schedule, options),
        None => explain_script(alloc, given, options),
    }
}

/// Explains a fault. With a schedule file: that of its line, for which its schedule is replayed. Without one: the first
/// fault of the script, or its first command that is refused, whichever comes first; or each fault and each such
/// command, one behind another. A source, which is a file whose name ends in `.cl`, is built alone. Writes what it
/// explains and answers true; or writes `no` where the schedule doesn't lead to the fault, `clean` or
/// `ordered` where no launch has a fault and no command is refused, and `ok` where a source builds, and answers false.
/// It is `ordered` where one launch is answered so. The lines that are told are those of the text that a user wrote,
/// where one is given with a place for each command, and else those of the script.
///
/// After `Write` a beginning of the text was written, after every other error nothing. No memory may be left at any
/// step.
pub fn explain<W: Write>(
    alloc: Global,
    given: Given<'_>,
    options: ExplainOptions,
    writer: &mut W,
) -> Result<bool, RunFault>
    ensures explains { IfOk result (Explains options.configuration given.entry) }
    ensures wrote { OnOk result ((text : List ℕ) × Wrote (W.sink writer.old) (W.sink writer.new) text) }
    ensures says { IfOk result (λ answer. (text : List ℕ) × Wrote (W.sink writer.old) (W.sink writer.new) text × Says options given.entry answer text) }
    ensures released { OnOk result ((W.sink writer.new).held ≡ []) }
    ensures failed { IfErr result (Unwritten options.configuration given.entry (W.sink writer.old) (W.sink writer.new)) }
{
    let answer = answer_to(alloc, given, options)?;
    tell(answer.text.as_bytes(), writer)?;
    Ok(answer.yes)
}
