//! What a walk over the commands of a script ended at, told.
#![tactic(auto)]

ghost use Rattle.std.specs.Prelude.{IfOk, IfErr, string_bytes};
ghost use Rattle.device.specs.Machine.{machine_of};
ghost use Rattle.host_commands.specs.declared.command.Reply.TheVariants as reply;
ghost use Rattle.placed_scripts.specs.Placed.{HasPlaces};
ghost use Rattle.simfile.specs.Faults.{NoScript};
ghost use Rattle.explaining.specs.Leading.{RepliesAt, StandsBehind};
ghost use Rattle.explaining.specs.Whole.{TellsEnd, TellsFaulted};

use crate::answers::{answer_of, word_of};
use crate::building::explain_unbuilt;
use crate::cases::{PerformedScript, explain_case};
use crate::refusing::explain_refused;
use crate::walks::{Case, Unbuilt, Walked};
use device::Device;
use simfile::faults::RunFault;
use std::alloc::{AllocError, Global};

/// A launch's fault, on the device behind the launch. An error is out of memory.
fn fault_text(
    alloc: Global,
    device: &Device,
    performed: &PerformedScript<'_>,
    case: Case,
) -> Result<String, RunFault>
    requires placed { HasPlaces performed.now.told performed.now.commands.now }
    requires replied { RepliesAt performed.now.commands.now (machine_of device.now) case.ticket (reply.Fault case.fault case.schedule) }
    ensures tells { IfOk result (λ text. TellsFaulted performed.now.options performed.now.given.name.now performed.now.told performed.now.commands.now performed.now.done.now (machine_of device.now) case.ticket case.fault case.schedule (string_bytes text)) }
    ensures failed { IfErr result (NoScript performed.now.given.script.now) }
{
    let (ticket, fault) = (case.ticket, case.fault);
    let told = explain_case(
        alloc,
        device,
        performed,
        ticket,
        &fault,
        case.schedule,
        true,
    )?;
    let answer = answer_of(alloc, told, performed.options.format, "no\n")?;
    Ok(answer.text)
}

/// A build of a script that is refused. An error is out of memory.
fn unbuilt_text(
    alloc: Global,
    performed: &PerformedScript<'_>,
    unbuilt: Unbuilt,
) -> Result<String, AllocError> {
    explain_unbuilt(
        alloc,
        performed.options.format,
        performed.given.name,
        performed.commands,
        &performed.told,
        unbuilt,
    )
}

/// What a walk ended at, on the device behind that command; `clean` or `ordered` where it is none. An error is out of
/// memory.
pub(crate) fn end_text(
    alloc: Global,
    device: &Device,
    performed: &PerformedScript<'_>,
    end: Walked,
) -> Result<String, RunFault>
    requires placed { HasPlaces performed.now.told performed.now.commands.now }
    requires ended { StandsBehind performed.now.commands.now (machine_of device.now) end }
    ensures tells { IfOk result (λ text. TellsEnd performed.now.options performed.now.given.name.now performed.now.told performed.now.commands.now performed.now.done.now (machine_of device.now) end (string_bytes text)) }
    ensures failed { IfErr result (NoScript performed.now.given.script.now) }
{
    match end {
        Walked::Passed { ordered } => Ok(String::from_str(alloc, word_of(ordered))?),
        Walked::Unbuilt(unbuilt) => Ok(unbuilt_text(alloc, performed, unbuilt)?),
        Walked::Refused(case) => Ok(explain_refused(alloc, device, performed, case)?),
        Walked::Faulted(case) => fault_text(alloc, device, performed, case),
    }
}
