//! A fault of a launch explained, on the device that stood before the launch.
#![tactic(auto)]

ghost use Rattle.std.specs.Prelude.{◌≡◌, true, IfErr, IfOk, IfSome, is_some, string_bytes};
ghost use Rattle.device.specs.Machine.{machine_of};
ghost use Rattle.placed_scripts.specs.Placed.{HasPlaces};
ghost use Rattle.telling.specs.Judged.{LeadsThere, Tells, Untold};
ghost use Rattle.telling.specs.Told.{HasWhole};
ghost use Rattle.explaining.specs.Whole.{tell_options};

use crate::facts::{ExplainOptions, Given};
use clmodel::fault::Fault;
use clmodel::schedule::Schedule;
use device::{Command, Device};
use placed_scripts::PlacedScript;
use simfile::faults::RunFault;
use std::alloc::Global;
use telling::{ExplainedCase, LaunchedScript, TellOptions};

/// A script that was performed up to a command: what is given of it, how and by which text it is told, its commands,
/// and of those before that one whether they were done.
#[derive(Clone, Copy)]
pub(crate) struct PerformedScript<'a> {
    pub given: Given<'a>,
    pub options: ExplainOptions,
    pub commands: &'a [Command],
    pub told: PlacedScript<'a>,
    pub done: &'a [bool],
}

/// Explains a case on a device to which the commands before its ticket led. A schedule that is known to lead there
/// isn't replayed as a whole.
pub(crate) fn explain_case(
    alloc: Global,
    device: &Device,
    performed: &PerformedScript<'_>,
    ticket: usize,
    fault: &Fault,
    schedule: Schedule,
    known: bool,
) -> Result<Option<ExplainedCase>, RunFault>
    requires placed { HasPlaces performed.now.told performed.now.commands.now }
    requires known { known ≡ true → LeadsThere (machine_of device.now) performed.now.commands.now ticket fault.now schedule }
    ensures told { IfOk result (λ found. Tells (machine_of device.now) performed.now.commands.now ticket fault.now schedule (is_some found)) }
    ensures whole { IfOk result (λ found. IfSome found (λ told. HasWhole (machine_of device.now) (tell_options performed.now.options) performed.now.given.name.now performed.now.told performed.now.commands.now performed.now.done.now ticket fault.now schedule told.schedule (string_bytes told.source) told.whole)) }
    ensures failed { IfErr result (Untold (machine_of device.now) performed.now.commands.now ticket) }
{
    let options = performed.options;
    let launched = LaunchedScript {
        name: performed.given.name,
        script: performed.told,
        options: TellOptions {
            budget: options.configuration.budget,
            as_given: options.as_given,
            steps: options.steps,
        },
        commands: performed.commands,
        done: performed.done,
    };
    telling::explain_case(alloc, device, &launched, ticket, fault, schedule, known)
}
