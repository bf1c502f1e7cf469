//! Builds that are refused.
#![tactic(auto)]

ghost use Rattle.std.specs.Prelude.{◌≡◌, IfOk, IfErr, string_bytes};
ghost use Rattle.explaining.specs.Explaining.{IsRefused};
ghost use Rattle.explaining.specs.Whole.{SaysSource};

use crate::answers::{Answer, word_answer};
use crate::facts::Format;
use crate::walks::Unbuilt;
use build_hints::{Refused, refusal_text};
use device::{BuildFault, Command};
use explain_json::refused_json;
use host_commands::build::{NotBuilt, build};
use limits::Limits;
use placed_scripts::PlacedScript;
use simfile::faults::RunFault;
use std::alloc::{AllocError, Global};

/// Turns the fault of a build into the one that a refusal is written for.
fn refused_of(fault: BuildFault) -> Refused {
    match fault {
        BuildFault::Syntax(fault) => Refused::Syntax(fault),
        BuildFault::Type(fault) => Refused::Type(fault),
    }
}

/// The fault of a source in a format. The source begins at this line of the file that is named.
fn refusal_in(
    alloc: Global,
    format: Format,
    name: &str,
    source: &[u8],
    first_line: usize,
    fault: Refused,
) -> Result<String, AllocError> {
    match format {
        Format::Text => refusal_text(alloc, name, source, first_line, fault),
        Format::Json => refused_json(alloc, name, source, first_line, fault),
    }
}

/// The refused build of a script, which is told by this text, in a format: by the lines of the file that has the
/// source.
pub(crate) fn explain_unbuilt(
    alloc: Global,
    format: Format,
    name: &[u8],
    commands: &[Command],
    told: &PlacedScript<'_>,
    unbuilt: Unbuilt,
) -> Result<String, AllocError> {
    let file = told.file(unbuilt.ticket).unwrap_or(name);
    let file = String::from_utf8_lossy(alloc, file)?;
    let source = match commands.get(unbuilt.ticket) {
        Some(Command::Program { source, .. }) => source.as_slice(),
        _ => &[],
    };
    let first = match told.places.get(unbuilt.ticket) {
        Some(place) => place.source_line,
        None => 1,
    };
    refusal_in(
        alloc,
        format,
        file.as_str(),
        source,
        first,
        refused_of(unbuilt.fault),
    )
}

/// The fault of a source that isn't built within limits, in a format; or `ok`.
pub(crate) fn explain_source(
    alloc: Global,
    limits: Limits,
    format: Format,
    name: &[u8],
    source: &[u8],
) -> Result<Answer, RunFault>
    ensures refused { IfOk result (λ answer. IsRefused limits source.now answer.yes) }
    ensures says { IfOk result (λ answer. SaysSource answer.yes (string_bytes answer.text)) }
    ensures failed { IfErr result (λ why. why ≡ RunFault.OutOfMemory) }
{
    let fault = match build(alloc, limits, source) {
        Ok(_) => return Ok(word_answer(alloc, "ok\n")?),
        Err(NotBuilt::OutOfMemory) => return Err(RunFault::OutOfMemory),
        Err(NotBuilt::Fault(fault)) => fault,
    };
    let name = String::from_utf8_lossy(alloc, name)?;
    let text = refusal_in(alloc, format, name.as_str(), source, 1, refused_of(fault))?;
    Ok(Answer { text, yes: true })
}
