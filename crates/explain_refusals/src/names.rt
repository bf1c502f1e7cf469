//! The names that commands made.
#![tactic(auto)]

ghost use Rattle.std.specs.Prelude.{◌<◌, length, IfOk, IfSome};
ghost use Rattle.explain_refusals.specs.Reasons.{IsTold};

use clmodel::text::Name;
use host_commands::command::Command;
use refused_commands::{MadeName, NameKind};
use simfile::script::CommandPlace;
use std::alloc::{AllocError, Global};

/// A name that is there, with the number of the command that made it.
#[derive(Clone, Copy)]
pub(crate) struct Made<'a> {
    pub name: &'a Name,
    pub kind: NameKind,
    pub number: usize,
}

/// The name that a command makes.
fn made_by(command: &Command) -> Option<(&Name, NameKind)> {
    match command {
        Command::Buffer { name, .. } => Some((name, NameKind::Buffer)),
        Command::Program { name, .. } => Some((name, NameKind::Program)),
        Command::Kernel { name, .. } => Some((name, NameKind::Kernel)),
        _ => None,
    }
}

/// The name that a command releases.
fn released_by(command: &Command) -> Option<&Name> {
    match command {
        Command::Release { name } => Some(name),
        _ => None,
    }
}

/// Where a name stands among those that are there.
fn place_in(there: &[Made<'_>], name: &Name) -> Option<usize>
    ensures { IfSome result (λ place. place < length there.now) }
{
    for (place, made) in there.iter().enumerate() {
        if made.name == name {
            return Some(place);
        }
    }
    None
}

/// Removes a name from those that are there.
fn remove(there: &mut Vec<Made<'_>>, name: &Name) {
    if let Some(place) = place_in(there.as_slice(), name) {
        there.remove(place);
    }
}

/// The names that are there after commands that were done, in the order in which they were made. A release takes the
/// time of the names that are there.
pub(crate) fn names_there<'a>(
    alloc: Global,
    commands: &'a [Command],
) -> Result<Vec<Made<'a>>, AllocError> {
    let mut there = Vec::new(alloc);
    for (number, command) in commands.iter().enumerate() {
        if let Some((name, kind)) = made_by(command) {
            there.push(Made { name, kind, number })?;
        }
        if let Some(name) = released_by(command) {
            remove(&mut there, name);
        }
    }
    Ok(there)
}

/// A name as text.
pub(crate) fn text_of(alloc: Global, name: &Name) -> Result<String, AllocError>
    ensures { IfOk result (IsTold name.now) }
{
    String::from_utf8_lossy(alloc, name.as_slice())
}

/// The line of the script in which the command of a number stands.
fn line_of(places: &[CommandPlace], number: usize) -> usize {
    match places.get(number) {
        Some(place) => place.line,
        None => 0,
    }
}

/// A name that is there, as data.
pub(crate) fn told_name(
    alloc: Global,
    places: &[CommandPlace],
    made: &Made<'_>,
) -> Result<MadeName, AllocError> {
    Ok(MadeName {
        name: text_of(alloc, made.name)?,
        kind: made.kind,
        script_line: line_of(places, made.number),
    })
}

/// What is there of a name, as data.
pub(crate) fn told_of(
    alloc: Global,
    places: &[CommandPlace],
    there: &[Made<'_>],
    name: &Name,
) -> Result<Option<MadeName>, AllocError> {
    for made in there {
        if made.name == name {
            return Ok(Some(told_name(alloc, places, made)?));
        }
    }
    Ok(None)
}

/// Whether something is of a kind, where one is wanted.
fn is_wanted(wanted: Option<NameKind>, kind: NameKind) -> bool {
    match wanted {
        Some(wanted) => wanted == kind,
        None => true,
    }
}

/// The names that are there of a kind, or all, as data.
pub(crate) fn told_names(
    alloc: Global,
    places: &[CommandPlace],
    there: &[Made<'_>],
    wanted: Option<NameKind>,
) -> Result<Vec<MadeName>, AllocError> {
    let mut told = Vec::new(alloc);
    for made in there {
        if is_wanted(wanted, made.kind) {
            told.push(told_name(alloc, places, made)?)?;
        }
    }
    Ok(told)
}
