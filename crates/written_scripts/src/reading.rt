//! One line of a script, read with those behind it, and added to the plain text.
#![tactic(auto)]

ghost use Rattle.std.specs.Prelude.{◌≡◌, ◌≤◌, map, length, IfOk};
ghost use Rattle.std.specs.Option.{MatchOption};
ghost use Rattle.written_scripts.specs.Reading.{Adds, IsStop, told_at};

use crate::files::NamedFile;
use crate::places::{PlainScript, WrittenPlace};
use crate::telling::{place_of, said_of, told_by};
use crate::texts::command_text;
use host_commands::command::Command;
use std::alloc::{AllocError, Global};

/// The most commands of a script.
const MAX_COMMANDS: usize = 4096;

/// What the line of a number tells with the lines behind it, and how many of these it takes.
#[tactic(auto, unfolding(crate::specs::Reading::told_at))]
fn told_at(
    alloc: Global,
    files: &[NamedFile],
    number: usize,
    line: &[u8],
    behind: &[&[u8]],
) -> Result<Option<(Option<(Command, WrittenPlace)>, usize)>, AllocError>
    ensures { IfOk result (λ told. told ≡ told_at files.now number line.now (map (λ l. l.now) behind.now)) }
{
    let Some(said) = said_of(alloc, line)? else {
        return Ok(None);
    };
    let place = place_of(alloc, number, line, &said)?;
    let Some((told, taken)) = told_by(alloc, files, said, behind)? else {
        return Ok(None);
    };
    match told {
        Some(command) => Ok(Some((Some((command, place)), taken))),
        None => Ok(Some((None, taken))),
    }
}

/// Adds what the line of a number tells with the lines behind it, and answers how many of these it takes. It tells
/// nothing where it is bad, or is the line of the 4,097th command.
pub(crate) fn add_line(
    alloc: Global,
    files: &[NamedFile],
    number: usize,
    line: &[u8],
    behind: &[&[u8]],
    plain: &mut PlainScript,
) -> Result<Option<usize>, AllocError>
    requires { length plain.old.places.items ≤ 4096 }
    ensures { IfOk result (λ taken. MatchOption taken
        (IsStop files.now number line.now (map (λ l. l.now) behind.now) (length plain.old.places.items))
        (Adds files.now number line.now (map (λ l. l.now) behind.now) plain.old plain.new)) }
{
    let Some((told, taken)) = told_at(alloc, files, number, line, behind)? else {
        return Ok(None);
    };
    let Some((command, place)) = told else {
        return Ok(Some(taken));
    };
    if plain.places.len() >= MAX_COMMANDS {
        return Ok(None);
    }
    let text = command_text(alloc, line, &command)?;
    plain.text.extend_from_slice(text.as_slice())?;
    plain.places.push(place)?;
    Ok(Some(taken))
}
