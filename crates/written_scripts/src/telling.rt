//! The command that a line makes with the lines behind it.
#![tactic(auto)]

ghost use Rattle.std.specs.Prelude.{◌≡◌, ◌*◌, ◌+◌, ◌<◌, ◌≤◌, ◌^◌, map, length, IfOk, IfSome};
ghost use Rattle.script_lines.specs.Numbers.{size_of};
ghost use Rattle.script_lines.specs.Plain.{plain};
ghost use Rattle.script_lines.specs.Reading.{says_at};
ghost use Rattle.written_scripts.specs.Telling.{Fits, of_file, of_lines, of_lines_until, place_of, program_of, told_by, file_of, kind_of};

use crate::files::{NamedFile, text_at};
use crate::lines::{ended, first_end, lines_text};
use crate::places::WrittenPlace;
use clmodel::text::{Bytes, Name};
use clnum::IntType;
use host_commands::command::Command;
use script_lines::{LineSays, comment_of, line_says};
use std::alloc::{AllocError, Global};
use text_lines::line_feeds;

/// What a line says, as it is read of its plain text.
pub(crate) fn said_of(alloc: Global, line: &[u8]) -> Result<Option<LineSays>, AllocError>
    ensures value { IfOk result (λ said. said ≡ says_at (plain line.now)) }
    ensures fits { IfOk result (λ said. IfSome said Fits) }
{
    line_says(alloc, line)
}

/// The most lines of a source.
const MAX_SOURCE_LINES: usize = 65_536;

/// A program of a source, for which so many lines were taken, where it is of 1 to 65,536 lines.
#[tactic(auto, unfolding(crate::specs::Telling::program_of))]
fn program_of(name: Name, source: Vec<u8>, taken: usize) -> Option<(Option<Command>, usize)>
    ensures { result ≡ program_of name source.items taken }
{
    let lines = line_feeds(source.as_slice());
    if lines == 0 || lines > MAX_SOURCE_LINES {
        return None;
    }
    let source = Bytes::new(source);
    Some((Some(Command::Program { name, source }), taken))
}

/// A program whose source is the next so many lines.
#[tactic(auto, unfolding(crate::specs::Telling::of_lines))]
fn of_lines(
    alloc: Global,
    name: Name,
    count: u64,
    behind: &[&[u8]],
) -> Result<Option<(Option<Command>, usize)>, AllocError>
    ensures { IfOk result (λ told. told ≡ of_lines name count (map (λ line. line.now) behind.now)) }
{
    if count > behind.len() as u64 {
        return Ok(None);
    }
    let source = lines_text(alloc, behind, count as usize)?;
    Ok(program_of(name, source, count as usize))
}

/// A program whose source is the lines in front of the first one that is this word.
#[tactic(auto, unfolding(crate::specs::Telling::of_lines_until))]
fn of_lines_until(
    alloc: Global,
    name: Name,
    word: &[u8],
    behind: &[&[u8]],
) -> Result<Option<(Option<Command>, usize)>, AllocError>
    ensures { IfOk result (λ told. told ≡ of_lines_until name word.now (map (λ line. line.now) behind.now)) }
{
    let Some(count) = first_end(alloc, word, behind)? else {
        return Ok(None);
    };
    let source = lines_text(alloc, behind, count)?;
    Ok(program_of(name, source, count + 1))
}

/// A program whose source is that of a file.
#[tactic(auto, unfolding(crate::specs::Telling::of_file))]
fn of_file(
    alloc: Global,
    files: &[NamedFile],
    name: Name,
    path: &[u8],
) -> Result<Option<(Option<Command>, usize)>, AllocError>
    ensures { IfOk result (λ told. told ≡ of_file files.now name path.now) }
{
    let Some(text) = text_at(files, path) else {
        return Ok(None);
    };
    let source = ended(alloc, text)?;
    Ok(program_of(name, source, 0))
}

/// The `read` of so many numbers of a type.
fn read_of(buffer: Name, offset: u64, kind: IntType, count: u64) -> Command
    requires { count * size_of kind < 2 ^ 64 }
    ensures { result ≡ Command.Read buffer offset (count * size_of kind) }
{
    Command::Read {
        buffer,
        offset,
        count: count * u64::from(kind.bits() / 8),
    }
}

/// What a line makes that says this: a command, or none, and how many of the lines behind it are taken. It makes
/// nothing where these lines, or the file, aren't there, or where a source is too long.
pub(crate) fn told_by(
    alloc: Global,
    files: &[NamedFile],
    said: LineSays,
    behind: &[&[u8]],
) -> Result<Option<(Option<Command>, usize)>, AllocError>
    requires { Fits said }
    ensures { IfOk result (λ told. told ≡ told_by files.now said (map (λ line. line.now) behind.now)) }
{
    match said {
        LineSays::Nothing => Ok(Some((None, 0))),
        LineSays::Command(command) => Ok(Some((Some(command), 0))),
        LineSays::ReadNumbers {
            buffer,
            offset,
            kind,
            count,
        } => Ok(Some((Some(read_of(buffer, offset, kind, count)), 0))),
        LineSays::SourceLines { name, count } => of_lines(alloc, name, count, behind),
        LineSays::SourceUntil { name, word } => of_lines_until(
            alloc,
            name,
            word.as_slice(),
            behind,
        ),
        LineSays::SourceFile { name, path } => of_file(alloc, files, name, path.as_slice()),
    }
}

/// The type of the numbers that a reply has, where the line says one.
fn kind_of(said: &LineSays) -> Option<IntType>
    ensures { result ≡ kind_of said.now }
{
    match said {
        LineSays::ReadNumbers { kind, .. } => Some(*kind),
        _ => None,
    }
}

/// The path of the file that has the source of a line's program, where the line names one.
fn file_of(alloc: Global, said: &LineSays) -> Result<Option<Bytes>, AllocError>
    ensures { IfOk result (λ file. file ≡ file_of said.now) }
{
    match said {
        LineSays::SourceFile { path, .. } => Ok(Some(Bytes::copy_of(alloc, path.as_slice())?)),
        _ => Ok(None),
    }
}

/// The place of the line of a number that says this.
pub(crate) fn place_of(
    alloc: Global,
    number: usize,
    line: &[u8],
    said: &LineSays,
) -> Result<WrittenPlace, AllocError>
    ensures { IfOk result (λ place. place ≡ place_of number line.now said.now) }
{
    let called = comment_of(alloc, line)?;
    let file = file_of(alloc, said)?;
    Ok(WrittenPlace {
        line: number,
        kind: kind_of(said),
        called: Bytes::new(called),
        file,
    })
}
