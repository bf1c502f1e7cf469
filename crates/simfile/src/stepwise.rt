//! A script that is read command by command.
#![tactic(auto)]

ghost use Rattle.std.specs.Prelude.{◌≡◌, ◌↔◌, IsTrue, Some, IfOk, IfSome};
ghost use Rattle.std.specs.Option.{option_map};
ghost use Rattle.simfile.specs.declared.lines.Version.{Version};
ghost use Rattle.simfile.specs.declared.lines.Version.TheVariants.{Two, Three};
ghost use Rattle.simfile.specs.Script.{head, line_feeds};
ghost use Rattle.simfile.specs.Reading.{command_at};
ghost use Rattle.simfile.specs.Stepwise.{source_lines, TellsVersion, WholeRead, WholeNone, NoLine, TooFew};

use crate::commands::command_of;
use crate::fields::name_before;
use crate::forms::{MAX_SOURCE_LINES, line_at};
use crate::lines::Version;
use host_commands::command::Command;
use std::alloc::{AllocError, Global};
use text_lines::{after, line_feeds, number_before};

/// The first line of a script of version 2.
const VERSION_TWO: &[u8] = b"clsim 2\n";

/// The first line of a script of version 3.
const VERSION_THREE: &[u8] = b"clsim 3\n";

/// Whether a line is the first one of a script of version 2.
fn is_version_two(line: &[u8]) -> bool
    ensures { IsTrue result ↔ line.now ≡ head Two }
{
    line == VERSION_TWO
}

/// Whether a line is the first one of a script of version 3.
fn is_version_three(line: &[u8]) -> bool
    ensures { IsTrue result ↔ line.now ≡ head Three }
{
    line == VERSION_THREE
}

/// The version that a line tells, where it is the first one of a script of version 2 or 3.
pub fn version_told(line: &[u8]) -> Option<Version>
    ensures found { IfSome result (TellsVersion line.now) }
    ensures only { (version : Version) → TellsVersion line.now version → result ≡ Some version }
{
    if is_version_two(line) {
        return Some(Version::Two);
    }
    if is_version_three(line) {
        return Some(Version::Three);
    }
    None
}

/// How many lines the bytes have, counted by their line feeds.
pub fn count_lines(bytes: &[u8]) -> usize
    ensures { result ≡ line_feeds bytes.now }
{
    line_feeds(bytes)
}

/// How many source lines follow a line, where it is that of a program: 1 to 65,536.
#[tactic(auto, unfolding(crate::specs::Stepwise::source_lines))]
pub fn source_lines(line: &[u8]) -> Option<u64>
    ensures { result ≡ source_lines line.now }
{
    let rest = after(b"program ", line)?;
    let (_, rest) = name_before(b' ', rest)?;
    let (count, _) = number_before(b'\n', rest)?;
    if count == 0 || count > MAX_SOURCE_LINES {
        return None;
    }
    Some(count)
}

/// The command whose text stands in front, as the version has it, and the bytes behind it.
pub fn read_command(
    alloc: Global,
    version: Version,
    bytes: &[u8],
) -> Result<Option<(Command, &[u8])>, AllocError>
    ensures { IfOk result (λ read. option_map (λ found. (found.0, found.1.now)) read ≡ command_at version bytes.now) }
{
    let Some((line, rest)) = line_at(version, bytes) else {
        return Ok(None);
    };
    let command = command_of(alloc, line)?;
    Ok(Some((command, rest)))
}

/// The laws of scripts that are read line by line: of a line, with its source lines where it is that of a program, a
/// command is read that takes all of them, or none is read whatever follows; none is read where no line ends, or where
/// source lines are missing.
pub fn stepwise_laws()
    ensures whole_read { WholeRead }
    ensures whole_none { WholeNone }
    ensures no_line { NoLine }
    ensures too_few { TooFew }
{}
