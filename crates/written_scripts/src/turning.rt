//! A script of version 3 that people write by hand, turned into a plain one.
#![tactic(auto)]

ghost use Rattle.std.specs.Prelude.{◌≡◌, List, [], map, IfOk};
ghost use Rattle.host_commands.specs.declared.command.Command.{Command};
ghost use Rattle.simfile.specs.Script.{head};
ghost use Rattle.simfile.specs.declared.lines.Version.TheVariants as version;
ghost use Rattle.written_scripts.specs.Reading.{TurnsLines};
ghost use Rattle.written_scripts.specs.Written.{IsTextOf, IsWritten, Turns};

use crate::files::NamedFile;
use crate::lines::lines_of;
use crate::places::{PlainScript, Turned};
use crate::reading::add_line;
use script_lines::is_version_line;
use std::alloc::{AllocError, Global};

/// The first line of a plain script of version 3.
const VERSION_THREE: &[u8] = b"clsim 3\n";

/// The plain text of a script without commands.
fn no_commands(alloc: Global) -> Result<PlainScript, AllocError>
    ensures text { IfOk result (λ plain. plain.text.items ≡ head version.Three) }
    ensures places { IfOk result (λ plain. plain.places.items ≡ []) }
{
    Ok(PlainScript {
        text: VERSION_THREE.to_vec(alloc)?,
        places: Vec::new(alloc),
    })
}

/// What comes of the lines behind the first one.
fn turned(alloc: Global, files: &[NamedFile], lines: &[&[u8]]) -> Result<Turned, AllocError>
    ensures { IfOk result (TurnsLines files.now (map (λ line. line.now) lines.now)) }
{
    let mut plain = no_commands(alloc)?;
    let mut at = 0;
    while at < lines.len() {
        let Some(taken) = add_line(
            alloc,
            files,
            at + 2,
            lines[at],
            &lines[at + 1..],
            &mut plain,
        )?
        else {
            return Ok(Turned::BadLine(at + 2));
        };
        at += 1 + taken;
    }
    Ok(Turned::Plain(plain))
}

/// The plain script of the commands that a script of version 3 tells, with their places in that one. It has a bad line
/// where one says nothing that version 3 has, lacks lines of its source, names a file that isn't among those given, has
/// a source of more than 65,536 lines or of none, or is that of the 4,097th command. The last line may lack its line
/// feed, and so may that of a file.
pub fn plain_script(alloc: Global, script: &[u8], files: &[NamedFile]) -> Result<Turned, AllocError>
    ensures turned { IfOk result (Turns files.now script.now) }
    ensures only { (commands : List Command) → IsWritten files.now script.now commands → IfOk result (IsTextOf commands) }
{
    let lines = lines_of(alloc, script)?;
    let Some((first, behind)) = lines.as_slice().split_first() else {
        return Ok(Turned::Other);
    };
    if !is_version_line(alloc, first)? {
        return Ok(Turned::Other);
    }
    turned(alloc, files, behind)
}
