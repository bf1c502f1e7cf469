//! How the replies of a run are shown, as its command line asks for.
#![tactic(auto)]

ghost use Rattle.std.specs.Prelude.{◌≡◌, IfOk, IfErr};
ghost use Rattle.clsim.specs.Shows.{ShowText, plain_shows, shown_of, written_shows};
ghost use Rattle.simfile.specs.Faults.{NoScript};

use clnum::IntType;
use showing::Shown;
use simfile::faults::RunFault;
use simfile::script::{CommandPlace, read_script};
use std::alloc::{AllocError, Global};
use written_scripts::WrittenPlace;

/// What a command line asks for of each reply.
#[derive(Clone, Copy)]
pub(crate) struct ReplyStyle {
    /// The line of its command in front of it
    pub lines: bool,
    /// Numbers in place of bytes, where its command names their type
    pub numbers: bool,
}

/// How the reply to the command of a line is shown, which names a type or none.
fn shown_of(style: ReplyStyle, line: usize, kind: Option<IntType>) -> Shown
    ensures { result ≡ shown_of style line kind }
{
    Shown {
        line: if style.lines { Some(line) } else { None },
        kind: if style.numbers { kind } else { None },
    }
}

/// How the replies to the commands of a script of version 3 are shown, which stand at these places.
pub(crate) fn written_shows(
    alloc: Global,
    places: &[WrittenPlace],
    style: ReplyStyle,
) -> Result<Vec<Shown>, AllocError>
    ensures { IfOk result (λ shows. shows.items ≡ written_shows style places.now) }
{
    let mut shows = Vec::new(alloc);
    for place in places {
        shows.push(shown_of(style, place.line, place.kind))?;
    }
    Ok(shows)
}

/// How the replies to the commands of a plain script are shown, which stand at these places.
fn plain_shows(
    alloc: Global,
    places: &[CommandPlace],
    style: ReplyStyle,
) -> Result<Vec<Shown>, AllocError>
    ensures { IfOk result (λ shows. shows.items ≡ plain_shows style places.now) }
{
    let mut shows = Vec::new(alloc);
    for place in places {
        shows.push(shown_of(style, place.line, None))?;
    }
    Ok(shows)
}

/// How the replies to the commands of a plain script are shown. A text that is no script has a bad line.
pub(crate) fn text_shows(
    alloc: Global,
    text: &[u8],
    style: ReplyStyle,
) -> Result<Vec<Shown>, RunFault>
    ensures shown { IfOk result (λ shows. ShowText style text.now shows.items) }
    ensures bad { IfErr result (NoScript text.now) }
{
    let script = read_script(alloc, text)?;
    Ok(plain_shows(alloc, script.places.as_slice(), style)?)
}
