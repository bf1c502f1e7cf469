//! A script of version 3 as its user wrote it, with the places of its commands there.
#![tactic(auto)]

ghost use Rattle.std.specs.Prelude.{◌≡◌, IfOk, Option};
ghost use Rattle.clsim.specs.declared.own_lines.OwnLines.{OwnLines};
ghost use Rattle.clsim.specs.OwnLines.{AreLent, AreOwn, IsLent, begins_at, lines_at, lines_of};

use clmodel::text::Bytes;
use placed_scripts::PlacedScript;
use simfile::script::CommandPlace;
use std::alloc::{AllocError, Global};
use written_scripts::WrittenPlace;

/// A script as its user wrote it: its bytes, where its commands stand in them, and of each the name of the file that
/// has its source, where its line names one.
#[derive(Drop)]
pub(crate) struct OwnLines {
    pub text: Vec<u8>,
    pub places: Vec<CommandPlace>,
    pub files: Vec<Option<Bytes>>,
}

impl OwnLines {
    /// The same, lent to what is told.
    pub(crate) fn lent(&self) -> PlacedScript<'_>
        ensures { IsLent self.now result }
    {
        PlacedScript {
            text: self.text.as_slice(),
            places: self.places.as_slice(),
            files: self.files.as_slice(),
        }
    }
}

/// A script that is read as a plain text, and may have been written as another one.
pub(crate) trait Written {
    /// That other one, once it was read
    ghost lines: { Self → Option OwnLines };

    /// The same, lent to what is told.
    fn written(&self) -> Option<PlacedScript<'_>>
        ensures { AreLent (lines self.now) result };
}

/// The line in which the source of a command's program begins: the one behind its own, or the first one of a file.
fn begins_at(line: usize, in_file: bool) -> usize
    ensures { result ≡ begins_at line in_file }
{
    if in_file { 1 } else { line.saturating_add(1) }
}

/// The byte behind so many line feeds from a byte on, or the end of a text.
fn behind_feeds(text: &[u8], from: usize, feeds: usize) -> usize {
    let mut left = feeds;
    for at in from..text.len() {
        if left == 0 {
            return at;
        }
        if text[at] == b'\n' {
            left -= 1;
        }
    }
    text.len()
}

/// Where a command stands, whose line begins at a byte.
fn place_at(at: usize, place: &WrittenPlace) -> CommandPlace
    ensures { lines_at result ≡ lines_of place.now }
{
    CommandPlace {
        at,
        line: place.line,
        source_line: begins_at(place.line, place.file.is_some()),
    }
}

/// Where the commands stand whose lines are those of these places, in their order.
pub(crate) fn own_places(
    alloc: Global,
    text: &[u8],
    written: &[WrittenPlace],
) -> Result<Vec<CommandPlace>, AllocError>
    ensures { IfOk result (λ places. AreOwn written.now places.items) }
{
    let mut places = Vec::new(alloc);
    let mut at = 0;
    let mut line = 1;
    for place in written {
        at = behind_feeds(text, at, place.line.saturating_sub(line));
        line = place.line;
        places.push(place_at(at, place))?;
    }
    Ok(places)
}
