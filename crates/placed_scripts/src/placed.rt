//! A script as it is told: by its own text, or by the one that a user wrote and of which it was made.
#![tactic(auto)]

ghost use Rattle.std.specs.Prelude.{◌≡◌, ◌<◌, ◌≤◌, [], length, option_map};
ghost use Rattle.placed_scripts.specs.Placed.{IsPlaced, IsToldBy, chosen, file_at, told_by};

use clmodel::text::Bytes;
use simfile::script::CommandPlace;

/// A script as it is told: a text, where each of its commands stands there, and of each command the name of the file
/// that has its source, where that is another one.
#[derive(Clone, Copy)]
pub struct PlacedScript<'a> {
    pub text: &'a [u8],
    /// For the commands in their order
    pub places: &'a [CommandPlace],
    /// For the commands in their order, as far as one is named
    pub files: &'a [Option<Bytes>],
}

impl<'a> PlacedScript<'a> {
    /// Where the command of a number stands; at the end of the text, where its place is behind that.
    pub fn place(&self, number: usize) -> CommandPlace
        requires { number < length self.now.places.now }
        ensures placed { IsPlaced self.now number result }
        ensures within { result.at ≤ length self.now.text.now }
    {
        let place = self.places[number];
        CommandPlace {
            at: place.at.min(self.text.len()),
            line: place.line,
            source_line: place.source_line,
        }
    }

    /// The name of the file that has the source of the command of a number, where it is another one than the script.
    pub fn file(&self, number: usize) -> Option<&'a [u8]>
        ensures { option_map (λ name. name.now) result ≡ file_at self.now.files.now number }
    {
        match self.files.get(number) {
            Some(Some(name)) => Some(name.as_slice()),
            _ => None,
        }
    }
}

/// Another text in place of a script's own, where it has as many places.
fn chosen<'a>(own: PlacedScript<'a>, written: PlacedScript<'a>) -> PlacedScript<'a>
    ensures is { result ≡ chosen own.entry written.entry }
    ensures count { length result.places.now ≡ length own.entry.places.now }
{
    if written.places.len() == own.places.len() {
        written
    } else {
        own
    }
}

/// The text that is given, where it has as many places, or else a script's own.
fn told_by<'a>(own: PlacedScript<'a>, written: Option<PlacedScript<'a>>) -> PlacedScript<'a>
    ensures is { result ≡ told_by own.entry written.entry }
    ensures count { length result.places.now ≡ length own.entry.places.now }
{
    match written {
        Some(written) => chosen(own, written),
        None => own,
    }
}

/// A script by its own text, in which its commands stand at these places.
fn own_script<'a>(script: &'a [u8], places: &'a [CommandPlace]) -> PlacedScript<'a>
    ensures text { result.text.now ≡ script.now }
    ensures places { result.places.now ≡ places.now }
    ensures files { result.files.now ≡ [] }
{
    PlacedScript {
        text: script,
        places,
        files: &[],
    }
}

/// How a script is told, in which its commands stand at these places: by the text that its user wrote, where one is
/// given with as many places, and else by its own.
pub fn told_script<'a>(
    script: &'a [u8],
    places: &'a [CommandPlace],
    written: Option<PlacedScript<'a>>,
) -> PlacedScript<'a>
    ensures { IsToldBy script.now places.now written.entry result }
{
    let own = own_script(script, places);
    told_by(own, written)
}
