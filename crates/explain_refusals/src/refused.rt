//! A command that was refused, as data.
#![tactic(auto)]

ghost use Rattle.std.specs.Prelude.{◌≡◌, ◌≤◌, ◌+◌, ℕ, length, slice_range, string_bytes, IfOk};
ghost use Rattle.explanation.specs.Lines.{told_line};
ghost use Rattle.text_lines.specs.Lines.{EndsLine};
ghost use Rattle.explain_refusals.specs.Refused.{TellsRefused, reason_in};

use crate::reasons::Found;
use crate::words::{refusal_words, word_of};
use explanation::line_as_text;
use host_commands::command::Refusal;
use refused_commands::{RefusalReason, RefusedCommand, WordSpot};
use simfile::script::CommandPlace;
use std::alloc::{AllocError, Global};
use text_lines::line_text;

/// A command of a script that was refused: the name of the script and its bytes, the command's number and its place
/// there, and the refusal.
#[derive(Clone, Copy)]
pub struct RefusedAt<'a> {
    pub name: &'a [u8],
    pub script: &'a [u8],
    pub command: usize,
    pub place: CommandPlace,
    pub refusal: Refusal,
}

/// A word of the command's line, by its number from 0.
fn spot_of(alloc: Global, at: &RefusedAt<'_>, word: usize) -> Result<WordSpot, AllocError>
    requires { at.now.place.at ≤ length at.now.script.now }
    ensures line { IfOk result (λ spot. spot.line ≡ at.now.place.line) }
    ensures begins { IfOk result (λ spot. spot.offset + 1 ≡ at.now.place.at + spot.column) }
    ensures text { IfOk result (λ spot. (end : ℕ) × EndsLine at.now.script.now at.now.place.at end × (string_bytes spot.text ≡ told_line (slice_range at.now.script.now at.now.place.at end))) }
{
    let line = line_text(at.script, at.place.at);
    let (begin, length) = word_of(line, word);
    Ok(WordSpot {
        offset: at.place.at + begin,
        length,
        line: at.place.line,
        column: begin + 1,
        text: line_as_text(alloc, line)?,
    })
}

/// A reason in parts: what it is, if it is known, and the number of its word.
fn parts_of(found: Option<Found>) -> (Option<RefusalReason>, usize)
    ensures { result.0 ≡ reason_in found }
{
    match found {
        Some(found) => (Some(found.reason), found.word),
        None => (None, 0),
    }
}

/// A command that was refused, with the reason that was found. An error is out of memory.
pub fn refused_command(
    alloc: Global,
    at: &RefusedAt<'_>,
    found: Option<Found>,
) -> Result<RefusedCommand, AllocError>
    requires { at.now.place.at ≤ length at.now.script.now }
    ensures { IfOk result (TellsRefused at.now.name.now at.now.script.now at.now.command at.now.place at.now.refusal (reason_in found)) }
{
    let (number, name) = refusal_words(at.refusal);
    let (why, word) = parts_of(found);
    Ok(RefusedCommand {
        script: String::from_utf8_lossy(alloc, at.name)?,
        command: at.command as u64,
        number,
        name,
        spot: spot_of(alloc, at, word)?,
        why,
    })
}
