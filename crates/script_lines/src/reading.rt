//! What a line says, read from its plain text.
#![tactic(auto)]

ghost use Rattle.std.specs.Prelude.{◌≡◌, Some, IfOk, IfSome};
ghost use Rattle.script_lines.specs.Reading.{plain_command_at, numbers_say_at, says_at};
ghost use Rattle.script_lines.specs.Says.{is_program, Says};
ghost use Rattle.script_lines.specs.declared.says.LineSays.{LineSays};

use crate::forms::{fill_numbers, program, read_numbers, write_numbers};
use crate::plain::plain_text;
use crate::says::LineSays;
use host_commands::command::Command;
use simfile::lines::Version;
use simfile::stepwise::read_command;
use std::alloc::{AllocError, Global};
use text_lines::after;

/// Whether a command makes a program.
fn is_program(command: &Command) -> bool
    ensures { result ≡ is_program command.now }
{
    match command {
        Command::Program { .. } => true,
        _ => false,
    }
}

/// A command that the whole text is in a plain script of version 3, other than a program.
#[tactic(auto, unfolding(crate::specs::Reading::plain_command_at))]
fn plain_command(alloc: Global, text: &[u8]) -> Result<Option<LineSays>, AllocError>
    ensures { IfOk result (λ told. told ≡ plain_command_at text.now) }
{
    let Some((command, rest)) = read_command(alloc, Version::Three, text)? else {
        return Ok(None);
    };
    if !rest.is_empty() || is_program(&command) {
        return Ok(None);
    }
    Ok(Some(LineSays::Command(command)))
}

/// A `write`, a `fill` or a `read` of numbers.
#[tactic(auto, unfolding(crate::specs::Reading::numbers_say_at))]
fn numbers_say(alloc: Global, text: &[u8]) -> Result<Option<LineSays>, AllocError>
    ensures { IfOk result (λ told. told ≡ numbers_say_at text.now) }
{
    if let Some(rest) = after(b"write ", text) {
        return write_numbers(alloc, rest);
    }
    if let Some(rest) = after(b"fill ", text) {
        return fill_numbers(alloc, rest);
    }
    match after(b"read ", text) {
        Some(rest) => read_numbers(alloc, rest),
        None => Ok(None),
    }
}

/// What a plain text says.
#[tactic(auto, unfolding(crate::specs::Reading::says_at))]
fn text_says(alloc: Global, text: &[u8]) -> Result<Option<LineSays>, AllocError>
    ensures { IfOk result (λ told. told ≡ says_at text.now) }
{
    if text == b"\n".as_slice() {
        return Ok(Some(LineSays::Nothing));
    }
    if let Some(rest) = after(b"program ", text) {
        return program(alloc, rest);
    }
    match numbers_say(alloc, text)? {
        Some(told) => Ok(Some(told)),
        None => plain_command(alloc, text),
    }
}

/// What a line says, with its line end or without it: none where it says nothing that version 3 has.
pub fn line_says(alloc: Global, line: &[u8]) -> Result<Option<LineSays>, AllocError>
    ensures found { IfOk result (λ told. IfSome told (λ says. Says line.now says)) }
    ensures only { (says : LineSays) → Says line.now says → IfOk result (λ told. told ≡ Some says) }
{
    let text = plain_text(alloc, line)?;
    text_says(alloc, text.as_slice())
}
