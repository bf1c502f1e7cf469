//! The forms that version 3 adds, each read from the front of a line's plain text.
#![tactic(auto)]

ghost use Rattle.std.specs.Prelude.{◌≡◌, IfOk, option_map};
ghost use Rattle.script_lines.specs.Reading.{last_name, last_number, last_path, write_numbers_at, fill_numbers_at, read_numbers_at, source_lines_at, source_until_at, source_file_at, program_at};
ghost use Rattle.script_lines.specs.Says.{is_path};

use crate::numbers::{MAX_NAME, kind_at, numbers_at};
use crate::says::LineSays;
use clmodel::text::{Bytes, Name};
use host_commands::command::Command;
use std::alloc::{AllocError, Global};
use text_lines::{after, name_before, number_before};

/// The most lines of a source.
const MAX_SOURCE_LINES: u64 = 65_536;

/// A `write` of numbers, behind that word.
#[tactic(auto, unfolding(crate::specs::Reading::write_numbers_at))]
pub(crate) fn write_numbers(alloc: Global, bytes: &[u8]) -> Result<Option<LineSays>, AllocError>
    ensures { IfOk result (λ told. told ≡ write_numbers_at bytes.now) }
{
    let Some((buffer, rest)) = name_before(b' ', MAX_NAME, bytes) else {
        return Ok(None);
    };
    let Some((offset, rest)) = number_before(b' ', rest) else {
        return Ok(None);
    };
    let Some((kind, rest)) = kind_at(rest) else {
        return Ok(None);
    };
    let Some(bytes) = numbers_at(alloc, kind, rest)? else {
        return Ok(None);
    };
    let buffer = Name::copy_of(alloc, buffer)?;
    Ok(Some(LineSays::Command(Command::Write {
        buffer,
        offset,
        bytes,
    })))
}

/// A `fill` with a pattern of numbers, behind that word.
#[tactic(auto, unfolding(crate::specs::Reading::fill_numbers_at))]
pub(crate) fn fill_numbers(alloc: Global, bytes: &[u8]) -> Result<Option<LineSays>, AllocError>
    ensures { IfOk result (λ told. told ≡ fill_numbers_at bytes.now) }
{
    let Some((buffer, rest)) = name_before(b' ', MAX_NAME, bytes) else {
        return Ok(None);
    };
    let Some((offset, rest)) = number_before(b' ', rest) else {
        return Ok(None);
    };
    let Some((count, rest)) = number_before(b' ', rest) else {
        return Ok(None);
    };
    let Some((kind, rest)) = kind_at(rest) else {
        return Ok(None);
    };
    let Some(pattern) = numbers_at(alloc, kind, rest)? else {
        return Ok(None);
    };
    let buffer = Name::copy_of(alloc, buffer)?;
    Ok(Some(LineSays::Command(Command::Fill {
        buffer,
        offset,
        count,
        pattern,
    })))
}

/// A number that ends the text.
#[tactic(auto, unfolding(crate::specs::Reading::last_number))]
fn last_number(bytes: &[u8]) -> Option<u64>
    ensures { result ≡ last_number bytes.now }
{
    let (number, rest) = number_before(b'\n', bytes)?;
    if !rest.is_empty() {
        return None;
    }
    Some(number)
}

/// A name that ends the text.
#[tactic(auto, unfolding(crate::specs::Reading::last_name))]
fn last_name(bytes: &[u8]) -> Option<&[u8]>
    ensures { option_map (λ name. name.now) result ≡ last_name bytes.now }
{
    let (name, rest) = name_before(b'\n', MAX_NAME, bytes)?;
    if !rest.is_empty() {
        return None;
    }
    Some(name)
}

/// Whether bytes are a path: some, and none of them a space or a line feed.
fn is_path(bytes: &[u8]) -> bool
    ensures { result ≡ is_path bytes.now }
{
    !bytes.is_empty() && bytes.iter().all(|byte| *byte != b' ' && *byte != b'\n')
}

/// A path that ends the text.
#[tactic(auto, unfolding(crate::specs::Reading::last_path))]
fn last_path(bytes: &[u8]) -> Option<&[u8]>
    ensures { option_map (λ path. path.now) result ≡ last_path bytes.now }
{
    let path = bytes.strip_suffix(b"\n")?;
    if !is_path(path) {
        return None;
    }
    Some(path)
}

/// A `read` of numbers, behind that word.
#[tactic(auto, unfolding(crate::specs::Reading::read_numbers_at))]
pub(crate) fn read_numbers(alloc: Global, bytes: &[u8]) -> Result<Option<LineSays>, AllocError>
    ensures { IfOk result (λ told. told ≡ read_numbers_at bytes.now) }
{
    let Some((buffer, rest)) = name_before(b' ', MAX_NAME, bytes) else {
        return Ok(None);
    };
    let Some((offset, rest)) = number_before(b' ', rest) else {
        return Ok(None);
    };
    let Some((kind, rest)) = kind_at(rest) else {
        return Ok(None);
    };
    let Some(count) = last_number(rest) else {
        return Ok(None);
    };
    if count > u64::MAX / u64::from(kind.bits() / 8) {
        return Ok(None);
    }
    let buffer = Name::copy_of(alloc, buffer)?;
    Ok(Some(LineSays::ReadNumbers {
        buffer,
        offset,
        kind,
        count,
    }))
}

/// A program of which so many source lines follow, behind its name.
#[tactic(auto, unfolding(crate::specs::Reading::source_lines_at))]
fn source_lines(alloc: Global, name: &[u8], bytes: &[u8]) -> Result<Option<LineSays>, AllocError>
    ensures { IfOk result (λ told. told ≡ source_lines_at name.now bytes.now) }
{
    let Some(count) = last_number(bytes) else {
        return Ok(None);
    };
    if count == 0 || count > MAX_SOURCE_LINES {
        return Ok(None);
    }
    let name = Name::copy_of(alloc, name)?;
    Ok(Some(LineSays::SourceLines { name, count }))
}

/// A program of which the source lines follow up to a word, behind the word `until`.
#[tactic(auto, unfolding(crate::specs::Reading::source_until_at))]
fn source_until(alloc: Global, name: &[u8], bytes: &[u8]) -> Result<Option<LineSays>, AllocError>
    ensures { IfOk result (λ told. told ≡ source_until_at name.now bytes.now) }
{
    let Some(word) = last_name(bytes) else {
        return Ok(None);
    };
    let name = Name::copy_of(alloc, name)?;
    let word = Name::copy_of(alloc, word)?;
    Ok(Some(LineSays::SourceUntil { name, word }))
}

/// A program whose source is that of a file, behind the word `file`.
#[tactic(auto, unfolding(crate::specs::Reading::source_file_at))]
fn source_file(alloc: Global, name: &[u8], bytes: &[u8]) -> Result<Option<LineSays>, AllocError>
    ensures { IfOk result (λ told. told ≡ source_file_at name.now bytes.now) }
{
    let Some(path) = last_path(bytes) else {
        return Ok(None);
    };
    let name = Name::copy_of(alloc, name)?;
    let path = Bytes::copy_of(alloc, path)?;
    Ok(Some(LineSays::SourceFile { name, path }))
}

/// A `program`, behind that word.
#[tactic(auto, unfolding(crate::specs::Reading::program_at))]
pub(crate) fn program(alloc: Global, bytes: &[u8]) -> Result<Option<LineSays>, AllocError>
    ensures { IfOk result (λ told. told ≡ program_at bytes.now) }
{
    let Some((name, rest)) = name_before(b' ', MAX_NAME, bytes) else {
        return Ok(None);
    };
    if let Some(rest) = after(b"until ", rest) {
        return source_until(alloc, name, rest);
    }
    if let Some(rest) = after(b"file ", rest) {
        return source_file(alloc, name, rest);
    }
    source_lines(alloc, name, rest)
}
