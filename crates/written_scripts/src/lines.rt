//! The lines of a script, and the source that some of them are.
#![tactic(auto)]

ghost use Rattle.std.specs.Prelude.{◌≡◌, ◌≤◌, ◌<◌, map, length, take, IfOk, IfSome};
ghost use Rattle.written_scripts.specs.Lines.{before_end, ended, first_end, lines_of, lines_text};

use script_lines::ends_source;
use std::alloc::{AllocError, Global};

/// A text without the line feed at its end, where it has one.
fn before_end(text: &[u8]) -> &[u8]
    ensures { result.now ≡ before_end text.now }
{
    match text.strip_suffix(b"\n") {
        Some(front) => front,
        None => text,
    }
}

/// The lines of a text, without their line feeds. The last one may lack it in the text.
pub(crate) fn lines_of(alloc: Global, text: &[u8]) -> Result<Vec<&[u8]>, AllocError>
    ensures { IfOk result (λ lines. map (λ line. line.now) lines.items ≡ lines_of text.now) }
{
    let front = before_end(text);
    let parts = front.split(|byte| *byte == b'\n');
    parts.collect(alloc)
}

/// The text of the first so many lines, each with its line feed.
pub(crate) fn lines_text(
    alloc: Global,
    lines: &[&[u8]],
    count: usize,
) -> Result<Vec<u8>, AllocError>
    requires { count ≤ length lines.now }
    ensures { IfOk result (λ text. text.items ≡ lines_text (take count (map (λ line. line.now) lines.now))) }
{
    let mut text = Vec::new(alloc);
    for index in 0..count {
        text.extend_from_slice(lines[index])?;
        text.push(b'\n')?;
    }
    Ok(text)
}

/// The text of a file, with a line feed behind its last line.
pub(crate) fn ended(alloc: Global, text: &[u8]) -> Result<Vec<u8>, AllocError>
    ensures { IfOk result (λ source. source.items ≡ ended text.now) }
{
    let mut source = before_end(text).to_vec(alloc)?;
    source.push(b'\n')?;
    Ok(source)
}

/// How many lines stand in front of the first one that is a word, with blanks round it or without.
pub(crate) fn first_end(
    alloc: Global,
    word: &[u8],
    lines: &[&[u8]],
) -> Result<Option<usize>, AllocError>
    ensures value { IfOk result (λ count. count ≡ first_end word.now (map (λ line. line.now) lines.now)) }
    ensures within { IfOk result (λ count. IfSome count (λ n. n < length lines.now)) }
{
    for index in 0..lines.len() {
        if ends_source(alloc, word, lines[index])? {
            return Ok(Some(index));
        }
    }
    Ok(None)
}
