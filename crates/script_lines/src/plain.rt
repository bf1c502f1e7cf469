//! The words of a line, without its comment and its blanks.
#![tactic(auto)]

ghost use Rattle.std.specs.Prelude.{◌≡◌, ◌<◌, [], ◌∷◌, ◌++◌, nat_lt, map, length, position, if◌then◌else◌, IfSome, IfOk, OnOk};
ghost use Rattle.std.specs.List.{join_with_byte, before_first, after_first};
ghost use Rattle.clmodel.specs.Setup.{same_text};
ghost use Rattle.script_lines.specs.Plain.{is_blank, words_of, spaced, begins_comment, plain, comment_of, first_line};

use std::alloc::{AllocError, Global};

/// The first line of a script of version 3.
const VERSION_THREE: &[u8] = b"clsim 3\n";

/// Whether a byte is a blank: a space, a tab, or of a line end.
fn is_blank(byte: u8) -> bool
    ensures { result ≡ is_blank byte }
{
    byte == b' ' || byte == b'\t' || byte == b'\n' || byte == b'\r'
}

/// The words of a text.
fn words_of(alloc: Global, text: &[u8]) -> Result<Vec<&[u8]>, AllocError>
    ensures { IfOk result (λ words. map (λ word. word.now) words.items ≡ words_of text.now) }
{
    let parts = text.split(|byte| is_blank(*byte));
    parts.filter(|part| !part.is_empty()).collect(alloc)
}

/// Adds the space in front of the word of a number, which only the first one lacks.
fn put_space(index: usize, text: &mut Vec<u8>) -> Result<(), AllocError>
    ensures { OnOk result (text.new.items ≡ text.old.items ++ (if nat_lt 0 index then 32 ∷ [] else [])) }
{
    if index > 0 {
        text.push(b' ')?;
    }
    Ok(())
}

/// Words with a space between each two.
fn joined_words(alloc: Global, words: &[&[u8]]) -> Result<Vec<u8>, AllocError>
    ensures { IfOk result (λ text. text.items ≡ join_with_byte 32 (map (λ word. word.now) words.now)) }
{
    let mut text = Vec::new(alloc);
    for index in 0..words.len() {
        put_space(index, &mut text)?;
        text.extend_from_slice(words[index])?;
    }
    Ok(text)
}

/// The words of a text with a space between each two.
fn spaced(alloc: Global, text: &[u8]) -> Result<Vec<u8>, AllocError>
    ensures { IfOk result (λ words. words.items ≡ spaced text.now) }
{
    let words = words_of(alloc, text)?;
    joined_words(alloc, words.as_slice())
}

/// The place of the first `#` of a line, if there is one.
fn mark_at(line: &[u8]) -> Option<usize>
    ensures value { result ≡ position begins_comment line.now }
    ensures within { IfSome result (λ at. at < length line.now) }
{
    line.iter().position(|byte| *byte == b'#')
}

/// What stands in front of a line's comment.
fn before_comment(line: &[u8]) -> &[u8]
    ensures { result.now ≡ before_first begins_comment line.now }
{
    match mark_at(line) {
        Some(at) => &line[..at],
        None => line,
    }
}

/// What stands behind the first `#` of a line: nothing where there is no `#`.
fn after_mark(line: &[u8]) -> &[u8]
    ensures { result.now ≡ after_first begins_comment line.now }
{
    match mark_at(line) {
        Some(at) => &line[at + 1..],
        None => &[],
    }
}

/// The plain text of a line: the words in front of its comment with a space between each two, and a line feed.
pub fn plain_text(alloc: Global, line: &[u8]) -> Result<Vec<u8>, AllocError>
    ensures { IfOk result (λ text. text.items ≡ plain line.now) }
{
    let mut text = spaced(alloc, before_comment(line))?;
    text.push(b'\n')?;
    Ok(text)
}

/// What a line's launch is called: the words of its comment with a space between each two, none where it has no
/// comment.
pub fn comment_of(alloc: Global, line: &[u8]) -> Result<Vec<u8>, AllocError>
    ensures { IfOk result (λ comment. comment.items ≡ comment_of line.now) }
{
    spaced(alloc, after_mark(line))
}

/// Whether a line is the first one of a script of version 3.
pub fn is_version_line(alloc: Global, line: &[u8]) -> Result<bool, AllocError>
    ensures { IfOk result (λ is. is ≡ same_text (plain line.now) first_line) }
{
    let text = plain_text(alloc, line)?;
    Ok(text.as_slice() == VERSION_THREE)
}

/// Whether a line ends a source that goes up to a word: it is that word, with blanks round it or without.
pub fn ends_source(alloc: Global, word: &[u8], line: &[u8]) -> Result<bool, AllocError>
    ensures { IfOk result (λ ends. ends ≡ same_text (spaced line.now) word.now) }
{
    let words = spaced(alloc, line)?;
    Ok(words.as_slice() == word)
}
