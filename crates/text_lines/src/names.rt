//! Names: letters, digits and `_`, no digit first.
#![tactic(auto)]

ghost use Rattle.std.specs.Prelude.{◌≡◌, ◌<◌, ◌≤◌, not, length, position, IfSome};
ghost use Rattle.std.specs.Option.{option_map};
ghost use Rattle.std.specs.List.{list_all};
ghost use Rattle.text_lines.specs.Texts.{is_first, is_later, is_name_to};
ghost use Rattle.text_lines.specs.Fronts.{front_length, name_to, before};

use crate::words::after;

/// Whether a byte may begin a name: a letter or `_`.
fn is_first(byte: u8) -> bool
    ensures { result ≡ is_first byte }
{
    byte.is_ascii_uppercase() || byte.is_ascii_lowercase() || byte == b'_'
}

/// Whether a byte may stand in a name behind its first one: a letter, a digit or `_`.
#[tactic(auto, unfolding(crate::specs::Texts::is_later))]
fn is_later(byte: u8) -> bool
    ensures { result ≡ is_later byte }
{
    is_first(byte) || byte.is_ascii_digit()
}

/// Whether all bytes are letters, digits and `_`.
fn are_later(bytes: &[u8]) -> bool
    ensures { result ≡ list_all is_later bytes.now }
{
    bytes.iter().all(|byte| is_later(*byte))
}

/// Whether a text is a name: 1 to `most` letters, digits and `_`, no digit first.
fn is_name_to(most: usize, text: &[u8]) -> bool
    ensures { result ≡ is_name_to most text.now }
{
    let Some((first, later)) = text.split_first() else {
        return false;
    };
    is_first(*first) && later.len() < most && are_later(later)
}

/// The place of the first byte that is no letter, no digit and no `_`, if there is one.
fn name_end(bytes: &[u8]) -> Option<usize>
    ensures value { result ≡ position (λ b. not (is_later b)) bytes.now }
    ensures within { IfSome result (λ end. end < length bytes.now) }
{
    bytes.iter().position(|byte| !is_later(*byte))
}

/// How many letters, digits and `_` stand in front.
fn name_length(bytes: &[u8]) -> usize
    ensures value { result ≡ front_length is_later bytes.now }
    ensures within { result ≤ length bytes.now }
{
    name_end(bytes).unwrap_or(bytes.len())
}

/// A name of at most `most` bytes in front, and the rest. None where the letters, digits and `_` in front are no such
/// name.
#[tactic(auto, unfolding(crate::specs::Fronts::name_to))]
pub fn name_to(most: usize, bytes: &[u8]) -> Option<(&[u8], &[u8])>
    ensures { option_map (λ read. (read.0.now, read.1.now)) result ≡ name_to most bytes.now }
{
    let (name, rest) = bytes.split_at(name_length(bytes));
    if !is_name_to(most, name) {
        return None;
    }
    Some((name, rest))
}

/// A name of at most `most` bytes in front of a byte, and the rest behind that byte.
#[tactic(auto, unfolding(crate::specs::Fronts::before))]
pub fn name_before(end: u8, most: usize, bytes: &[u8]) -> Option<(&[u8], &[u8])>
    ensures { option_map (λ read. (read.0.now, read.1.now)) result ≡ before end (name_to most bytes.now) }
{
    let (field, rest) = name_to(most, bytes)?;
    let rest = after(&[end], rest)?;
    Some((field, rest))
}
