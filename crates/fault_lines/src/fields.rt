//! The fields of a fault's line, each read from the front of bytes.
#![tactic(auto)]

ghost use Rattle.std.specs.Prelude.{◌≡◌, ◌<◌, ◌≤◌, not, length, position, if◌then◌else◌, Some, None, IfSome};
ghost use Rattle.std.specs.Option.{option_map};
ghost use Rattle.text_lines.specs.Texts.{value_of};
ghost use Rattle.text_lines.specs.Fronts.{front_length, before};
ghost use Rattle.fault_lines.specs.Fields.{is_turn};
ghost use Rattle.fault_lines.specs.Reading.{name_at, number32_at, signed_at, list_at, is_inner, line_of};

use text_lines::{after, number_at, number_below, value_at};

/// The most bytes of a name.
const MAX_NAME: usize = 65_536;

/// Each turn of a loop is below it.
const TURN_LIMIT: u128 = 1 << 32;

/// A name in front of a byte, and the rest behind that byte.
pub fn name_before(end: u8, bytes: &[u8]) -> Option<(&[u8], &[u8])>
    ensures { option_map (λ read. (read.0.now, read.1.now)) result ≡ before end (name_at bytes.now) }
{
    text_lines::name_before(end, MAX_NAME, bytes)
}

/// A number below 2^32 in front, and the rest.
#[tactic(auto, unfolding(crate::specs::Reading::number32_at))]
pub fn number32_at(bytes: &[u8]) -> Option<(u32, &[u8])>
    ensures { option_map (λ read. (read.0, read.1.now)) result ≡ number32_at bytes.now }
{
    let (number, rest) = number_at(bytes)?;
    if number >= 1 << 32 {
        return None;
    }
    Some((number as u32, rest))
}

/// A number below 2^32 in front of a byte, and the rest behind that byte.
#[tactic(auto, unfolding(text_lines::specs::Fronts::before))]
pub fn number32_before(end: u8, bytes: &[u8]) -> Option<(u32, &[u8])>
    ensures { option_map (λ read. (read.0, read.1.now)) result ≡ before end (number32_at bytes.now) }
{
    let (field, rest) = number32_at(bytes)?;
    let rest = after(&[end], rest)?;
    Some((field, rest))
}

/// A number from -2^63 to 2^63 - 1 in front, and the rest.
#[tactic(auto, unfolding(crate::specs::Reading::signed_at))]
fn signed_at(bytes: &[u8]) -> Option<(i64, &[u8])>
    ensures { option_map (λ read. (read.0, read.1.now)) result ≡ signed_at bytes.now }
{
    let (value, rest) = value_at(bytes)?;
    Some((i64::try_from(value).ok()?, rest))
}

/// A number from -2^63 to 2^63 - 1 in front of a byte, and the rest behind that byte.
#[tactic(auto, unfolding(text_lines::specs::Fronts::before))]
pub fn signed_before(end: u8, bytes: &[u8]) -> Option<(i64, &[u8])>
    ensures { option_map (λ read. (read.0, read.1.now)) result ≡ before end (signed_at bytes.now) }
{
    let (field, rest) = signed_at(bytes)?;
    let rest = after(&[end], rest)?;
    Some((field, rest))
}

/// The number of a turn that digits write, if they write one.
pub fn turn_of(digits: &[u8]) -> Option<u32>
    ensures { result ≡ (if is_turn digits.now then Some (value_of digits.now) else None) }
{
    let number = number_below(TURN_LIMIT, digits)?;
    Some(number as u32)
}

/// A list of turns in front of a byte, and the rest behind that byte.
pub fn list_before(end: u8, bytes: &[u8]) -> Option<(&[u8], &[u8])>
    ensures { option_map (λ read. (read.0.now, read.1.now)) result ≡ before end (list_at bytes.now) }
{
    text_lines::list_before(end, TURN_LIMIT, bytes)
}

/// The place of the first line feed, if there is one.
fn line_end(bytes: &[u8]) -> Option<usize>
    ensures value { result ≡ position (λ b. not (is_inner b)) bytes.now }
    ensures within { IfSome result (λ end. end < length bytes.now) }
{
    bytes.iter().position(|byte| *byte == b'\n')
}

/// How many bytes stand in front of the first line feed, or all where there is none.
fn line_length(bytes: &[u8]) -> usize
    ensures value { result ≡ front_length is_inner bytes.now }
    ensures within { result ≤ length bytes.now }
{
    line_end(bytes).unwrap_or(bytes.len())
}

/// A line with nothing after it, its line feed left out.
#[tactic(auto, unfolding(crate::specs::Reading::line_of))]
pub fn line_of(bytes: &[u8]) -> Option<&[u8]>
    ensures { option_map (λ line. line.now) result ≡ line_of bytes.now }
{
    let (line, rest) = bytes.split_at(line_length(bytes));
    if rest != b"\n".as_slice() {
        return None;
    }
    Some(line)
}
