//! Lists of numbers below a limit, with a comma between each two.
#![tactic(auto)]

ghost use Rattle.std.specs.Prelude.{◌≡◌, ◌<◌, ◌≤◌, not, length, position, if◌then◌else◌, Some, None, IfSome};
ghost use Rattle.std.specs.Option.{option_map};
ghost use Rattle.text_lines.specs.Texts.{is_number_below, value_of, is_listed, is_list_below};
ghost use Rattle.text_lines.specs.Fronts.{front_length, list_below, before};

use crate::numbers::number_of;
use crate::words::after;

/// Whether a byte is a digit or a comma.
#[tactic(auto, unfolding(crate::specs::Texts::is_listed))]
fn is_listed(byte: u8) -> bool
    ensures { result ≡ is_listed byte }
{
    byte.is_ascii_digit() || byte == b','
}

/// The place of the first byte that is no digit and no comma, if there is one.
fn list_end(bytes: &[u8]) -> Option<usize>
    ensures value { result ≡ position (λ b. not (is_listed b)) bytes.now }
    ensures within { IfSome result (λ end. end < length bytes.now) }
{
    bytes.iter().position(|byte| !is_listed(*byte))
}

/// How many digits and commas stand in front.
fn list_length(bytes: &[u8]) -> usize
    ensures value { result ≡ front_length is_listed bytes.now }
    ensures within { result ≤ length bytes.now }
{
    list_end(bytes).unwrap_or(bytes.len())
}

/// The number that digits write, in decimal without leading zeros, if it is below `limit` and below 2^64.
pub fn number_below(limit: u128, digits: &[u8]) -> Option<u64>
    ensures value { result ≡ (if is_number_below limit digits.now then Some (value_of digits.now) else None) }
    ensures within { IfSome result (λ number. number < limit) }
{
    let number = number_of(digits)?;
    if u128::from(number) >= limit {
        return None;
    }
    Some(number)
}

/// Whether a text is numbers below `limit` with a comma between each two.
fn is_list_below(limit: u128, text: &[u8]) -> bool
    ensures { result ≡ is_list_below limit text.now }
{
    text.split(|byte| *byte == b',').all(
        |digits: &[u8]| -> bool
            ensures { result ≡ is_number_below limit digits.now }
        { number_below(limit, digits).is_some() },
    )
}

/// A list of numbers below `limit` and below 2^64 in front, and the rest. None where the digits and commas in front are
/// no such list.
#[tactic(auto, unfolding(crate::specs::Fronts::list_below))]
pub fn list_below(limit: u128, bytes: &[u8]) -> Option<(&[u8], &[u8])>
    ensures { option_map (λ read. (read.0.now, read.1.now)) result ≡ list_below limit bytes.now }
{
    let (list, rest) = bytes.split_at(list_length(bytes));
    if !is_list_below(limit, list) {
        return None;
    }
    Some((list, rest))
}

/// A list of numbers below `limit` and below 2^64 in front of a byte, and the rest behind that byte.
#[tactic(auto, unfolding(crate::specs::Fronts::before))]
pub fn list_before(end: u8, limit: u128, bytes: &[u8]) -> Option<(&[u8], &[u8])>
    ensures { option_map (λ read. (read.0.now, read.1.now)) result ≡ before end (list_below limit bytes.now) }
{
    let (field, rest) = list_below(limit, bytes)?;
    let rest = after(&[end], rest)?;
    Some((field, rest))
}
