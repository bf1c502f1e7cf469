//! Numbers in decimal without leading zeros.
#![tactic(auto)]

ghost use Rattle.std.specs.Prelude.{◌≡◌, ◌<◌, ◌≤◌, ◌==◌, ◌&&◌, ◌||◌, not, nat_lt, length, slice_index, position, if◌then◌else◌, Some, None, IfSome};
ghost use Rattle.std.specs.Char.{is_ascii_digit};
ghost use Rattle.std.specs.Option.{option_map, SomeIff};
ghost use Rattle.text_lines.specs.Texts.{is_number, value_of};
ghost use Rattle.text_lines.specs.Fronts.{front_length, number_at, negative_at, value_at, before};

use crate::words::after;

/// The place of the first byte that is no digit, if there is one.
fn number_end(bytes: &[u8]) -> Option<usize>
    ensures value { result ≡ position (λ b. not (is_ascii_digit b)) bytes.now }
    ensures within { IfSome result (λ end. end < length bytes.now) }
{
    bytes.iter().position(|byte| !byte.is_ascii_digit())
}

/// How many digits stand in front.
fn number_length(bytes: &[u8]) -> usize
    ensures value { result ≡ front_length is_ascii_digit bytes.now }
    ensures within { result ≤ length bytes.now }
{
    number_end(bytes).unwrap_or(bytes.len())
}

/// The number that digits write, if it is below 2^64.
fn value_of(digits: &[u8]) -> Option<u64>
    ensures { SomeIff result (value_of digits.now < 18446744073709551616) (value_of digits.now) }
{
    let mut value = 0u64;
    for digit in digits {
        let units = u64::from(digit.saturating_sub(b'0'));
        value = value.checked_mul(10)?.checked_add(units)?;
    }
    Some(value)
}

/// Whether digits write no number: there is none, or a zero leads others.
fn is_malformed(digits: &[u8]) -> bool
    ensures { result ≡
        not (nat_lt 0 (length digits.now) && (not (slice_index digits.now 0 == 48) || (length digits.now == 1))) }
{
    match digits.first() {
        None => true,
        Some(first) => *first == b'0' && digits.len() != 1,
    }
}

/// The number that digits write, in decimal without leading zeros, if it is below 2^64.
pub fn number_of(digits: &[u8]) -> Option<u64>
    ensures { result ≡ (if is_number digits.now then Some (value_of digits.now) else None) }
{
    if is_malformed(digits) {
        return None;
    }
    value_of(digits)
}

/// A number below 2^64 in front, and the rest. None where the digits in front write no such number.
#[tactic(auto, unfolding(crate::specs::Fronts::number_at))]
pub fn number_at(bytes: &[u8]) -> Option<(u64, &[u8])>
    ensures { option_map (λ read. (read.0, read.1.now)) result ≡ number_at bytes.now }
{
    let (digits, rest) = bytes.split_at(number_length(bytes));
    Some((number_of(digits)?, rest))
}

/// A number below 2^64 in front of a byte, and the rest behind that byte.
#[tactic(auto, unfolding(crate::specs::Fronts::before))]
pub fn number_before(end: u8, bytes: &[u8]) -> Option<(u64, &[u8])>
    ensures { option_map (λ read. (read.0, read.1.now)) result ≡ before end (number_at bytes.now) }
{
    let (field, rest) = number_at(bytes)?;
    let rest = after(&[end], rest)?;
    Some((field, rest))
}

/// A number from 1 to 2^63 in front, as the one below 0, and the rest.
#[tactic(auto, unfolding(crate::specs::Fronts::negative_at))]
fn negative_at(bytes: &[u8]) -> Option<(i128, &[u8])>
    ensures { option_map (λ read. (read.0, read.1.now)) result ≡ negative_at bytes.now }
{
    let (number, rest) = number_at(bytes)?;
    if number == 0 || number > 1 << 63 {
        return None;
    }
    Some((-i128::from(number), rest))
}

/// A number from -2^63 to 2^64 - 1 in front, behind `-` where it is below 0, and the rest.
#[tactic(auto, unfolding(crate::specs::Fronts::value_at, crate::specs::Fronts::positive_at))]
pub fn value_at(bytes: &[u8]) -> Option<(i128, &[u8])>
    ensures { option_map (λ read. (read.0, read.1.now)) result ≡ value_at bytes.now }
{
    if let Some(digits) = after(b"-", bytes) {
        return negative_at(digits);
    }
    let (number, rest) = number_at(bytes)?;
    Some((i128::from(number), rest))
}
