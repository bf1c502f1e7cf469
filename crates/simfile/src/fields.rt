//! The fields of a script's line.
#![tactic(auto)]

ghost use Rattle.std.specs.Prelude.{◌≡◌, ◌<◌, ◌≤◌, ◌/◌, not, true, length, take, position, IfSome, IfOk};
ghost use Rattle.std.specs.List.{list_all};
ghost use Rattle.std.specs.Option.{option_map};
ghost use Rattle.text_lines.specs.Fronts.{front_length, before};
ghost use Rattle.simfile.specs.Fields.{numbers_of, is_hex_digit, hex_value, bytes_of};
ghost use Rattle.simfile.specs.Reading.{name_at, list_at, hex_at, lines_end, lines_at};

use clmodel::text::{Bytes, Numbers};
use std::alloc::{AllocError, Global};
use text_lines::{after, list_below, name_to, number_below};

/// The most bytes of a name.
const MAX_NAME: usize = 63;

/// Each number of a list is below it.
const NUMBER_LIMIT: u128 = 1 << 64;

/// A name in front, and the rest.
pub fn name_at(bytes: &[u8]) -> Option<(&[u8], &[u8])>
    ensures { option_map (λ read. (read.0.now, read.1.now)) result ≡ name_at bytes.now }
{
    name_to(MAX_NAME, bytes)
}

/// A name in front of a byte, and the rest behind that byte.
pub fn name_before(end: u8, bytes: &[u8]) -> Option<(&[u8], &[u8])>
    ensures { option_map (λ read. (read.0.now, read.1.now)) result ≡ before end (name_at bytes.now) }
{
    text_lines::name_before(end, MAX_NAME, bytes)
}

/// A list of numbers in front, and the rest.
pub fn list_at(bytes: &[u8]) -> Option<(&[u8], &[u8])>
    ensures { option_map (λ read. (read.0.now, read.1.now)) result ≡ list_at bytes.now }
{
    list_below(NUMBER_LIMIT, bytes)
}

/// A list of numbers in front of a byte, and the rest behind that byte.
pub fn list_before(end: u8, bytes: &[u8]) -> Option<(&[u8], &[u8])>
    ensures { option_map (λ read. (read.0.now, read.1.now)) result ≡ before end (list_at bytes.now) }
{
    text_lines::list_before(end, NUMBER_LIMIT, bytes)
}

/// The numbers of a list.
pub fn numbers_of(alloc: Global, text: &[u8]) -> Result<Numbers, AllocError>
    ensures { IfOk result (λ numbers. numbers ≡ numbers_of text.now) }
{
    let parts = text.split(|byte| *byte == b',');
    let numbers = parts.map(|digits| number_below(NUMBER_LIMIT, digits).unwrap_or(0));
    Ok(Numbers::new(numbers.collect(alloc)?))
}

/// Whether a byte is a decimal digit or one of the small letters `a` to `f`.
#[tactic(auto, unfolding(crate::specs::Fields::is_hex_digit))]
fn is_hex_digit(byte: u8) -> bool
    ensures { result ≡ is_hex_digit byte }
{
    byte.is_ascii_digit() || (b'a'..=b'f').contains(&byte)
}

/// The bytes that are tested at once.
const BLOCK: usize = 128;

/// Whether all bytes are hexadecimal digits. It tests each, so that none is waited for.
fn are_hex_digits(bytes: &[u8]) -> bool
    ensures { result ≡ list_all is_hex_digit bytes.now }
{
    let mut all = true;
    for byte in bytes {
        all = all & is_hex_digit(*byte);
    }
    all
}

/// Where the first block ends that isn't of digits alone, or the last whole block.
fn hex_blocks(bytes: &[u8]) -> usize
    ensures digits { list_all is_hex_digit (take result bytes.now) ≡ true }
    ensures within { result ≤ length bytes.now }
{
    let blocks = bytes.len() / BLOCK;
    for index in 0..blocks {
        if !are_hex_digits(&bytes[BLOCK * index..BLOCK * index + BLOCK]) {
            return BLOCK * index;
        }
    }
    BLOCK * blocks
}

/// The place of the first byte that is no hexadecimal digit, if there is one.
fn hex_end(bytes: &[u8]) -> Option<usize>
    ensures value { result ≡ position (λ b. not (is_hex_digit b)) bytes.now }
    ensures within { IfSome result (λ end. end < length bytes.now) }
{
    bytes.iter().position(|byte| !is_hex_digit(*byte))
}

/// How many digits stand in front, found one by one.
fn digits_in_front(bytes: &[u8]) -> usize
    ensures value { result ≡ front_length is_hex_digit bytes.now }
    ensures within { result ≤ length bytes.now }
{
    hex_end(bytes).unwrap_or(bytes.len())
}

/// How many digits stand in front, found by whole blocks and then one by one.
fn hex_length(bytes: &[u8]) -> usize
    ensures value { result ≡ front_length is_hex_digit bytes.now }
    ensures within { result ≤ length bytes.now }
{
    let whole = hex_blocks(bytes);
    whole + digits_in_front(&bytes[whole..])
}

/// The most digits of the bytes of a line.
const MAX_DIGITS: usize = 2_097_152;

/// Pairs of hexadecimal digits in front, of 1 to 1,048,576 bytes, and the rest.
#[tactic(auto, unfolding(crate::specs::Reading::hex_at))]
fn hex_at(bytes: &[u8]) -> Option<(&[u8], &[u8])>
    ensures { option_map (λ read. (read.0.now, read.1.now)) result ≡ hex_at bytes.now }
{
    let length = hex_length(bytes);
    if length == 0 || length > MAX_DIGITS || length % 2 != 0 {
        return None;
    }
    Some(bytes.split_at(length))
}

/// Pairs of hexadecimal digits, of 1 to 1,048,576 bytes, in front of a byte, and the rest behind that byte.
#[tactic(auto, unfolding(text_lines::specs::Fronts::before))]
pub fn hex_before(end: u8, bytes: &[u8]) -> Option<(&[u8], &[u8])>
    ensures { option_map (λ read. (read.0.now, read.1.now)) result ≡ before end (hex_at bytes.now) }
{
    let (field, rest) = hex_at(bytes)?;
    let rest = after(&[end], rest)?;
    Some((field, rest))
}

/// What a hexadecimal digit stands for, and 0 for another byte.
fn hex_value(byte: u8) -> u8
    ensures value { result ≡ hex_value byte }
    ensures within { result < 16 }
{
    match byte {
        b'0'..=b'9' => byte - b'0',
        b'a'..=b'f' => byte - (b'a' - 10),
        _ => 0,
    }
}

/// Writes the bytes that pairs of digits write over others, of which there are as many.
fn read_pairs(digits: &[u8], bytes: &mut [u8])
    requires { length bytes.old ≡ length digits.now / 2 }
    ensures { bytes.new ≡ bytes_of digits.now }
{
    for index in 0..bytes.len() {
        bytes[index] = 16 * hex_value(digits[2 * index]) + hex_value(digits[2 * index + 1]);
    }
}

/// The bytes that pairs of digits write.
pub fn bytes_of(alloc: Global, digits: &[u8]) -> Result<Bytes, AllocError>
    ensures { IfOk result (λ bytes. bytes ≡ bytes_of digits.now) }
{
    let mut bytes = vec![in alloc; 0; digits.len() / 2]?;
    read_pairs(digits, bytes.as_mut_slice());
    Ok(Bytes::new(bytes))
}

/// Where the first `count` lines end, each with its line feed.
fn lines_end(count: u64, bytes: &[u8]) -> Option<usize>
    requires { 0 < count }
    ensures value { result ≡ lines_end count 0 bytes.now }
    ensures within { IfSome result (λ end. end ≤ length bytes.now) }
{
    let mut left = count;
    for (index, byte) in bytes.iter().enumerate() {
        if *byte == b'\n' {
            if left == 1 {
                return Some(index + 1);
            }
            left -= 1;
        }
    }
    None
}

/// The first `count` lines, and the rest.
#[tactic(auto, unfolding(crate::specs::Reading::lines_at))]
pub fn lines_at(count: u64, bytes: &[u8]) -> Option<(&[u8], &[u8])>
    requires { 0 < count }
    ensures { option_map (λ read. (read.0.now, read.1.now)) result ≡ lines_at count bytes.now }
{
    let end = lines_end(count, bytes)?;
    Some(bytes.split_at(end))
}
