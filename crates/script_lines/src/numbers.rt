//! Numbers in decimal, as the bytes that a buffer has of them.
#![tactic(auto)]

ghost use Rattle.std.specs.Prelude.{◌≡◌, ◌++◌, length, IsTrue, IfOk, OnOk, option_map};
ghost use Rattle.clmodel.specs.Setup.{same_text};
ghost use Rattle.clnum.specs.Integer.{least, greatest, IsIn, type_word};
ghost use Rattle.script_lines.specs.Numbers.{bytes_of};
ghost use Rattle.script_lines.specs.Reading.{is_in, kind_named, kind_at, bytes_at, numbers_at};

use clmodel::text::Bytes;
use clnum::{IntType, Value};
use std::alloc::{AllocError, Global};
use text_lines::{after, name_before, value_at};

/// The most bytes of a name.
pub(crate) const MAX_NAME: usize = 63;

/// The most bytes that a line writes.
const MAX_BYTES: usize = 1_048_576;

/// The least number of a type.
fn least(kind: IntType) -> i128
    ensures { result ≡ least kind }
{
    match kind {
        IntType::Char => -0x80,
        IntType::Short => -0x8000,
        IntType::Int => -0x8000_0000,
        IntType::Long => -0x8000_0000_0000_0000,
        IntType::Uchar | IntType::Ushort | IntType::Uint | IntType::Ulong => 0,
    }
}

/// The greatest number of a type.
fn greatest(kind: IntType) -> i128
    ensures { result ≡ greatest kind }
{
    match kind {
        IntType::Char => 0x7f,
        IntType::Uchar => 0xff,
        IntType::Short => 0x7fff,
        IntType::Ushort => 0xffff,
        IntType::Int => 0x7fff_ffff,
        IntType::Uint => 0xffff_ffff,
        IntType::Long => 0x7fff_ffff_ffff_ffff,
        IntType::Ulong => 0xffff_ffff_ffff_ffff,
    }
}

/// Whether a number is one of a type.
fn is_in(kind: IntType, number: i128) -> bool
    ensures value { result ≡ is_in kind number }
    ensures in_range { IsTrue result → IsIn kind number }
{
    least(kind) <= number && number <= greatest(kind)
}

/// Whether a word is the name of a type.
fn is_name_of(kind: IntType, word: &[u8]) -> bool
    ensures { result ≡ same_text word.now (type_word kind) }
{
    word == kind.name().as_bytes()
}

/// The type that a word names.
fn kind_named(word: &[u8]) -> Option<IntType>
    ensures { result ≡ kind_named word.now }
{
    if is_name_of(IntType::Char, word) {
        return Some(IntType::Char);
    }
    if is_name_of(IntType::Uchar, word) {
        return Some(IntType::Uchar);
    }
    if is_name_of(IntType::Short, word) {
        return Some(IntType::Short);
    }
    if is_name_of(IntType::Ushort, word) {
        return Some(IntType::Ushort);
    }
    if is_name_of(IntType::Int, word) {
        return Some(IntType::Int);
    }
    if is_name_of(IntType::Uint, word) {
        return Some(IntType::Uint);
    }
    if is_name_of(IntType::Long, word) {
        return Some(IntType::Long);
    }
    if is_name_of(IntType::Ulong, word) {
        return Some(IntType::Ulong);
    }
    None
}

/// The name of a type in front of a space, and the rest behind that space.
#[tactic(auto, unfolding(crate::specs::Reading::kind_at))]
pub(crate) fn kind_at(bytes: &[u8]) -> Option<(IntType, &[u8])>
    ensures { option_map (λ read. (read.0, read.1.now)) result ≡ kind_at bytes.now }
{
    let (word, rest) = name_before(b' ', MAX_NAME, bytes)?;
    Some((kind_named(word)?, rest))
}

/// Adds the bytes of a number.
fn put_number(kind: IntType, number: i128, bytes: &mut Vec<u8>) -> Result<(), AllocError>
    requires { IsIn kind number }
    ensures { OnOk result (bytes.new.items ≡ bytes.old.items ++ bytes_of kind number) }
{
    let bits = Value::new(kind, number).bits_in(kind);
    let size = (kind.bits() / 8) as usize;
    bytes.extend_from_slice(&bits.to_le_bytes()[..size])?;
    Ok(())
}

/// The bytes of the numbers of a type that are all of a text, with a space between each two and a line feed at its end.
fn bytes_at(alloc: Global, kind: IntType, text: &[u8]) -> Result<Option<Vec<u8>>, AllocError>
    ensures { IfOk result (λ read. option_map (λ bytes. bytes.items) read ≡ bytes_at kind (length text.now) text.now) }
{
    let mut bytes = Vec::new(alloc);
    let mut rest = text;
    for _ in 0..text.len() {
        let Some((number, more)) = value_at(rest) else {
            return Ok(None);
        };
        if !is_in(kind, number) {
            return Ok(None);
        }
        put_number(kind, number, &mut bytes)?;
        if more == b"\n".as_slice() {
            return Ok(Some(bytes));
        }
        let Some(others) = after(b" ", more) else {
            return Ok(None);
        };
        rest = others;
    }
    Ok(None)
}

/// The same, where they are no more than a line may write.
#[tactic(auto, unfolding(crate::specs::Reading::numbers_at))]
pub(crate) fn numbers_at(
    alloc: Global,
    kind: IntType,
    text: &[u8],
) -> Result<Option<Bytes>, AllocError>
    ensures { IfOk result (λ read. read ≡ numbers_at kind text.now) }
{
    let Some(bytes) = bytes_at(alloc, kind, text)? else {
        return Ok(None);
    };
    if bytes.len() > MAX_BYTES {
        return Ok(None);
    }
    Ok(Some(Bytes::new(bytes)))
}
