//! Bytes as numbers of an integer type (OpenCL 1.2, section 6.1.1).
#![tactic(auto)]

ghost use Rattle.std.specs.Prelude.{◌≡◌, ◌+◌, ◌*◌, ◌<◌, ◌≤◌, Some, length};
ghost use Rattle.std.specs.List.{flat_map};
ghost use Rattle.byte_io.specs.Sink.{Puts};
ghost use Rattle.clmodel.specs.Cells.{byte_count, number};
ghost use Rattle.clmodel.specs.Next.{element_width};
ghost use Rattle.showing.specs.Numbers.{cells_of, element, elements, number_text, size_of};

use byte_io::pieces::{Piece, write_pieces};
use byte_io::{Write, WriteFailed};
use clmodel::access::Width;
use clnum::{IntType, Value};

/// The width of an integer type.
fn width(kind: IntType) -> Width
    ensures { result ≡ element_width kind }
{
    match kind {
        IntType::Char | IntType::Uchar => Width::One,
        IntType::Short | IntType::Ushort => Width::Two,
        IntType::Int | IntType::Uint => Width::Four,
        IntType::Long | IntType::Ulong => Width::Eight,
    }
}

/// How many bytes a number of a type has: 1, 2, 4 or 8.
pub(crate) fn size_of(kind: IntType) -> usize
    ensures value { result ≡ size_of kind }
    ensures some { 0 < result }
{
    width(kind).bytes() as usize
}

/// The number of an element's bytes, the lowest first.
fn bits_at(bytes: &[u8], at: usize, width: Width) -> u64
    requires { at + byte_count width ≤ length bytes.now }
    ensures { number (cells_of bytes.now) at (byte_count width) ≡ Some result }
{
    match width {
        Width::One => bytes[at] as u64,
        Width::Two => u16::from_le_bytes([bytes[at], bytes[at + 1]]) as u64,
        Width::Four => {
            u32::from_le_bytes([bytes[at], bytes[at + 1], bytes[at + 2], bytes[at + 3]]) as u64
        }
        Width::Eight => u64::from_le_bytes([
            bytes[at],
            bytes[at + 1],
            bytes[at + 2],
            bytes[at + 3],
            bytes[at + 4],
            bytes[at + 5],
            bytes[at + 6],
            bytes[at + 7],
        ]),
    }
}

/// The element of this index, from 0, of an array of a type that has these bytes.
fn element(kind: IntType, bytes: &[u8], index: usize) -> i128
    requires { size_of kind * index + size_of kind ≤ length bytes.now }
    ensures { result ≡ element kind bytes.now index }
{
    let first = size_of(kind) * index;
    Value::from_bits(kind, bits_at(bytes, first, width(kind))).number()
}

/// Writes so many numbers of a type, from the first byte on, each behind a space.
pub(crate) fn write_numbers<W: Write>(
    kind: IntType,
    bytes: &[u8],
    count: usize,
    writer: &mut W,
) -> Result<(), WriteFailed>
    requires { size_of kind * count ≤ length bytes.now }
    ensures { Puts (W.sink writer.old) result (W.sink writer.new) (flat_map number_text (elements kind bytes.now count)) }
{
    for index in 0..count {
        let number = element(kind, bytes, index);
        write_pieces(&[Piece::Text(" "), Piece::Signed(number)], writer)?;
    }
    Ok(())
}
