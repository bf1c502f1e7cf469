//! Parts of a line of text, and how they are written.
#![tactic(auto)]

ghost use Rattle.std.specs.Prelude.{decimal};
ghost use Rattle.std.specs.Fmt.{signed_decimal};
ghost use Rattle.std.specs.List.{flat_map};
ghost use Rattle.byte_io.specs.Pieces.{piece_text};
ghost use Rattle.byte_io.specs.Sink.{Puts};

use crate::{Write, WriteFailed};
use itoa::Buffer;

/// A part of a line.
#[derive(Clone, Copy)]
pub enum Piece<'a> {
    Text(&'a str),
    Bytes(&'a [u8]),
    /// In decimal
    Number(u64),
    /// In decimal
    Number32(u32),
    /// In decimal, with a sign where it is below 0
    Signed(i128),
}

/// Writes a number in decimal.
pub fn write_number<W: Write>(number: u64, writer: &mut W) -> Result<(), WriteFailed>
    ensures { Puts (W.sink writer.old) result (W.sink writer.new) (decimal number) }
{
    writer.write(Buffer::new().format(number).as_bytes())
}

/// Writes a number in decimal, with a sign where it is below 0.
pub fn write_signed<W: Write>(value: i128, writer: &mut W) -> Result<(), WriteFailed>
    ensures { Puts (W.sink writer.old) result (W.sink writer.new) (signed_decimal value) }
{
    writer.write(Buffer::new().format(value).as_bytes())
}

/// Writes one piece of a text, and tells where the writer fails.
fn write_piece<W: Write>(piece: &Piece<'_>, writer: &mut W) -> Result<(), WriteFailed>
    ensures { Puts (W.sink writer.old) result (W.sink writer.new) (piece_text piece.now) }
{
    match piece {
        Piece::Text(text) => writer.write(text.as_bytes()),
        Piece::Bytes(bytes) => writer.write(bytes),
        Piece::Number(number) => write_number(*number, writer),
        Piece::Number32(number) => write_number(u64::from(*number), writer),
        Piece::Signed(value) => write_signed(*value, writer),
    }
}

/// Writes the parts one after another.
pub fn write_pieces<W: Write>(pieces: &[Piece<'_>], writer: &mut W) -> Result<(), WriteFailed>
    ensures { Puts (W.sink writer.old) result (W.sink writer.new) (flat_map piece_text pieces.now) }
{
    for piece in pieces {
        write_piece(piece, writer)?;
    }
    Ok(())
}
