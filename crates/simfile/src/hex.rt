//! Bytes as hexadecimal digits.
#![tactic(auto)]

ghost use Rattle.std.specs.Prelude.{◌≡◌, ◌<◌, ◌≤◌, ◌*◌, length, take};
ghost use Rattle.std.specs.List.{flat_map};
ghost use Rattle.byte_io.specs.Sink.{Puts};
ghost use Rattle.simfile.specs.Fields.{byte_text, hex_digit};

use byte_io::{Write, WriteFailed};

/// The hexadecimal digit of a value, in lower case.
fn hex_digit(value: u8) -> u8
    requires { value < 16 }
    ensures { result ≡ hex_digit value }
{
    if value < 10 {
        b'0' + value
    } else {
        b'a' + (value - 10)
    }
}

/// Puts two digits for each byte in front of a text.
fn put_digits(bytes: &[u8], text: &mut [u8])
    requires { 2 * length bytes.now ≤ length text.old }
    ensures { take (2 * length bytes.now) text.new ≡ flat_map byte_text bytes.now }
{
    for (index, byte) in bytes.iter().enumerate() {
        text[2 * index] = hex_digit(*byte / 16);
        text[2 * index + 1] = hex_digit(*byte % 16);
    }
}

/// The most bytes whose digits are written at once.
const CHUNK: usize = 256;

/// Writes two lower-case hexadecimal digits for each of at most 256 bytes.
fn write_chunk<W: Write>(bytes: &[u8], writer: &mut W) -> Result<(), WriteFailed>
    requires { length bytes.now ≤ 256 }
    ensures { Puts (W.sink writer.old) result (W.sink writer.new) (flat_map byte_text bytes.now) }
{
    let mut text = [0; 2 * CHUNK];
    put_digits(bytes, &mut text);
    writer.write(&text[..2 * bytes.len()])
}

/// Writes two lower-case hexadecimal digits for each byte of so many whole chunks in front.
fn write_chunks<W: Write>(chunks: usize, bytes: &[u8], writer: &mut W) -> Result<(), WriteFailed>
    requires { 256 * chunks ≤ length bytes.now }
    ensures { Puts (W.sink writer.old) result (W.sink writer.new) (flat_map byte_text (take (256 * chunks) bytes.now)) }
{
    for index in 0..chunks {
        write_chunk(&bytes[CHUNK * index..CHUNK * index + CHUNK], writer)?;
    }
    Ok(())
}

/// Writes two lower-case hexadecimal digits for each byte.
pub fn write_hex<W: Write>(bytes: &[u8], writer: &mut W) -> Result<(), WriteFailed>
    ensures { Puts (W.sink writer.old) result (W.sink writer.new) (flat_map byte_text bytes.now) }
{
    let chunks = bytes.len() / CHUNK;
    write_chunks(chunks, bytes, writer)?;
    write_chunk(&bytes[CHUNK * chunks..], writer)
}
