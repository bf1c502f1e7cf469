//! The line of a reply, as it is shown.
#![tactic(auto)]

ghost use Rattle.std.specs.Prelude.{◌≡◌, Some};
ghost use Rattle.byte_io.specs.Sink.{Puts};
ghost use Rattle.showing.specs.Numbers.{numbers_line};
ghost use Rattle.showing.specs.Shown.{behind, front_of, line_in, next_line, shown_line};

use crate::numbers::{size_of, write_numbers};
use byte_io::pieces::{Piece, write_pieces};
use byte_io::{Write, WriteFailed};
use clnum::IntType;
use host_commands::command::Reply;
use simfile::replies::write_reply;

/// How the reply to a command is shown.
#[derive(Clone, Copy)]
pub struct Shown {
    /// The number of the command's line, from 1, where it stands in front of the reply
    pub line: Option<usize>,
    /// The type of the numbers that stand in place of bytes, where they do
    pub kind: Option<IntType>,
}

/// Writes the line of bytes that were read, as numbers of a type. Bytes behind the last whole number are left out.
fn write_data<W: Write>(kind: IntType, bytes: &[u8], writer: &mut W) -> Result<(), WriteFailed>
    ensures { Puts (W.sink writer.old) result (W.sink writer.new) (numbers_line kind bytes.now) }
{
    let count = bytes.len() / size_of(kind);
    writer.write(b"data")?;
    write_numbers(kind, bytes, count, writer)?;
    writer.write(b"\n")
}

/// Writes a reply's line, with numbers of a type in place of bytes that are whole numbers of it.
fn write_typed<W: Write>(kind: IntType, reply: &Reply, writer: &mut W) -> Result<(), WriteFailed>
    ensures { Puts (W.sink writer.old) result (W.sink writer.new) (line_in (Some kind) reply.now) }
{
    match reply {
        Reply::Data(bytes) => {
            if bytes.len() % size_of(kind) == 0 {
                write_data(kind, bytes.as_slice(), writer)
            } else {
                write_reply(reply, writer)
            }
        }
        Reply::Done | Reply::Clean | Reply::Ordered | Reply::Fault { .. } | Reply::Refused(_) => {
            write_reply(reply, writer)
        }
    }
}

/// Writes a reply's line, with numbers in place of bytes where there is a type of them.
fn write_line<W: Write>(
    kind: Option<IntType>,
    reply: &Reply,
    writer: &mut W,
) -> Result<(), WriteFailed>
    ensures { Puts (W.sink writer.old) result (W.sink writer.new) (line_in kind reply.now) }
{
    match kind {
        Some(kind) => write_typed(kind, reply, writer),
        None => write_reply(reply, writer),
    }
}

/// Writes the number of a command's line as it stands in front of a reply, where there is one.
fn write_front<W: Write>(line: Option<usize>, writer: &mut W) -> Result<(), WriteFailed>
    ensures { Puts (W.sink writer.old) result (W.sink writer.new) (front_of line) }
{
    match line {
        Some(number) => write_pieces(&[Piece::Number(number as u64), Piece::Text(": ")], writer),
        None => Ok(()),
    }
}

/// Writes a reply's line as it is shown.
fn write_shown<W: Write>(shown: Shown, reply: &Reply, writer: &mut W) -> Result<(), WriteFailed>
    ensures { Puts (W.sink writer.old) result (W.sink writer.new) (shown_line shown reply.now) }
{
    write_front(shown.line, writer)?;
    write_line(shown.kind, reply, writer)
}

/// Writes a reply's line as the first of these shows it, or as it is where none is left. Where it fails a beginning of
/// the line is written.
pub fn write_next<W: Write>(
    reply: &Reply,
    shows: &[Shown],
    writer: &mut W,
) -> Result<(), WriteFailed>
    ensures { Puts (W.sink writer.old) result (W.sink writer.new) (next_line shows.now reply.now) }
{
    match shows.split_first() {
        Some((shown, _)) => write_shown(*shown, reply, writer),
        None => write_reply(reply, writer),
    }
}

/// Those behind the first one.
pub fn behind(shows: &[Shown]) -> &[Shown]
    ensures { result.now ≡ behind shows.now }
{
    match shows.split_first() {
        Some((_, more)) => more,
        None => shows,
    }
}
