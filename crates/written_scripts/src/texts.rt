//! The text of a command in a plain script of version 3.
#![tactic(auto)]

ghost use Rattle.std.specs.Prelude.{◌≡◌, ◌<◌, ◌≤◌, ℕ, [], ◌∷◌, length, codes, decimal, IsTrue, IfOk};
ghost use Rattle.std.specs.List.{flat_map};
ghost use Rattle.byte_io.specs.Pieces.{joined, piece_text};
ghost use Rattle.host_commands.specs.declared.command.Command.TheVariants as command;
ghost use Rattle.simfile.specs.Fields.{hex, is_name};
ghost use Rattle.simfile.specs.Script.{AreLines, IsText, line_feed, space};
ghost use Rattle.simfile.specs.declared.lines.Version.TheVariants as version;
ghost use Rattle.written_scripts.specs.Texts.{HasText};

use byte_io::pieces::{Piece, write_pieces};
use byte_io::{Write, WriteFailed};
use host_commands::command::Command;
use script_lines::plain_text;
use simfile::hex::write_hex;
use std::alloc::{AllocError, Global};
use text_lines::line_feeds;

/// A text in memory, to be written.
#[derive(Drop)]
struct Text {
    bytes: Vec<u8>,
    failed: u64,
}

impl Write for Text {
    ghost use Rattle.std.specs.Prelude.{[], Some};
    ghost use Rattle.byte_io.specs.Sink.{Sink};

    ghost sink = { λ text. record { written = Some text.bytes.items; held = []; failed = text.failed } };

    fn write(&mut self, bytes: &[u8]) -> Result<(), WriteFailed> {
        if self.bytes.extend_from_slice(bytes).is_err() {
            self.failed = self.failed.saturating_add(1);
            return Err(WriteFailed);
        }
        Ok(())
    }

    fn flush(&mut self) -> Result<(), WriteFailed> {
        Ok(())
    }
}

/// An empty text.
fn new_text(alloc: Global) -> Text
    ensures { result.bytes.items ≡ [] }
{
    Text {
        bytes: Vec::new(alloc),
        failed: 0,
    }
}

/// Bytes as hexadecimal digits.
fn hex_of(alloc: Global, bytes: &[u8]) -> Result<Vec<u8>, AllocError>
    ensures { IfOk result (λ text. text.items ≡ hex bytes.now) }
{
    let mut text = new_text(alloc);
    match write_hex(bytes, &mut text) {
        Ok(()) => Ok(text.bytes),
        Err(_) => Err(AllocError),
    }
}

/// Pieces one after another.
fn text_of(alloc: Global, pieces: &[Piece<'_>]) -> Result<Vec<u8>, AllocError>
    ensures { IfOk result (λ text. text.items ≡ flat_map piece_text pieces.now) }
{
    let mut text = new_text(alloc);
    match write_pieces(pieces, &mut text) {
        Ok(()) => Ok(text.bytes),
        Err(_) => Err(AllocError),
    }
}

/// The line of a `write`, with its bytes as digits.
fn write_line<'a>(
    alloc: Global,
    buffer: &'a [u8],
    offset: u64,
    digits: &'a [u8],
) -> Result<Vec<u8>, AllocError>
    ensures { IfOk result (λ text. text.items ≡ joined (codes "write " ∷ buffer.now ∷ space ∷ decimal offset ∷ space ∷ digits.now ∷ line_feed ∷ [])) }
{
    text_of(
        alloc,
        &[
            Piece::Text("write "),
            Piece::Bytes(buffer),
            Piece::Text(" "),
            Piece::Number(offset),
            Piece::Text(" "),
            Piece::Bytes(digits),
            Piece::Text("\n"),
        ],
    )
}

/// The text of a `write`.
fn write_text(
    alloc: Global,
    buffer: &[u8],
    offset: u64,
    bytes: &[u8],
) -> Result<Vec<u8>, AllocError>
    requires named { IsTrue (is_name buffer.now) }
    requires some { 0 < length bytes.now }
    requires few { length bytes.now ≤ 1048576 }
    ensures { IfOk result (λ text. IsText version.Three text.items (command.Write buffer.now offset bytes.now)) }
{
    let digits = hex_of(alloc, bytes)?;
    write_line(alloc, buffer, offset, digits.as_slice())
}

/// The line of a `fill`, with its pattern as digits.
fn fill_line<'a>(
    alloc: Global,
    buffer: &'a [u8],
    offset: u64,
    count: u64,
    digits: &'a [u8],
) -> Result<Vec<u8>, AllocError>
    ensures { IfOk result (λ text. text.items ≡ joined (codes "fill " ∷ buffer.now ∷ space ∷ decimal offset ∷ space ∷ decimal count ∷ space ∷ digits.now ∷ line_feed ∷ [])) }
{
    text_of(
        alloc,
        &[
            Piece::Text("fill "),
            Piece::Bytes(buffer),
            Piece::Text(" "),
            Piece::Number(offset),
            Piece::Text(" "),
            Piece::Number(count),
            Piece::Text(" "),
            Piece::Bytes(digits),
            Piece::Text("\n"),
        ],
    )
}

/// The text of a `fill`.
fn fill_text(
    alloc: Global,
    buffer: &[u8],
    offset: u64,
    count: u64,
    pattern: &[u8],
) -> Result<Vec<u8>, AllocError>
    requires named { IsTrue (is_name buffer.now) }
    requires some { 0 < length pattern.now }
    requires few { length pattern.now ≤ 1048576 }
    ensures { IfOk result (λ text. IsText version.Three text.items (command.Fill buffer.now offset count pattern.now)) }
{
    let digits = hex_of(alloc, pattern)?;
    fill_line(alloc, buffer, offset, count, digits.as_slice())
}

/// The text of a `read`.
fn read_text(alloc: Global, buffer: &[u8], offset: u64, count: u64) -> Result<Vec<u8>, AllocError>
    requires { IsTrue (is_name buffer.now) }
    ensures { IfOk result (λ text. IsText version.Three text.items (command.Read buffer.now offset count)) }
{
    text_of(
        alloc,
        &[
            Piece::Text("read "),
            Piece::Bytes(buffer),
            Piece::Text(" "),
            Piece::Number(offset),
            Piece::Text(" "),
            Piece::Number(count),
            Piece::Text("\n"),
        ],
    )
}

/// The text of a `program`, with its source.
fn program_text<'a>(alloc: Global, name: &'a [u8], source: &'a [u8]) -> Result<Vec<u8>, AllocError>
    requires named { IsTrue (is_name name.now) }
    requires lines { (n : ℕ) × (n ≤ 65536) × AreLines source.now n }
    ensures { IfOk result (λ text. IsText version.Three text.items (command.Program name.now source.now)) }
{
    let lines = line_feeds(source) as u64;
    text_of(
        alloc,
        &[
            Piece::Text("program "),
            Piece::Bytes(name),
            Piece::Text(" "),
            Piece::Number(lines),
            Piece::Text("\n"),
            Piece::Bytes(source),
        ],
    )
}

/// The text of a command that a line tells: the plain text of the line, but where it may have numbers or a source.
pub(crate) fn command_text(
    alloc: Global,
    line: &[u8],
    command: &Command,
) -> Result<Vec<u8>, AllocError>
    requires { HasText line.now command.now }
    ensures { IfOk result (λ text. IsText version.Three text.items command.now) }
{
    match command {
        Command::Write {
            buffer,
            offset,
            bytes,
        } => write_text(alloc, buffer.as_slice(), *offset, bytes.as_slice()),
        Command::Fill {
            buffer,
            offset,
            count,
            pattern,
        } => fill_text(
            alloc,
            buffer.as_slice(),
            *offset,
            *count,
            pattern.as_slice(),
        ),
        Command::Read {
            buffer,
            offset,
            count,
        } => read_text(alloc, buffer.as_slice(), *offset, *count),
        Command::Program { name, source } => program_text(
            alloc,
            name.as_slice(),
            source.as_slice(),
        ),
        _ => plain_text(alloc, line),
    }
}
