//! Lines of a source as text.
#![tactic(auto)]

ghost use Rattle.std.specs.Prelude.{◌≡◌, ◌<◌, length, map, string_bytes, IfOk};
ghost use Rattle.explanation.specs.Lines.{told_byte, told_line};

use std::alloc::{AllocError, Global};

/// A byte as it is told.
fn letter_of(byte: u8) -> char
    ensures ascii { result < 128 }
    ensures told { result ≡ told_byte byte }
{
    if byte < 128 { byte as char } else { '?' }
}

/// The bytes of a line that is no UTF-8 as text: those of ASCII as they are, and `?` for each other one.
fn ascii_line(alloc: Global, line: &[u8]) -> Result<String, AllocError>
    ensures { IfOk result (λ text. string_bytes text ≡ map told_byte line.now) }
{
    let mut text = String::new(alloc);
    for byte in line {
        text.push(letter_of(*byte))?;
    }
    Ok(text)
}

/// A line of a source as text of as many bytes, so that a column in bytes is the same in both: as it is, or where it is
/// no UTF-8 with `?` in place of each byte beyond ASCII. An error is out of memory.
pub fn line_as_text(alloc: Global, line: &[u8]) -> Result<String, AllocError>
    ensures told { IfOk result (λ text. string_bytes text ≡ told_line line.now) }
    ensures columns { IfOk result (λ text. length (string_bytes text) ≡ length line.now) }
{
    match std::str::from_utf8(line) {
        Ok(text) => String::from_str(alloc, text),
        Err(_) => ascii_line(alloc, line),
    }
}
