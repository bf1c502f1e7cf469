//! What one step takes from the front of the rest of a source.
#![tactic(auto)]

ghost use Rattle.std.specs.Prelude.{◌≡◌, ◌<◌, ◌≤◌, IfSome, length};
ghost use Rattle.std.specs.List.{prefix_len};
ghost use Rattle.clsyntax_lex.specs.Pieces as pieces;

use crate::numbers::{Base, base_of, byte_at, digit_count, suffix_of, typed, value_of};
use crate::token::TokenKind;
use crate::words::{reserved_word, symbol};
use clnum::Value;

/// What one step takes from the front.
#[derive(Clone, Copy)]
pub(crate) enum Piece {
    /// White space or a comment, of n bytes
    Gap(usize),
    /// A name of n bytes
    Name(usize),
    /// Any other token, and how many bytes it has
    Token(TokenKind, usize),
    /// A byte that fits nowhere, n bytes further
    Bad(usize),
    /// A number that no type can hold
    TooLarge,
}

/// Whether a byte is white space between tokens (C99 6.4).
fn is_space(byte: u8) -> bool
    ensures { result ≡ pieces.is_space byte }
{
    byte == b' ' || byte == b'\t' || byte == b'\n' || byte == b'\r'
}

/// Whether a byte may begin a name (C99 6.4.2.1).
fn is_name_start(byte: u8) -> bool
    ensures { result ≡ pieces.is_name_start byte }
{
    byte.is_ascii_alphabetic() || byte == b'_'
}

/// Whether a byte may stand in a name behind its first (C99 6.4.2.1).
pub fn is_name_part(byte: u8) -> bool
    ensures { result ≡ pieces.is_name_part byte }
{
    byte.is_ascii_alphanumeric() || byte == b'_'
}

/// How many bytes of a name stand in front.
fn name_len(bytes: &[u8]) -> usize
    ensures { result ≡ prefix_len pieces.is_name_part bytes.now }
{
    bytes.iter().take_while(|byte| is_name_part(**byte)).count()
}

/// A name in full length, or a reserved word.
fn word_piece(bytes: &[u8]) -> Piece
    ensures { result ≡ pieces.word_piece bytes.now }
{
    let len = name_len(bytes);
    match reserved_word(&bytes[..len]) {
        None => Piece::Name(len),
        Some(kind) => Piece::Token(kind, len),
    }
}

/// A number with its suffix.
#[tactic(auto, unfolding(crate::specs::Pieces::number_piece))]
fn number_piece(bytes: &[u8]) -> Piece
    ensures { result ≡ pieces.number_piece bytes.now }
{
    let base = base_of(bytes);
    let (_, rest) = bytes.split_at(base.digits_at());
    number_in(base, rest, bytes)
}

/// The number at the front of bytes, whose digits begin the rest.
fn number_in(base: Base, rest: &[u8], bytes: &[u8]) -> Piece
    requires { length rest.now ≤ length bytes.now }
    ensures { result ≡ pieces.number_in base rest.now bytes.now }
{
    let count = digit_count(rest, base);
    let (digits, behind) = rest.split_at(count);
    let suffix = suffix_of(behind);
    let value = typed(base, suffix, value_of(digits, base));
    number_of_len(bytes, base.digits_at() + count + suffix.len, value)
}

/// A number of n bytes, behind which no letter, digit or underscore stands.
fn number_of_len(bytes: &[u8], len: usize, value: Option<Value>) -> Piece
    ensures { result ≡ pieces.number_of_len bytes.now len value }
{
    match value {
        None => Piece::TooLarge,
        Some(_) if is_name_part(byte_at(bytes, len)) => Piece::Bad(len),
        Some(value) => Piece::Token(TokenKind::Number(value), len),
    }
}

/// How far the next `*/` goes, with it.
#[tactic(auto, unfolding(crate::specs::Pieces::closed_after))]
fn closed_after(bytes: &[u8]) -> Option<usize>
    ensures value { result ≡ pieces.closed_after bytes.now }
    ensures within { IfSome result (λ n. n ≤ length bytes.now) }
{
    for at in 0..bytes.len() {
        let (_, rest) = bytes.split_at(at);
        if rest.starts_with(b"*/") {
            return Some(at + 2);
        }
    }
    None
}

/// A comment between `/*` and the next `*/`.
fn block_comment_piece(bytes: &[u8]) -> Piece
    requires { 2 ≤ length bytes.now }
    ensures { result ≡ pieces.block_comment_piece bytes.now }
{
    let (_, behind) = bytes.split_at(2);
    match closed_after(behind) {
        None => Piece::Bad(0),
        Some(len) => Piece::Gap(2 + len),
    }
}

/// Whether a byte is still in the line: it isn't a line feed.
fn is_in_line(byte: u8) -> bool
    ensures { result ≡ pieces.is_in_line byte }
{
    byte != b'\n'
}

/// How many bytes a comment has that goes up to the end of its line.
fn line_comment_len(bytes: &[u8]) -> usize
    ensures { result ≡ pieces.line_comment_len bytes.now }
{
    bytes.iter().take_while(|byte| is_in_line(**byte)).count()
}

/// The symbol at the front as a token, the longest that fits; a byte that no symbol begins with is bad (C99 6.4.6).
fn symbol_piece(bytes: &[u8]) -> Piece
    ensures { result ≡ pieces.symbol_piece bytes.now }
{
    match symbol(bytes) {
        None => Piece::Bad(0),
        Some((kind, len)) => Piece::Token(kind, len),
    }
}

/// The piece at the front: white space by one byte, any other by as many as it can have (C99 6.4, paragraph 4).
#[tactic(auto, unfolding(crate::specs::Pieces::piece_at))]
pub(crate) fn front_piece(bytes: &[u8]) -> Piece
    requires { 0 < length bytes.now }
    ensures value { result ≡ pieces.piece_at bytes.now }
    ensures fits { pieces.FitsIn (length bytes.now) result }
{
    let first = bytes[0];
    if is_space(first) {
        Piece::Gap(1)
    } else if bytes.starts_with(b"//") {
        Piece::Gap(line_comment_len(bytes))
    } else if bytes.starts_with(b"/*") {
        block_comment_piece(bytes)
    } else if is_name_start(first) {
        word_piece(bytes)
    } else if first.is_ascii_digit() {
        number_piece(bytes)
    } else {
        symbol_piece(bytes)
    }
}
