//! The lexer: a source, piece by piece.
#![tactic(auto)]

ghost use Rattle.std.specs.Prelude.{◌≡◌, ◌<◌, ◌≤◌, ◌+◌, IfOk, IfErr, length};
ghost use Rattle.clsyntax_lex.specs.Lexing.{LexesUnlessMemory};
ghost use Rattle.clsyntax_lex.specs.Progress.{Advances, Stops};
ghost use Rattle.clsyntax_lex.specs.Words.{built_in_names};

use crate::names::NameTable;
use crate::pieces::{Piece, front_piece};
use crate::token::{SyntaxFault, Token, TokenKind};
use crate::tokens::Tokens;
use limits::Limits;
use std::alloc::{AllocError, AllocFailed, Global};

/// What a source was read as so far.
#[derive(Drop)]
struct Progress<'a> {
    tokens: Vec<Token>,
    names: NameTable<'a>,
}

impl<'a> Progress<'a> {
    /// Takes a piece from the front of the rest, which begins at this offset, and answers how many bytes it has.
    fn take_piece(&mut self, rest: &'a [u8], at: usize) -> Result<usize, SyntaxFault>
        requires nonempty { 0 < length rest.now }
        requires short { at + length rest.now ≤ 4194304 }
        requires few { length self.old.names ≤ length built_in_names + at }
        ensures taken { IfOk result (Advances at rest.now self.old.tokens.items self.old.names self.new.tokens.items self.new.names) }
        ensures fault { IfErr result (Stops at rest.now self.old.tokens.items self.old.names) }
    {
        match front_piece(rest) {
            Piece::Gap(len) => Ok(len),
            Piece::Name(len) => {
                let number = self.names.number_of(&rest[..len])?;
                self.tokens.push(Token {
                    kind: TokenKind::Name(number as u32),
                    at: at as u32,
                })?;
                Ok(len)
            }
            Piece::Token(kind, len) => {
                self.tokens.push(Token {
                    kind,
                    at: at as u32,
                })?;
                Ok(len)
            }
            Piece::Bad(further) => Err(SyntaxFault::BadByte {
                at: (at + further) as u32,
            }),
            Piece::TooLarge => Err(SyntaxFault::NumberTooLarge { at: at as u32 }),
        }
    }
}

/// The tokens of a source of at most `limits.source_bytes` bytes (OpenCL 1.2, section 6; C99 6.4).
///
/// A longer source is TooLong at that offset. Else the fault is the first in text order: BadByte at a byte that begins
/// no token or can't follow a number, NumberTooLarge at the beginning of a number that no type can hold.
pub fn lex(alloc: Global, limits: Limits, source: &[u8]) -> Result<Tokens, SyntaxFault>
    ensures exact { LexesUnlessMemory limits source.now result }
{
    if source.len() > limits.source_bytes {
        return Err(SyntaxFault::TooLong {
            at: limits.source_bytes as u32,
        });
    }
    let mut progress = Progress {
        tokens: Vec::new(alloc),
        names: NameTable::new(alloc)?,
    };
    let mut at = 0;
    while at < source.len() {
        at += progress.take_piece(&source[at..], at)?;
    }
    let names = progress.names.to_names(alloc)?;
    Ok(Tokens::new(progress.tokens, source.len() as u32, names))
}
