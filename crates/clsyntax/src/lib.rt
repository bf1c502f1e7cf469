//! From the tokens of a source to its syntax tree.
//!
//! `parse` gives a tree exactly where the tokens are a program of the grammar, and then the one tree; else Unexpected
//! or TooDeep, whichever comes first, with its offset. The grammar is a relation between tokens and trees and knows no
//! machine; laws tie the two. The crate decides on the kinds of tokens, and looks at no name's text. Two
//! functions call themselves, once for each frame that a token closes, and so some times for each level of nesting at
//! most: `control::settle`, and `operators::close` of `clsyntax_terms`.
#![tactic(auto)]

ghost use Rattle.std.specs.Prelude.{Result};
ghost use Rattle.clmodel.specs.Tree.{Program};
ghost use Rattle.clsyntax_lex.specs.declared.token.SyntaxFault.{SyntaxFault};
ghost use Rattle.clsyntax.specs.Correct.{IsReading, IsOne, GivesAs, Gives};
ghost use Rattle.clsyntax.specs.Source.{IsSource, IsOneSource};

mod arrays;
mod control;
mod heads;
mod machine;
mod operands;
mod parser;
mod statements;

use crate::parser::functions_of;
use clmodel::text::Name;
use clmodel::tree::Tree;
pub use clsyntax_lex::token::{SyntaxFault, Token, TokenKind};
pub use clsyntax_lex::{Tokens, lex};
use limits::Limits;
use std::alloc::Global;

/// The tree of a source with these tokens (OpenCL 1.2, section 6.9). Tokens may be nested `limits.nesting` deep.
///
/// `Unexpected` is the first token with which no program begins, or the source's length where it ends too early;
/// `TooDeep` a token before that, nested deeper; `OutOfMemory` may come at any time.
pub fn parse(alloc: Global, limits: Limits, tokens: &Tokens) -> Result<Tree, SyntaxFault>
    ensures exact { GivesAs result (IsReading limits tokens.now) }
    ensures only { (r : Result Program SyntaxFault) → IsReading limits tokens.now r → Gives result r }
    ensures one { IsOne }
{
    let functions = functions_of(alloc, limits, tokens.length(), tokens.as_slice())?;
    let names = Name::copies(alloc, tokens.names())?;
    Ok(Tree { functions, names })
}

/// The tree of a source: `lex`, then `parse`, with the faults of both.
pub fn read(alloc: Global, limits: Limits, source: &[u8]) -> Result<Tree, SyntaxFault>
    ensures exact { GivesAs result (IsSource limits source.now) }
{
    let tokens = lex(alloc, limits, source)?;
    parse(alloc, limits, &tokens)
}

/// On a device, a source stands for one tree, or has one fault.
pub fn one_source()
    ensures { IsOneSource }
{}
