//! The tokens of a source, with the names in it.
#![tactic(auto)]

ghost use Rattle.std.specs.Prelude.{◌≡◌};

use crate::token::Token;
use clmodel::text::Name;
use std::marker::Model;

/// A source as its tokens in text order, and the table of its names: a name token has the place of its text there.
#[derive(Drop)]
pub struct Tokens {
    tokens: Vec<Token>,
    length: u32,
    names: Vec<Name>,
}

impl Model for Tokens {
    ghost use Rattle.clsyntax_lex.specs.Tokens.{Text, IsWithinLimits};

    ghost Value = { Text };

    ghost view = { λ t. record { tokens = t.tokens.items; length = t.length; names = t.names.items } };

    ghost invariant = { λ t. IsWithinLimits (record { tokens = t.tokens.items; length = t.length; names = t.names.items }) };
}

impl Tokens {
    ghost use Rattle.clsyntax_lex.specs.Tokens.{Text, IsWithinLimits};

    /// These tokens of a source of n bytes with these names.
    pub(crate) fn new(tokens: Vec<Token>, length: u32, names: Vec<Name>) -> Self
        requires { IsWithinLimits (record { tokens = tokens.items; length = length; names = names.items }) }
        ensures { result ≡ record { tokens = tokens.items; length = length; names = names.items } }
    {
        Tokens {
            tokens,
            length,
            names,
        }
    }

    /// The tokens in text order.
    pub fn as_slice(&self) -> &[Token]
        ensures value { result.now ≡ self.now.tokens }
        // Each name in them stands in the table.
        ensures limits { IsWithinLimits self.now }
    {
        self.tokens.as_slice()
    }

    /// How many bytes the source has, at most 4,194,304.
    pub fn length(&self) -> u32
        ensures value { result ≡ self.now.length }
        ensures limits { IsWithinLimits self.now }
    {
        self.length
    }

    /// The table of names: the built-in names, then the others in the order of their first places in the source.
    pub fn names(&self) -> &[Name]
        ensures value { result.now ≡ self.now.names }
        ensures limits { IsWithinLimits self.now }
    {
        self.names.as_slice()
    }
}
