//! A summary of the tokens in front of a place, for the rules.
#![tactic(auto)]

ghost use Rattle.std.specs.Prelude.{◌≡◌};
ghost use Rattle.hint_rules.specs.Seen as seen;

use crate::marks::{Mark, is_nothing, mark_of};
use clsyntax_lex::token::Token;

/// The last three tokens.
#[derive(Clone, Copy)]
pub(crate) struct Tail {
    pub last: Mark,
    /// The one in front of it, and the one in front of that
    pub second: Mark,
    pub third: Mark,
}

/// How many brackets of each kind are open.
#[derive(Clone, Copy)]
pub(crate) struct Brackets {
    pub rounds: usize,
    pub squares: usize,
    pub braces: usize,
}

/// The statement that goes on at a place: the tokens behind the last `;`, `{` or `}`.
#[derive(Clone, Copy)]
pub(crate) struct StatementSoFar {
    /// Its first token
    pub first: Mark,
    /// Whether it has one token
    pub is_one: bool,
    /// Whether one of its tokens is `=`
    pub assigns: bool,
}

/// A summary of the tokens in front of a place.
#[derive(Clone, Copy)]
pub(crate) struct Seen {
    pub tail: Tail,
    pub brackets: Brackets,
    pub statement: StatementSoFar,
}

/// The summary of no tokens.
const NONE: Seen = Seen {
    tail: Tail {
        last: Mark::Nothing,
        second: Mark::Nothing,
        third: Mark::Nothing,
    },
    brackets: Brackets {
        rounds: 0,
        squares: 0,
        braces: 0,
    },
    statement: StatementSoFar {
        first: Mark::Nothing,
        is_one: false,
        assigns: false,
    },
};

impl Brackets {
    /// Those that are open behind one token more.
    fn with(self, mark: Mark) -> Brackets
        ensures { result ≡ seen.brackets_with self mark }
    {
        Brackets {
            rounds: open_with(self.rounds, mark, Mark::OpenRound, Mark::CloseRound),
            squares: open_with(self.squares, mark, Mark::OpenSquare, Mark::CloseSquare),
            braces: open_with(self.braces, mark, Mark::OpenBrace, Mark::CloseBrace),
        }
    }
}

/// How many brackets of a kind are open behind one token more.
fn open_with(count: usize, mark: Mark, opening: Mark, closing: Mark) -> usize
    ensures { result ≡ seen.open_with count mark opening closing }
{
    if mark == opening {
        count.saturating_add(1)
    } else if mark == closing {
        count.saturating_sub(1)
    } else {
        count
    }
}

/// Whether the next statement begins behind it.
fn ends_statement(mark: Mark) -> bool
    ensures { result ≡ seen.ends_statement mark }
{
    matches!(mark, Mark::Semicolon | Mark::OpenBrace | Mark::CloseBrace)
}

/// The first token of a statement with one more.
fn first_with(first: Mark, mark: Mark) -> Mark
    ensures { result ≡ seen.first_with first mark }
{
    if is_nothing(first) { mark } else { first }
}

impl StatementSoFar {
    /// The one that goes on behind one token more.
    fn with(self, mark: Mark) -> StatementSoFar
        ensures { result ≡ seen.statement_with self mark }
    {
        if ends_statement(mark) {
            return NONE.statement;
        }
        StatementSoFar {
            first: first_with(self.first, mark),
            is_one: is_nothing(self.first),
            assigns: self.assigns || mark == Mark::Assign,
        }
    }
}

impl Seen {
    /// What is known with one token more.
    fn with(self, mark: Mark) -> Seen
        ensures { result ≡ seen.seen_with self mark }
    {
        Seen {
            tail: Tail {
                last: mark,
                second: self.tail.last,
                third: self.tail.second,
            },
            brackets: self.brackets.with(mark),
            statement: self.statement.with(mark),
        }
    }
}

/// Summarizes tokens.
pub(crate) fn seen_of(tokens: &[Token]) -> Seen
    ensures { result ≡ seen.seen_of tokens.now }
{
    let mut known = NONE;
    for token in tokens {
        known = known.with(mark_of(token.kind));
    }
    known
}
