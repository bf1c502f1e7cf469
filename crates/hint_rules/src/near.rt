//! The tokens round a place of a source.
#![tactic(auto)]

ghost use Rattle.std.specs.Prelude.{◌≡◌, ◌≤◌, length, slice_get};
ghost use Rattle.hint_rules.specs.Callee.{begins_arguments, callee, closed_with};
ghost use Rattle.hint_rules.specs.Near as near;

use crate::marks::{Mark, mark_at};
use crate::seen::{Seen, seen_of};
use clsyntax_lex::token::Token;
use opencl_words::word_at;

/// A place of a source: the tokens in front of it, and those from it on.
#[derive(Clone, Copy)]
pub struct TokensAround<'a> {
    pub source: &'a [u8],
    pub front: &'a [Token],
    pub rest: &'a [Token],
}

/// How many tokens begin before a byte.
fn count_before(tokens: &[Token], at: usize) -> usize
    ensures value { result ≡ near.count_before tokens.now at }
    ensures within { result ≤ length tokens.now }
{
    tokens
        .iter()
        .take_while(|token| (token.at as usize) < at)
        .count()
}

/// The place of a byte in a source with these tokens.
pub fn place_in<'a>(source: &'a [u8], tokens: &'a [Token], at: usize) -> TokensAround<'a>
    ensures { near.near_of result ≡ near.near_in source.now tokens.now at }
{
    let (front, rest) = tokens.split_at(count_before(tokens, at));
    TokensAround {
        source,
        front,
        rest,
    }
}

/// The token at a number from 0, if there is one.
pub fn nth(tokens: &[Token], number: usize) -> Option<Token>
    ensures { result ≡ slice_get tokens.now number }
{
    if number < tokens.len() {
        Some(tokens[number])
    } else {
        None
    }
}

/// The token with so many behind it, if there is one.
pub fn nth_last(tokens: &[Token], number: usize) -> Option<Token>
    ensures { result ≡ near.nth_last tokens.now number }
{
    if number < tokens.len() {
        nth(tokens, tokens.len() - 1 - number)
    } else {
        None
    }
}

/// The word that a token of a source is; none where it is a symbol, or where there is no token.
pub fn word_of(source: &[u8], token: Option<Token>) -> &[u8]
    ensures { result.now ≡ near.word_of source.now token }
{
    match token {
        Some(token) => word_from(source, token.at as usize),
        None => &[],
    }
}

/// The word that begins at a byte; none past the end.
fn word_from(source: &[u8], at: usize) -> &[u8]
    ensures { result.now ≡ near.word_from source.now at }
{
    if at < source.len() {
        word_at(source, at)
    } else {
        &[]
    }
}

/// How many round brackets are closed from a token on, with one in front of them.
fn closed_with(closed: usize, mark: Mark) -> usize
    ensures { result ≡ closed_with closed mark }
{
    match mark {
        Mark::OpenRound => closed.saturating_sub(1),
        Mark::CloseRound => closed.saturating_add(1),
        _ => closed,
    }
}

/// Whether a token is the bracket of a call that stays open.
fn begins_arguments(closed: usize, mark: Mark) -> bool
    ensures { result ≡ begins_arguments closed mark }
{
    closed == 0 && matches!(mark, Mark::OpenRound)
}

/// The name of the function whose arguments go on behind these tokens, if they do.
pub fn callee(tokens: &[Token]) -> Option<Token>
    ensures { result ≡ callee tokens.now }
{
    let mut closed = 0usize;
    for back in 0..tokens.len() {
        let at = tokens.len() - 1 - back;
        let mark = mark_at(nth(tokens, at));
        if begins_arguments(closed, mark) {
            let (front, _) = tokens.split_at(at);
            return nth_last(front, 0);
        }
        closed = closed_with(closed, mark);
    }
    None
}

/// The surroundings of a place: the token at it, the one behind that, and a summary of those in front.
#[derive(Clone, Copy)]
pub(crate) struct Surroundings {
    pub here: Mark,
    pub next: Mark,
    pub seen: Seen,
}

/// The surroundings of a place. It takes time for each token in front.
pub(crate) fn setting_of(place: TokensAround<'_>) -> Surroundings
    ensures { result ≡ near.setting_of (near.near_of place.entry) }
{
    Surroundings {
        here: mark_at(nth(place.rest, 0)),
        next: mark_at(nth(place.rest, 1)),
        seen: seen_of(place.front),
    }
}
