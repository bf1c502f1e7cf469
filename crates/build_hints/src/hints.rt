//! Hints at faults of a source.
#![tactic(auto)]

ghost use Rattle.std.specs.Prelude.{◌≡◌, ◌≤◌, ◌≢◌, length, IfOk, option_copied};
ghost use Rattle.build_hints.specs.Hints as hints;
ghost use Rattle.hint_rules.specs.Near.{near_of};

use crate::faults::Refused;
use clmodel::type_fault::TypeFault;
use clsyntax_lex::lex;
use clsyntax_lex::token::SyntaxFault;
use hint_rules::{
    Mark, TokensAround, callee, mark_at, nth, nth_last, place_in, token_hint, word_of,
};
use limits::Limits;
use opencl_words::{
    UNDECLARED, argument_hint, byte_hint, first_said, function_hint, is_built_in, is_one_of,
    said_or, value_hint, word_hint,
};
use std::alloc::{AllocError, Global};

/// The functions whose two arguments have one type.
pub(crate) static OF_ONE_TYPE: [&[u8]; 3] = [b"min", b"max", b"rotate"];

/// The hint at a fence outside of the brackets of `barrier`.
pub(crate) const FENCES: &str = "a fence stands in the brackets of barrier alone";

/// The hint at a call of `barrier` whose value is wanted.
pub(crate) const NO_VALUE: &str = "a call of barrier is a statement of its own, and has no value";

/// The hint at a call of a helper or a kernel within an expression.
pub(crate) const HELPER_CALL: &str =
    "a helper's call is a statement, or the whole right side of =: write int t = f(x); before, and t in the expression; no kernel is called";

/// The hint at the name of a built-in function that isn't called.
pub(crate) const CALLED: &str = "a built-in function is called, with its arguments in brackets";

/// The hint at two arguments of different types where a function takes two of one type.
pub(crate) const ONE_TYPE: &str =
    "min, max and rotate take two of one type: write a cast, as in min((int)x, y)";

/// The hint at an operand behind `*` that is of a wrong kind.
pub(crate) const STARS: &str = "* joins two integers, or stands in front of a pointer";

/// The hint at `break` or `continue` outside of loops.
pub(crate) const LOOPS: &str = "break and continue stand in a loop of the same function";

/// The hint at a `return` that has a value where none is wanted, or lacks one.
pub(crate) const RETURNS: &str =
    "a kernel and a helper with void have return; alone, any other helper return with a value";

/// The hint at an array in local memory that is declared in a helper or in an inner block.
pub(crate) const LOCAL_ARRAY: &str =
    "an array in local memory is declared in the outermost block of a kernel: hand a helper a __local pointer to it";

/// The hint at a pointer where one of another address space is wanted.
pub(crate) const SPACES: &str =
    "a pointer stays in its address space: write a helper for each; nothing points to private memory, so a helper takes elements of a private array";

/// The hint at an assignment to a whole array.
pub(crate) const ARRAY_TARGET: &str = "an array is assigned one element after another";

/// The hint at a call by which a function comes to call itself.
pub(crate) const RECURSION: &str =
    "no function calls itself: write a loop, with an array for what it has to keep";

/// What is hinted at by tokens.
#[derive(Clone, Copy)]
pub(crate) enum Hinted {
    /// A token that no program has there
    Unexpected,
    /// A name that isn't known
    Name,
    /// An operand, argument or statement of a wrong kind
    Mismatch,
    /// A pointer of another address space
    Space,
    /// What can't be stored to
    Target,
    /// A call with too few or too many arguments
    Count,
    /// A call of a function in its own body
    Recursion,
}

/// What the token at a place is.
fn here_mark(place: TokensAround<'_>) -> Mark
    ensures { result ≡ hints.here_mark (near_of place.entry) }
{
    mark_at(nth(place.rest, 0))
}

/// What the token behind the one at a place is.
fn next_mark(place: TokensAround<'_>) -> Mark
    ensures { result ≡ hints.next_mark (near_of place.entry) }
{
    mark_at(nth(place.rest, 1))
}

/// The word at a place.
fn here_word(place: TokensAround<'_>) -> &[u8]
    ensures { result.now ≡ hints.here_word (near_of place.entry) }
{
    word_of(place.source, nth(place.rest, 0))
}

/// The word that ends in front of a place with so many tokens behind it.
fn last_word(place: TokensAround<'_>, number: usize) -> &[u8]
    ensures { result.now ≡ hints.last_word (near_of place.entry) number }
{
    word_of(place.source, nth_last(place.front, number))
}

/// The function whose arguments go on in front of a place.
fn outer_word(place: TokensAround<'_>) -> &[u8]
    ensures { result.now ≡ hints.outer_word (near_of place.entry) }
{
    word_of(place.source, callee(place.front))
}

/// Whether the token at a place is followed by its arguments.
fn is_called(place: TokensAround<'_>) -> bool
    ensures { result ≡ hints.is_called (near_of place.entry) }
{
    matches!(next_mark(place), Mark::OpenRound)
}

/// Whether the token at a place is followed by an index.
fn is_indexed(place: TokensAround<'_>) -> bool
    ensures { result ≡ hints.is_indexed (near_of place.entry) }
{
    matches!(next_mark(place), Mark::OpenSquare)
}

/// A hint at the first token that no program has: by its own word and by those of the two in front of it, which may
/// have been read as names, or by what stands round it.
fn unexpected_hint(place: TokensAround<'_>) -> &'static str
    ensures { result.now ≡ hints.unexpected_said (near_of place.entry) }
{
    let round = said_or(word_hint(last_word(place, 1)), token_hint(place));
    let last = said_or(word_hint(last_word(place, 0)), round);
    said_or(word_hint(here_word(place)), last)
}

/// Whether no function stands there, or one of the language.
fn is_none_or_built_in(word: &[u8]) -> bool
    ensures { result ≡ hints.is_none_or_built_in word.now }
{
    word.is_empty() || is_built_in(word)
}

/// A hint at a fence in the brackets of a function.
fn fenced_hint(outer: &[u8]) -> &'static str
    ensures { result.now ≡ hints.fenced_said outer.now }
{
    if is_none_or_built_in(outer) {
        return FENCES;
    }
    function_hint(outer)
}

/// A hint at a fence outside of the brackets of a barrier: they may be those of a function that is lacking.
fn fence_hint(place: TokensAround<'_>) -> &'static str
    ensures { result.now ≡ hints.fence_said (near_of place.entry) }
{
    fenced_hint(outer_word(place))
}

/// A hint at a name that no table has.
fn unknown_hint(place: TokensAround<'_>, word: &[u8]) -> &'static str
    ensures { result.now ≡ hints.unknown_said (near_of place.entry) word.now }
{
    if is_called(place) {
        return function_hint(word);
    }
    if is_built_in(word) {
        return fence_hint(place);
    }
    if is_indexed(place) {
        return UNDECLARED;
    }
    value_hint(word)
}

/// The hint at a word as a name that isn't known: by the word itself, or by what stands round it.
fn named_hint(place: TokensAround<'_>, word: &[u8]) -> &'static str
    ensures { result.now ≡ hints.named_said (near_of place.entry) word.now }
{
    said_or(word_hint(word), unknown_hint(place, word))
}

/// A hint at a name that isn't known.
fn name_hint(place: TokensAround<'_>) -> &'static str
    ensures { result.now ≡ hints.name_said (near_of place.entry) }
{
    named_hint(place, here_word(place))
}

/// A hint at the call of a name where its value can't be used.
fn call_hint(word: &[u8]) -> Option<&'static str>
    ensures { option_copied result ≡ hints.call_said word.now }
{
    if word == b"barrier".as_slice() {
        return Some(NO_VALUE);
    }
    if is_built_in(word) {
        return None;
    }
    Some(HELPER_CALL)
}

/// A hint at an operand by what stands in front of it.
fn joined_hint(place: TokensAround<'_>) -> Option<&'static str>
    ensures { option_copied result ≡ hints.joined_said (near_of place.entry) }
{
    if is_one_of(&OF_ONE_TYPE, outer_word(place)) {
        return Some(ONE_TYPE);
    }
    match mark_at(nth_last(place.front, 0)) {
        Mark::Star => Some(STARS),
        _ => None,
    }
}

/// A hint at a word as an operand or an argument of a wrong kind.
fn word_operand_hint(place: TokensAround<'_>, word: &[u8]) -> Option<&'static str>
    ensures { option_copied result ≡ hints.operand_in (near_of place.entry) word.now }
{
    if is_called(place) {
        return first_said(call_hint(word), joined_hint(place));
    }
    if is_built_in(word) {
        return Some(CALLED);
    }
    joined_hint(place)
}

/// A hint at an operand or an argument of a wrong kind.
fn operand_hint(place: TokensAround<'_>) -> Option<&'static str>
    ensures { option_copied result ≡ hints.operand_said (near_of place.entry) }
{
    word_operand_hint(place, here_word(place))
}

/// A hint at an operand, an argument or a statement of a wrong kind.
fn mismatch_hint(place: TokensAround<'_>) -> Option<&'static str>
    ensures { option_copied result ≡ hints.mismatch_said (near_of place.entry) }
{
    match here_mark(place) {
        Mark::Leave => Some(LOOPS),
        Mark::Return => Some(RETURNS),
        _ => operand_hint(place),
    }
}

/// A hint at a pointer of another address space, or at the name of an array that is declared in local memory.
fn space_hint(place: TokensAround<'_>) -> &'static str
    ensures { result.now ≡ hints.space_said (near_of place.entry) }
{
    match mark_at(nth_last(place.front, 1)) {
        Mark::Local => LOCAL_ARRAY,
        _ => SPACES,
    }
}

/// A hint at what can't be stored to: only an array's name is followed by an assignment.
fn target_hint(place: TokensAround<'_>) -> Option<&'static str>
    ensures { option_copied result ≡ hints.target_said (near_of place.entry) }
{
    match next_mark(place) {
        Mark::Assign => Some(ARRAY_TARGET),
        _ => None,
    }
}

/// A hint at a place.
fn hint_at(hinted: Hinted, place: TokensAround<'_>) -> Option<&'static str>
    ensures { option_copied result ≡ hints.said_at hinted (near_of place.entry) }
{
    match hinted {
        Hinted::Unexpected => Some(unexpected_hint(place)),
        Hinted::Name => Some(name_hint(place)),
        Hinted::Mismatch => mismatch_hint(place),
        Hinted::Space => Some(space_hint(place)),
        Hinted::Target => target_hint(place),
        Hinted::Count => argument_hint(here_word(place)),
        Hinted::Recursion => Some(RECURSION),
    }
}

/// Want of memory as an error.
fn unless_memory(fault: SyntaxFault) -> Result<(), AllocError>
    ensures { IfOk result (λ _. fault ≢ SyntaxFault.OutOfMemory) }
{
    match fault {
        SyntaxFault::OutOfMemory => Err(AllocError),
        _ => Ok(()),
    }
}

/// A hint by the tokens of a source; none where it has a fault of tokens. An error is out of memory.
fn hint_by_tokens(
    alloc: Global,
    source: &[u8],
    hinted: Hinted,
    at: usize,
) -> Result<Option<&'static str>, AllocError>
    ensures { IfOk result (λ hint. option_copied hint ≡ hints.said_by_tokens source.now hinted at) }
{
    let tokens = match lex(alloc, Limits::large(), source) {
        Ok(tokens) => tokens,
        Err(fault) => {
            unless_memory(fault)?;
            return Ok(None);
        }
    };
    Ok(hint_at(hinted, place_in(source, tokens.as_slice(), at)))
}

/// What a hint at a fault goes by, if there may be one.
fn hinted_of(fault: TypeFault) -> Option<Hinted>
    ensures { result ≡ hints.hinted_of fault }
{
    match fault {
        TypeFault::UnknownName { .. } => Some(Hinted::Name),
        TypeFault::TypeMismatch { .. } => Some(Hinted::Mismatch),
        TypeFault::WrongSpace { .. } => Some(Hinted::Space),
        TypeFault::NotAssignable { .. } => Some(Hinted::Target),
        TypeFault::WrongArgumentCount { .. } => Some(Hinted::Count),
        TypeFault::Recursion { .. } => Some(Hinted::Recursion),
        _ => None,
    }
}

/// A hint at a fault of types at a byte. An error is out of memory.
fn type_hint(
    alloc: Global,
    source: &[u8],
    fault: TypeFault,
    at: usize,
) -> Result<Option<&'static str>, AllocError>
    ensures { IfOk result (λ hint. option_copied hint ≡ hints.type_said source.now fault at) }
{
    match hinted_of(fault) {
        Some(hinted) => hint_by_tokens(alloc, source, hinted, at),
        None => Ok(None),
    }
}

/// A hint at a fault of syntax at a byte. An error is out of memory.
fn syntax_hint(
    alloc: Global,
    source: &[u8],
    fault: SyntaxFault,
    at: usize,
) -> Result<Option<&'static str>, AllocError>
    requires { at ≤ length source.now }
    ensures { IfOk result (λ hint. option_copied hint ≡ hints.syntax_said source.now fault at) }
{
    match fault {
        SyntaxFault::BadByte { .. } => Ok(Some(byte_hint(source, at))),
        SyntaxFault::Unexpected { .. } => hint_by_tokens(alloc, source, Hinted::Unexpected, at),
        _ => Ok(None),
    }
}

/// What to do about a fault of a source at a byte: what is wanted there, or how to write what the language lacks. An
/// error is out of memory. It takes the time of the source.
pub(crate) fn hint_of(
    alloc: Global,
    source: &[u8],
    fault: Refused,
    at: usize,
) -> Result<Option<&'static str>, AllocError>
    requires { at ≤ length source.now }
    ensures { IfOk result (λ hint. option_copied hint ≡ hints.fault_said source.now fault at) }
{
    match fault {
        Refused::Syntax(fault) => syntax_hint(alloc, source, fault, at),
        Refused::Type(fault) => type_hint(alloc, source, fault, at),
    }
}
