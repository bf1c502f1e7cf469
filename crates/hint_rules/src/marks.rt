//! The kinds of tokens that hints tell apart.
#![tactic(auto)]

ghost use Rattle.std.specs.Prelude.{◌≡◌};
ghost use Rattle.hint_rules.specs.Marks as marks;

use clmodel::tree::AddressSpace;
use clsyntax_lex::token::{Token, TokenKind};

/// The kind of the token at a place.
#[derive(Clone, Copy, Debug, PartialEq, Eq)]
pub enum Mark {
    /// No token: in front of the first, or behind the last
    Nothing,
    Name,
    Number,
    /// The word of a type, but `size_t`
    Type,
    SizeT,
    /// The word of an address space, but `__local`
    Space,
    Local,
    Const,
    Void,
    Kernel,
    If,
    Else,
    While,
    Do,
    For,
    /// `break` or `continue`
    Leave,
    Return,
    /// A reserved word that stands nowhere in the grammar
    Word,
    /// `=`
    Assign,
    /// `=` with an operator
    Compound,
    /// `++` or `--`
    Step,
    Star,
    Minus,
    And,
    Greater,
    Colon,
    /// Any other operator
    Operator,
    Comma,
    Semicolon,
    OpenRound,
    CloseRound,
    OpenSquare,
    CloseSquare,
    OpenBrace,
    CloseBrace,
}

/// What a word or a number is.
fn word_mark(kind: TokenKind) -> Mark
    ensures { result ≡ marks.word_mark kind }
{
    match kind {
        TokenKind::Name(_) => Mark::Name,
        TokenKind::Number(_) => Mark::Number,
        TokenKind::Type(_) => Mark::Type,
        TokenKind::SizeT => Mark::SizeT,
        TokenKind::Space(AddressSpace::Local) => Mark::Local,
        TokenKind::Space(_) => Mark::Space,
        TokenKind::Const => Mark::Const,
        TokenKind::Void => Mark::Void,
        TokenKind::Kernel => Mark::Kernel,
        TokenKind::If => Mark::If,
        TokenKind::Else => Mark::Else,
        TokenKind::While => Mark::While,
        TokenKind::Do => Mark::Do,
        TokenKind::For => Mark::For,
        TokenKind::Break | TokenKind::Continue => Mark::Leave,
        TokenKind::Return => Mark::Return,
        TokenKind::Reserved => Mark::Word,
        _ => Mark::Operator,
    }
}

/// What a token is.
pub(crate) fn mark_of(kind: TokenKind) -> Mark
    ensures { result ≡ marks.mark_of kind }
{
    match kind {
        TokenKind::Assign => Mark::Assign,
        TokenKind::ShiftLeftAssign
        | TokenKind::ShiftRightAssign
        | TokenKind::PlusAssign
        | TokenKind::MinusAssign
        | TokenKind::StarAssign
        | TokenKind::SlashAssign
        | TokenKind::PercentAssign
        | TokenKind::AndAssign
        | TokenKind::OrAssign
        | TokenKind::CaretAssign => Mark::Compound,
        TokenKind::PlusPlus | TokenKind::MinusMinus => Mark::Step,
        TokenKind::Star => Mark::Star,
        TokenKind::Minus => Mark::Minus,
        TokenKind::And => Mark::And,
        TokenKind::Greater => Mark::Greater,
        TokenKind::Colon => Mark::Colon,
        TokenKind::Comma => Mark::Comma,
        TokenKind::Semicolon => Mark::Semicolon,
        TokenKind::OpenRound => Mark::OpenRound,
        TokenKind::CloseRound => Mark::CloseRound,
        TokenKind::OpenSquare => Mark::OpenSquare,
        TokenKind::CloseSquare => Mark::CloseSquare,
        TokenKind::OpenBrace => Mark::OpenBrace,
        TokenKind::CloseBrace => Mark::CloseBrace,
        _ => word_mark(kind),
    }
}

/// What a token is, if there is one.
pub fn mark_at(token: Option<Token>) -> Mark
    ensures { result ≡ marks.mark_at token }
{
    match token {
        Some(token) => mark_of(token.kind),
        None => Mark::Nothing,
    }
}

/// Whether no token stands there.
pub(crate) fn is_nothing(mark: Mark) -> bool
    ensures { result ≡ marks.is_nothing mark }
{
    matches!(mark, Mark::Nothing)
}
