//! Tokens of a source.
#![tactic(auto)]

use clmodel::tree::AddressSpace;
use clnum::{IntType, Value};
use std::alloc::{AllocError, AllocFailed};

/// What a token is (OpenCL 1.2, section 6; C99 6.4).
#[derive(Clone, Copy, PartialEq, Eq)]
pub enum TokenKind {
    /// A name, by its place in the table of names
    Name(u32),
    /// A number with its type (C99 6.4.4.1)
    Number(Value),
    Kernel,
    Space(AddressSpace),
    Const,
    Void,
    Type(IntType),
    SizeT,
    If,
    Else,
    While,
    Do,
    For,
    Break,
    Continue,
    Return,
    /// A reserved word that stands nowhere in the grammar
    Reserved,
    /// `<<=`
    ShiftLeftAssign,
    /// `>>=`
    ShiftRightAssign,
    /// `<<`
    ShiftLeft,
    /// `>>`
    ShiftRight,
    /// `<=`
    LessOrEqual,
    /// `>=`
    GreaterOrEqual,
    /// `==`
    Equal,
    /// `!=`
    NotEqual,
    /// `&&`
    AndAnd,
    /// `||`
    OrOr,
    /// `+=`
    PlusAssign,
    /// `-=`
    MinusAssign,
    /// `*=`
    StarAssign,
    /// `/=`
    SlashAssign,
    /// `%=`
    PercentAssign,
    /// `&=`
    AndAssign,
    /// `|=`
    OrAssign,
    /// `^=`
    CaretAssign,
    /// `++`
    PlusPlus,
    /// `--`
    MinusMinus,
    /// `+`
    Plus,
    /// `-`
    Minus,
    /// `*`
    Star,
    /// `/`
    Slash,
    /// `%`
    Percent,
    /// `<`
    Less,
    /// `>`
    Greater,
    /// `=`
    Assign,
    /// `&`
    And,
    /// `|`
    Or,
    /// `^`
    Caret,
    /// `~`
    Tilde,
    /// `!`
    Not,
    /// `?`
    Question,
    /// `:`
    Colon,
    /// `;`
    Semicolon,
    /// `,`
    Comma,
    /// `(`
    OpenRound,
    /// `)`
    CloseRound,
    /// `[`
    OpenSquare,
    /// `]`
    CloseSquare,
    /// `{`
    OpenBrace,
    /// `}`
    CloseBrace,
}

/// A token and the byte number at which it begins.
#[derive(Clone, Copy, PartialEq, Eq)]
pub struct Token {
    pub kind: TokenKind,
    pub at: u32,
}

/// Why a source is no program. Each has the byte number of the fault but out of memory.
#[derive(Clone, Copy, Debug, PartialEq, Eq)]
pub enum SyntaxFault {
    /// 1: a byte that begins no token, or that can't follow a number
    BadByte { at: u32 },
    /// 2: a number that no type can hold
    NumberTooLarge { at: u32 },
    /// 3: the first token with which no program begins, or the end where it comes too early
    Unexpected { at: u32 },
    /// 4: a token nested deeper than the device allows
    TooDeep { at: u32 },
    /// 5: a source of more bytes than the device allows, with that number of bytes
    TooLong { at: u32 },
    /// 6
    OutOfMemory,
}

impl From<AllocError> for SyntaxFault {
    ghost use Rattle.std.specs.Prelude.{◌≡◌};
    ghost use Rattle.clsyntax_lex.specs.declared.token.SyntaxFault.TheVariants.{OutOfMemory};

    ghost from_gives = { λ _ fault. fault ≡ OutOfMemory };

    fn from(_: AllocError) -> Self {
        SyntaxFault::OutOfMemory
    }
}

impl<T: Drop> From<AllocFailed<T>> for SyntaxFault {
    ghost use Rattle.std.specs.Prelude.{◌≡◌};
    ghost use Rattle.clsyntax_lex.specs.declared.token.SyntaxFault.TheVariants.{OutOfMemory};

    ghost from_gives = { λ _ fault. fault ≡ OutOfMemory };

    fn from(_: AllocFailed<T>) -> Self {
        SyntaxFault::OutOfMemory
    }
}
