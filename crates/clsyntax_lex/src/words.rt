//! The words and symbols of the language.
#![tactic(auto)]

ghost use Rattle.std.specs.Prelude.{◌≡◌};
ghost use Rattle.clsyntax_lex.specs.Pieces.{word_in, symbol_in};
ghost use Rattle.clsyntax_lex.specs.Words.{entries, reserved_words, symbols};

use crate::token::TokenKind;
use clmodel::tree::AddressSpace;
use clnum::IntType;

/// The reserved words (OpenCL 1.2, section 6.1.9; C99 6.4.1).
const RESERVED_WORDS: [(&[u8], TokenKind); 51] = [
    (b"__kernel", TokenKind::Kernel),
    (b"kernel", TokenKind::Kernel),
    (b"__global", TokenKind::Space(AddressSpace::Global)),
    (b"global", TokenKind::Space(AddressSpace::Global)),
    (b"__local", TokenKind::Space(AddressSpace::Local)),
    (b"local", TokenKind::Space(AddressSpace::Local)),
    (b"__constant", TokenKind::Space(AddressSpace::Constant)),
    (b"constant", TokenKind::Space(AddressSpace::Constant)),
    (b"const", TokenKind::Const),
    (b"void", TokenKind::Void),
    (b"char", TokenKind::Type(IntType::Char)),
    (b"uchar", TokenKind::Type(IntType::Uchar)),
    (b"short", TokenKind::Type(IntType::Short)),
    (b"ushort", TokenKind::Type(IntType::Ushort)),
    (b"int", TokenKind::Type(IntType::Int)),
    (b"uint", TokenKind::Type(IntType::Uint)),
    (b"long", TokenKind::Type(IntType::Long)),
    (b"ulong", TokenKind::Type(IntType::Ulong)),
    (b"size_t", TokenKind::SizeT),
    (b"if", TokenKind::If),
    (b"else", TokenKind::Else),
    (b"while", TokenKind::While),
    (b"do", TokenKind::Do),
    (b"for", TokenKind::For),
    (b"break", TokenKind::Break),
    (b"continue", TokenKind::Continue),
    (b"return", TokenKind::Return),
    (b"float", TokenKind::Reserved),
    (b"double", TokenKind::Reserved),
    (b"half", TokenKind::Reserved),
    (b"bool", TokenKind::Reserved),
    (b"unsigned", TokenKind::Reserved),
    (b"signed", TokenKind::Reserved),
    (b"struct", TokenKind::Reserved),
    (b"union", TokenKind::Reserved),
    (b"enum", TokenKind::Reserved),
    (b"typedef", TokenKind::Reserved),
    (b"switch", TokenKind::Reserved),
    (b"case", TokenKind::Reserved),
    (b"default", TokenKind::Reserved),
    (b"goto", TokenKind::Reserved),
    (b"sizeof", TokenKind::Reserved),
    (b"static", TokenKind::Reserved),
    (b"extern", TokenKind::Reserved),
    (b"inline", TokenKind::Reserved),
    (b"volatile", TokenKind::Reserved),
    (b"restrict", TokenKind::Reserved),
    (b"register", TokenKind::Reserved),
    (b"auto", TokenKind::Reserved),
    (b"__private", TokenKind::Reserved),
    (b"private", TokenKind::Reserved),
];

/// The symbols: one that begins with another stands before it.
const SYMBOLS: [(&[u8], TokenKind); 43] = [
    (b"<<=", TokenKind::ShiftLeftAssign),
    (b">>=", TokenKind::ShiftRightAssign),
    (b"<<", TokenKind::ShiftLeft),
    (b">>", TokenKind::ShiftRight),
    (b"<=", TokenKind::LessOrEqual),
    (b">=", TokenKind::GreaterOrEqual),
    (b"==", TokenKind::Equal),
    (b"!=", TokenKind::NotEqual),
    (b"&&", TokenKind::AndAnd),
    (b"||", TokenKind::OrOr),
    (b"+=", TokenKind::PlusAssign),
    (b"-=", TokenKind::MinusAssign),
    (b"*=", TokenKind::StarAssign),
    (b"/=", TokenKind::SlashAssign),
    (b"%=", TokenKind::PercentAssign),
    (b"&=", TokenKind::AndAssign),
    (b"|=", TokenKind::OrAssign),
    (b"^=", TokenKind::CaretAssign),
    (b"++", TokenKind::PlusPlus),
    (b"--", TokenKind::MinusMinus),
    (b"+", TokenKind::Plus),
    (b"-", TokenKind::Minus),
    (b"*", TokenKind::Star),
    (b"/", TokenKind::Slash),
    (b"%", TokenKind::Percent),
    (b"<", TokenKind::Less),
    (b">", TokenKind::Greater),
    (b"=", TokenKind::Assign),
    (b"&", TokenKind::And),
    (b"|", TokenKind::Or),
    (b"^", TokenKind::Caret),
    (b"~", TokenKind::Tilde),
    (b"!", TokenKind::Not),
    (b"?", TokenKind::Question),
    (b":", TokenKind::Colon),
    (b";", TokenKind::Semicolon),
    (b",", TokenKind::Comma),
    (b"(", TokenKind::OpenRound),
    (b")", TokenKind::CloseRound),
    (b"[", TokenKind::OpenSquare),
    (b"]", TokenKind::CloseSquare),
    (b"{", TokenKind::OpenBrace),
    (b"}", TokenKind::CloseBrace),
];

/// What a text is as a reserved word, if it is one.
pub(crate) fn reserved_word(text: &[u8]) -> Option<TokenKind>
    ensures { result ≡ word_in reserved_words text.now }
{
    entry_of(&RESERVED_WORDS, text)
}

/// The first symbol in the table with which the bytes begin: what it is, and how many bytes it has.
pub(crate) fn symbol(bytes: &[u8]) -> Option<(TokenKind, usize)>
    ensures { result ≡ symbol_in symbols bytes.now }
{
    entry_in_front(&SYMBOLS, bytes)
}

/// The entry of a text.
fn entry_of(table: &[(&[u8], TokenKind)], text: &[u8]) -> Option<TokenKind>
    ensures { result ≡ word_in (entries table.now) text.now }
{
    for entry in table {
        if entry.0 == text {
            return Some(entry.1);
        }
    }
    None
}

/// The first entry with which the bytes begin, and how many bytes it has.
fn entry_in_front(table: &[(&[u8], TokenKind)], bytes: &[u8]) -> Option<(TokenKind, usize)>
    ensures { result ≡ symbol_in (entries table.now) bytes.now }
{
    for entry in table {
        if bytes.starts_with(entry.0) {
            return Some((entry.1, entry.0.len()));
        }
    }
    None
}
