//! Tokens, written with a space behind each.
#![tactic(auto)]

ghost use Rattle.std.specs.Prelude.{◌≡◌, ◌++◌, ◌∷◌, [], List, decimal, nat_abs};
ghost use Rattle.clsyntax_lex.specs.declared.token.TokenKind.{TokenKind};
ghost use Rattle.clsyntax_lex.specs.Printed.{spelled, suffix_text};
ghost use Rattle.byte_io.specs.Sink.{Puts};
ghost use Rattle.clsyntax_print.specs.Printing.{with_token};
ghost use Rattle.clsyntax_print.specs.Writing.{word_text, Passes};

use byte_io::{Write, WriteFailed};
use clmodel::text::Name;
use clmodel::tree::AddressSpace;
use clnum::{IntType, Value};
use clsyntax_lex::token::TokenKind;
use itoa::Buffer;

/// The text of a word or a symbol, and none of a name or a number.
fn word(kind: TokenKind) -> &'static str
    ensures { result.now ≡ word_text kind }
{
    match kind {
        TokenKind::Name(_) | TokenKind::Number(_) => "",
        TokenKind::Kernel => "__kernel",
        TokenKind::Space(AddressSpace::Global) => "__global",
        TokenKind::Space(AddressSpace::Local) => "__local",
        TokenKind::Space(AddressSpace::Constant) => "__constant",
        TokenKind::Const => "const",
        TokenKind::Void => "void",
        TokenKind::Type(kind) => kind.name(),
        TokenKind::SizeT => "size_t",
        TokenKind::If => "if",
        TokenKind::Else => "else",
        TokenKind::While => "while",
        TokenKind::Do => "do",
        TokenKind::For => "for",
        TokenKind::Break => "break",
        TokenKind::Continue => "continue",
        TokenKind::Return => "return",
        TokenKind::Reserved => "float",
        TokenKind::ShiftLeftAssign => "<<=",
        TokenKind::ShiftRightAssign => ">>=",
        TokenKind::ShiftLeft => "<<",
        TokenKind::ShiftRight => ">>",
        TokenKind::LessOrEqual => "<=",
        TokenKind::GreaterOrEqual => ">=",
        TokenKind::Equal => "==",
        TokenKind::NotEqual => "!=",
        TokenKind::AndAnd => "&&",
        TokenKind::OrOr => "||",
        TokenKind::PlusAssign => "+=",
        TokenKind::MinusAssign => "-=",
        TokenKind::StarAssign => "*=",
        TokenKind::SlashAssign => "/=",
        TokenKind::PercentAssign => "%=",
        TokenKind::AndAssign => "&=",
        TokenKind::OrAssign => "|=",
        TokenKind::CaretAssign => "^=",
        TokenKind::PlusPlus => "++",
        TokenKind::MinusMinus => "--",
        TokenKind::Plus => "+",
        TokenKind::Minus => "-",
        TokenKind::Star => "*",
        TokenKind::Slash => "/",
        TokenKind::Percent => "%",
        TokenKind::Less => "<",
        TokenKind::Greater => ">",
        TokenKind::Assign => "=",
        TokenKind::And => "&",
        TokenKind::Or => "|",
        TokenKind::Caret => "^",
        TokenKind::Tilde => "~",
        TokenKind::Not => "!",
        TokenKind::Question => "?",
        TokenKind::Colon => ":",
        TokenKind::Semicolon => ";",
        TokenKind::Comma => ",",
        TokenKind::OpenRound => "(",
        TokenKind::CloseRound => ")",
        TokenKind::OpenSquare => "[",
        TokenKind::CloseSquare => "]",
        TokenKind::OpenBrace => "{",
        TokenKind::CloseBrace => "}",
    }
}

/// The suffix of a number of a type (C99 6.4.4.1).
fn suffix(kind: IntType) -> &'static str
    ensures { result.now ≡ suffix_text kind }
{
    match kind {
        IntType::Uint => "u",
        IntType::Long => "l",
        IntType::Ulong => "ul",
        _ => "",
    }
}

/// How far a number is from 0.
fn magnitude(value: Value) -> u128
    ensures { result ≡ nat_abs value.number }
{
    value.number().unsigned_abs()
}

/// Writes a number in decimal digits with the suffix of its type.
fn write_number<W: Write>(value: Value, writer: &mut W) -> Result<(), WriteFailed>
    ensures { Puts (W.sink writer.old) result (W.sink writer.new) (decimal (nat_abs value.number) ++ suffix_text value.kind) }
{
    writer.write(Buffer::new().format(magnitude(value)).as_bytes())?;
    writer.write(suffix(value.kind()).as_bytes())
}

/// Writes a name by its place in the table of names, or nothing where it has none.
fn write_name<W: Write>(name: u32, names: &[Name], writer: &mut W) -> Result<(), WriteFailed>
    ensures { Puts (W.sink writer.old) result (W.sink writer.new) (spelled names.now (TokenKind.Name name)) }
{
    match names.get(name as usize) {
        Some(name) => writer.write(name.as_slice()),
        None => Ok(()),
    }
}

/// Writes the text of a token.
fn write_spelling<W: Write>(
    kind: TokenKind,
    names: &[Name],
    writer: &mut W,
) -> Result<(), WriteFailed>
    ensures { Puts (W.sink writer.old) result (W.sink writer.new) (spelled names.now kind) }
{
    match kind {
        TokenKind::Name(name) => write_name(name, names, writer),
        TokenKind::Number(value) => write_number(value, writer),
        kind => writer.write(word(kind).as_bytes()),
    }
}

/// Writes a token and a space.
fn write_token<W: Write>(kind: TokenKind, names: &[Name], writer: &mut W) -> Result<(), WriteFailed>
    ensures { (rest : List TokenKind) → Passes names.now (W.sink writer.old) result (W.sink writer.new) (kind ∷ rest) rest }
{
    write_spelling(kind, names, writer)?;
    writer.write(b" ")
}

/// Writes tokens, a space behind each.
pub(crate) fn write_tokens<W: Write>(
    kinds: &[TokenKind],
    names: &[Name],
    writer: &mut W,
) -> Result<(), WriteFailed>
    ensures { (rest : List TokenKind) → Passes names.now (W.sink writer.old) result (W.sink writer.new) (kinds.now ++ rest) rest }
{
    for kind in kinds {
        write_token(*kind, names, writer)?;
    }
    Ok(())
}

/// Writes a token, if it is wanted.
pub(crate) fn write_if<W: Write>(
    wanted: bool,
    kind: TokenKind,
    names: &[Name],
    writer: &mut W,
) -> Result<(), WriteFailed>
    ensures { (rest : List TokenKind) → Passes names.now (W.sink writer.old) result (W.sink writer.new) (with_token wanted kind rest) rest }
{
    if wanted {
        write_token(kind, names, writer)
    } else {
        Ok(())
    }
}
