//! The tokens of operators, and how tightly operators bind.
#![tactic(auto)]

ghost use Rattle.std.specs.Prelude.{◌≡◌};
ghost use Rattle.clsyntax_print.specs.Printing as printing;

use clmodel::tree::InfixOperator;
use clnum::{BinaryOperator, UnaryOperator};
use clsyntax_lex::token::TokenKind;

/// The level of an operand, above that of every operator between two.
pub(crate) const TIGHT: u32 = 12;

/// The token that an operator between two operands is written as.
fn arithmetic_kind(operator: BinaryOperator) -> TokenKind
    ensures { result ≡ printing.arithmetic_kind operator }
{
    match operator {
        BinaryOperator::BitOr => TokenKind::Or,
        BinaryOperator::BitXor => TokenKind::Caret,
        BinaryOperator::BitAnd => TokenKind::And,
        BinaryOperator::Equal => TokenKind::Equal,
        BinaryOperator::NotEqual => TokenKind::NotEqual,
        BinaryOperator::Less => TokenKind::Less,
        BinaryOperator::Greater => TokenKind::Greater,
        BinaryOperator::LessOrEqual => TokenKind::LessOrEqual,
        BinaryOperator::GreaterOrEqual => TokenKind::GreaterOrEqual,
        BinaryOperator::ShiftLeft => TokenKind::ShiftLeft,
        BinaryOperator::ShiftRight => TokenKind::ShiftRight,
        BinaryOperator::Add => TokenKind::Plus,
        BinaryOperator::Subtract => TokenKind::Minus,
        BinaryOperator::Multiply => TokenKind::Star,
        BinaryOperator::Divide => TokenKind::Slash,
        BinaryOperator::Remainder => TokenKind::Percent,
    }
}

/// The token of an operator between two expressions.
pub(crate) fn infix_kind(operator: InfixOperator) -> TokenKind
    ensures { result ≡ printing.infix_kind operator }
{
    match operator {
        InfixOperator::LogicalOr => TokenKind::OrOr,
        InfixOperator::LogicalAnd => TokenKind::AndAnd,
        InfixOperator::Arithmetic(operator) => arithmetic_kind(operator),
    }
}

/// The token of an operator in front of an operand.
pub(crate) fn unary_kind(operator: UnaryOperator) -> TokenKind
    ensures { result ≡ printing.unary_kind operator }
{
    match operator {
        UnaryOperator::Plus => TokenKind::Plus,
        UnaryOperator::Negate => TokenKind::Minus,
        UnaryOperator::Complement => TokenKind::Tilde,
        UnaryOperator::Not => TokenKind::Not,
    }
}

/// The token of an assignment, with its operator if it has one. Comparisons have none.
pub(crate) fn assign_kind(operator: Option<BinaryOperator>) -> TokenKind
    ensures { result ≡ printing.assign_kind operator }
{
    match operator {
        None => TokenKind::Assign,
        Some(BinaryOperator::Add) => TokenKind::PlusAssign,
        Some(BinaryOperator::Subtract) => TokenKind::MinusAssign,
        Some(BinaryOperator::Multiply) => TokenKind::StarAssign,
        Some(BinaryOperator::Divide) => TokenKind::SlashAssign,
        Some(BinaryOperator::Remainder) => TokenKind::PercentAssign,
        Some(BinaryOperator::ShiftLeft) => TokenKind::ShiftLeftAssign,
        Some(BinaryOperator::ShiftRight) => TokenKind::ShiftRightAssign,
        Some(BinaryOperator::BitAnd) => TokenKind::AndAssign,
        Some(BinaryOperator::BitXor) => TokenKind::CaretAssign,
        Some(BinaryOperator::BitOr) => TokenKind::OrAssign,
        Some(_) => TokenKind::Reserved,
    }
}

/// The token of a step up or down.
pub(crate) fn step_kind(is_increment: bool) -> TokenKind
    ensures { result ≡ printing.step_kind is_increment }
{
    if is_increment {
        TokenKind::PlusPlus
    } else {
        TokenKind::MinusMinus
    }
}
