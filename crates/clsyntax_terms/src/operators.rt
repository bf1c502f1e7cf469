//! Operators, and how tightly they bind.
#![tactic(auto)]

ghost use Rattle.std.specs.Prelude.{◌≡◌, IfOk};
ghost use Rattle.clmodel.specs.Tree as tree;
ghost use Rattle.clmodel.specs.Tree.{term};
ghost use Rattle.clsyntax_terms.specs.Grammar as grammar;
ghost use Rattle.clsyntax_terms.specs.Machine as machine;
ghost use Rattle.clsyntax_terms.specs.Views.{frames_of, opened, folded_of, prefix, maybe_prefix, takes_front, is_behind};

use crate::state::{Frame, Frames, Prefix, Stack};
use clmodel::tree::{Expression, InfixOperator};
use clnum::{BinaryOperator, IntType, UnaryOperator};
use clsyntax_lex::token::TokenKind;
use std::alloc::{AllocError, Global};

/// The operator that a token between two expressions is (C99 6.5.5 to 6.5.14).
pub(crate) fn infix_of(kind: TokenKind) -> Option<InfixOperator>
    ensures { result ≡ grammar.infix_of kind }
{
    let arithmetic = match kind {
        TokenKind::OrOr => return Some(InfixOperator::LogicalOr),
        TokenKind::AndAnd => return Some(InfixOperator::LogicalAnd),
        TokenKind::Or => BinaryOperator::BitOr,
        TokenKind::Caret => BinaryOperator::BitXor,
        TokenKind::And => BinaryOperator::BitAnd,
        TokenKind::Equal => BinaryOperator::Equal,
        TokenKind::NotEqual => BinaryOperator::NotEqual,
        TokenKind::Less => BinaryOperator::Less,
        TokenKind::Greater => BinaryOperator::Greater,
        TokenKind::LessOrEqual => BinaryOperator::LessOrEqual,
        TokenKind::GreaterOrEqual => BinaryOperator::GreaterOrEqual,
        TokenKind::ShiftLeft => BinaryOperator::ShiftLeft,
        TokenKind::ShiftRight => BinaryOperator::ShiftRight,
        TokenKind::Plus => BinaryOperator::Add,
        TokenKind::Minus => BinaryOperator::Subtract,
        TokenKind::Star => BinaryOperator::Multiply,
        TokenKind::Slash => BinaryOperator::Divide,
        TokenKind::Percent => BinaryOperator::Remainder,
        _ => return None,
    };
    Some(InfixOperator::Arithmetic(arithmetic))
}

/// The prefix that a token is.
pub fn prefix_of(kind: TokenKind) -> Option<Prefix>
    ensures { maybe_prefix result ≡ grammar.prefix_of kind }
{
    match kind {
        TokenKind::Plus => Some(Prefix::Operator(UnaryOperator::Plus)),
        TokenKind::Minus => Some(Prefix::Operator(UnaryOperator::Negate)),
        TokenKind::Tilde => Some(Prefix::Operator(UnaryOperator::Complement)),
        TokenKind::Not => Some(Prefix::Operator(UnaryOperator::Not)),
        TokenKind::Star => Some(Prefix::Fetch),
        _ => None,
    }
}

/// The operator of an assignment, if it has one (C99 6.5.16).
pub fn assign_of(kind: TokenKind) -> Option<Option<BinaryOperator>>
    ensures { result ≡ grammar.assign_of kind }
{
    let operator = match kind {
        TokenKind::Assign => return Some(None),
        TokenKind::PlusAssign => BinaryOperator::Add,
        TokenKind::MinusAssign => BinaryOperator::Subtract,
        TokenKind::StarAssign => BinaryOperator::Multiply,
        TokenKind::SlashAssign => BinaryOperator::Divide,
        TokenKind::PercentAssign => BinaryOperator::Remainder,
        TokenKind::ShiftLeftAssign => BinaryOperator::ShiftLeft,
        TokenKind::ShiftRightAssign => BinaryOperator::ShiftRight,
        TokenKind::AndAssign => BinaryOperator::BitAnd,
        TokenKind::CaretAssign => BinaryOperator::BitXor,
        TokenKind::OrAssign => BinaryOperator::BitOr,
        _ => return None,
    };
    Some(Some(operator))
}

/// An operand behind a prefix that begins at the offset.
fn prefixed(
    alloc: Global,
    before: Prefix,
    at: u32,
    operand: Box<Expression>,
) -> Result<Box<Expression>, AllocError>
    ensures { IfOk result (λ whole. term whole.value ≡ grammar.prefixed_by (prefix before) at (term operand.value)) }
{
    let whole = match before {
        Prefix::Operator(operator) => Expression::Unary {
            at,
            operator,
            operand,
        },
        Prefix::Fetch => Expression::Dereference {
            at,
            pointer: operand,
        },
        Prefix::Convert(target) => Expression::Cast {
            at,
            target,
            operand,
        },
    };
    Ok(Box::new(alloc, whole)?)
}

/// Two operands with the operator between them.
fn infix(
    alloc: Global,
    at: u32,
    operator: InfixOperator,
    left: Box<Expression>,
    right: Box<Expression>,
) -> Result<Box<Expression>, AllocError>
    ensures { IfOk result (λ whole. term whole.value ≡ tree.Binary at operator (term left.value) (term right.value)) }
{
    let whole = Expression::Binary {
        at,
        operator,
        left,
        right,
    };
    Ok(Box::new(alloc, whole)?)
}

/// A condition with the two values between which it chooses.
fn choice(
    alloc: Global,
    at: u32,
    condition: Box<Expression>,
    chosen: Box<Expression>,
    otherwise: Box<Expression>,
) -> Result<Box<Expression>, AllocError>
    ensures { IfOk result (λ whole. term whole.value ≡ tree.Choice at (term condition.value) (term chosen.value) (term otherwise.value)) }
{
    let whole = Expression::Choice {
        at,
        condition,
        chosen,
        otherwise,
    };
    Ok(Box::new(alloc, whole)?)
}

/// An expression, where it begins, and what is open outside of it.
#[derive(Drop)]
pub(crate) struct Folded {
    pub from: u32,
    pub value: Box<Expression>,
    pub stack: Stack,
}

/// Whether an expression takes the frame in front, where operators bind at least so tightly.
fn takes(least: u32, frames: &Frames) -> bool
    ensures { result ≡ takes_front least (frames_of frames.now) }
{
    match frames {
        Frames::Inside(Frame::After { operator, .. }, _) => least <= operator.level(),
        Frames::Inside(Frame::Before { .. }, _) => true,
        Frames::Inside(Frame::Chosen { .. }, _) => least == 0,
        _ => false,
    }
}

/// Whether the frame in front is `*` at a statement's begin.
pub(crate) fn is_star(frames: &Frames) -> bool
    ensures { result ≡ is_behind (frames_of frames.now) }
{
    matches!(frames, Frames::Inside(Frame::InBehind { .. }, _))
}

/// An expression with the prefixes before it, the operators that bind at least so tightly, and, at 0, a choice.
pub(crate) fn close(least: u32, operand: Folded) -> Result<Folded, AllocError>
    ensures { IfOk result (λ folded. folded_of folded ≡ machine.close least operand.from (term operand.value.value) (opened operand.stack)) }
{
    // The frame is looked at before it is taken out of its box: it couldn't be put back without memory.
    if !takes(least, &operand.stack.frames) {
        return Ok(operand);
    }
    let Folded { value, stack, .. } = operand;
    let Frames::Inside(frame, frames) = Box::into_inner(stack.frames) else {
        unreachable!()
    };
    let alloc = stack.alloc;
    let (from, value) = match frame {
        Frame::After {
            from,
            operator,
            left,
        } => (from, infix(alloc, from, operator, left, value)?),
        Frame::Before { at, prefix } => (at, prefixed(alloc, prefix, at, value)?),
        Frame::Chosen {
            from,
            condition,
            chosen,
        } => (from, choice(alloc, from, condition, chosen, value)?),
        _ => unreachable!(),
    };
    let stack = Stack { alloc, frames };
    close(least, Folded { from, value, stack })
}
