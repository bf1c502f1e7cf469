//! The parser's steps inside an expression (C99 6.5): each function takes one token, and answers the state after it.
#![tactic(auto)]

ghost use Rattle.std.specs.Prelude.{◌≡◌, suc};
ghost use Rattle.clmodel.specs.Tree as tree;
ghost use Rattle.clmodel.specs.Tree.{term, terms};
ghost use Rattle.clsyntax_terms.specs.Grammar as grammar;
ghost use Rattle.clsyntax_terms.specs.Machine as machine;
ghost use Rattle.clsyntax_terms.specs.Views.{opened, folded_of, Steps};

use crate::closing::{end_bracket, on_semicolon};
use crate::nesting::Nesting;
use crate::operators::{Folded, assign_of, close, infix_of, is_star, prefix_of};
use crate::state::{
    Assign, Call, ExpressionRead, FirstName, Frame, Identifier, Mode, Moved, Stack, TargetRead,
    TokenStep,
};
use clmodel::tree::{Expression, InfixOperator, Statement, Target};
use clsyntax_lex::token::{Token, TokenKind};

/// The step of a token where an operand must begin: a number, a name, `&`, `(` or another prefix.
pub fn on_operand(nesting: Nesting, stack: Stack, token: Token) -> Moved
    ensures { Steps result (machine.on_operand nesting.0 (opened stack) token) }
{
    let Token { kind, at } = token;
    match kind {
        TokenKind::Number(value) => {
            let value = Box::new(stack.alloc, Expression::Number { at, value })?;
            let read = ExpressionRead {
                nesting,
                from: at,
                value,
            };
            stack.go(nesting, Mode::ExpressionRead(read))
        }
        TokenKind::Name(name) => {
            let identifier = Identifier { at, name };
            stack.go(
                nesting,
                Mode::Named {
                    nesting,
                    identifier,
                },
            )
        }
        TokenKind::And => match nesting.deeper() {
            Some(inner) => stack.go(nesting, Mode::AfterAnd { nesting: inner, at }),
            None => Ok(TokenStep::Deep),
        },
        TokenKind::OpenRound => stack.go(nesting, Mode::Opened { nesting, at }),
        _ => match prefix_of(kind) {
            Some(prefix) => stack.open(nesting, Frame::Before { at, prefix }),
            None => Ok(TokenStep::Refused),
        },
    }
}

/// The call of a function with these arguments.
fn call_of(called: Identifier, arguments: Vec<Expression>) -> Expression
    ensures { term result ≡ tree.Call called.at called.name (terms arguments.items) }
{
    Expression::Call {
        at: called.at,
        name: called.name,
        arguments,
    }
}

/// The step of the `)` of a call: it ends a statement, or an operand.
pub fn end_call(call: Call, stack: Stack) -> Moved
    ensures { Steps result (machine.end_call call.is_statement call.identifier.at call.identifier.name call.nesting.0 (terms call.arguments.items) (opened stack)) }
{
    let Call {
        is_statement,
        identifier,
        nesting,
        arguments,
    } = call;
    let Some(inner) = nesting.deeper() else {
        return Ok(TokenStep::Deep);
    };
    if is_statement {
        let call = Statement::Call {
            at: identifier.at,
            name: identifier.name,
            arguments,
        };
        let statement = Box::new(stack.alloc, call)?;
        stack.go(inner, Mode::Ended { nesting, statement })
    } else {
        let value = Box::new(stack.alloc, call_of(identifier, arguments))?;
        let read = ExpressionRead {
            nesting,
            from: identifier.at,
            value,
        };
        stack.go(inner, Mode::ExpressionRead(read))
    }
}

/// The step of a `)` behind an expression: it ends a bracket, a call's last argument, or the head of a statement.
#[tactic(auto, using(crate::proofs::Lists::terms_then))]
fn on_close_round(value: Box<Expression>, stack: Stack) -> Moved
    ensures { Steps result (machine.on_close_round (term value.value) (opened stack)) }
{
    let Some((frame, stack)) = stack.pop() else {
        return Ok(TokenStep::Refused);
    };
    match frame {
        Frame::InRound { at, nesting } => stack.close(nesting, at, value),
        Frame::InCall(mut call) => {
            call.arguments.push(Box::into_inner(value))?;
            end_call(call, stack)
        }
        _ => end_bracket(frame, value, stack),
    }
}

/// The step of a `,` behind an expression, which separates two arguments of a call.
#[tactic(auto, using(crate::proofs::Lists::terms_then))]
fn on_comma(value: Box<Expression>, stack: Stack) -> Moved
    ensures { Steps result (machine.on_comma (term value.value) (opened stack)) }
{
    let Some((frame, stack)) = stack.pop() else {
        return Ok(TokenStep::Refused);
    };
    match frame {
        Frame::InCall(mut call) => {
            let Some(inner) = call.nesting.deeper() else {
                return Ok(TokenStep::Deep);
            };
            call.arguments.push(Box::into_inner(value))?;
            stack.want(inner, Frame::InCall(call))
        }
        _ => {
            drop(frame);
            Ok(TokenStep::Refused)
        }
    }
}

/// The step of the `]` that ends the index of a target.
fn end_part(array: FirstName, index: Box<Expression>, stack: Stack) -> Moved
    ensures { Steps result (machine.go (suc array.nesting.0) (machine.TargetRead array.is_step array.nesting.0 array.identifier.at (tree.TargetElement array.identifier.at array.identifier.name (term index.value))) (opened stack)) }
{
    let FirstName {
        is_step,
        nesting,
        identifier,
    } = array;
    let Identifier { at, name } = identifier;
    let target = Box::new(stack.alloc, Target::Element { at, name, index })?;
    let Some(inner) = nesting.deeper() else {
        return Ok(TokenStep::Deep);
    };
    let read = TargetRead {
        is_step,
        nesting,
        at,
        target,
    };
    stack.go(inner, Mode::TargetRead(read))
}

/// The step of a `]` behind an expression: it ends the index of an element, of an element's address, or of a target.
fn on_close_square(index: Box<Expression>, stack: Stack) -> Moved
    ensures { Steps result (machine.on_close_square (term index.value) (opened stack)) }
{
    let Some((frame, stack)) = stack.pop() else {
        return Ok(TokenStep::Refused);
    };
    match frame {
        Frame::InElement {
            identifier,
            nesting,
        } => {
            let Identifier { at, name } = identifier;
            let element = Box::new(stack.alloc, Expression::Element { at, name, index })?;
            stack.close(nesting, at, element)
        }
        Frame::InAddress(of) => {
            let address = Expression::ElementAddress {
                at: of.at,
                name_at: of.identifier.at,
                name: of.identifier.name,
                index,
            };
            let address = Box::new(stack.alloc, address)?;
            stack.close(of.nesting, of.at, address)
        }
        Frame::InPart(array) => end_part(array, index, stack),
        _ => {
            drop(frame);
            Ok(TokenStep::Refused)
        }
    }
}

/// The step of a `:` behind an expression, which separates the two values of a choice.
fn on_colon(nesting: Nesting, chosen: Box<Expression>, stack: Stack) -> Moved
    ensures { Steps result (machine.on_colon nesting.0 (term chosen.value) (opened stack)) }
{
    let Some((frame, stack)) = stack.pop() else {
        return Ok(TokenStep::Refused);
    };
    match frame {
        Frame::Conditional { from, condition } => {
            let choice = Frame::Chosen {
                from,
                condition,
                chosen,
            };
            stack.want(nesting, choice)
        }
        _ => {
            drop(frame);
            Ok(TokenStep::Refused)
        }
    }
}

/// The step of an assignment's operator behind `*` and an operand, which make its target.
fn on_assignment(kind: TokenKind, pointer: Box<Expression>, stack: Stack) -> Moved
    ensures { Steps result (machine.on_assignment (grammar.assign_of kind) (term pointer.value) (opened stack)) }
{
    let Some(operator) = assign_of(kind) else {
        return Ok(TokenStep::Refused);
    };
    let Some((frame, stack)) = stack.pop() else {
        return Ok(TokenStep::Refused);
    };
    match frame {
        Frame::InBehind {
            is_step: false,
            at,
            nesting,
        } => {
            let target = Box::new(stack.alloc, Target::Dereference { at, pointer })?;
            let assign = Assign {
                at,
                nesting,
                target,
                operator,
            };
            stack.want(nesting, Frame::InAssign(assign))
        }
        _ => {
            drop(frame);
            Ok(TokenStep::Refused)
        }
    }
}

/// The step of a token behind an expression, where the token is no binary operator.
fn end_expression(kind: TokenKind, nesting: Nesting, folded: Folded) -> Moved
    ensures { Steps result (machine.end_expression kind nesting.0 (folded_of folded)) }
{
    let Folded { from, value, stack } = folded;
    match kind {
        TokenKind::Question if is_star(&stack.frames) => Ok(TokenStep::Refused),
        TokenKind::Question => stack.open(
            nesting,
            Frame::Conditional {
                from,
                condition: value,
            },
        ),
        TokenKind::Colon => on_colon(nesting, value, stack),
        TokenKind::CloseRound => on_close_round(value, stack),
        TokenKind::Comma => on_comma(value, stack),
        TokenKind::CloseSquare => on_close_square(value, stack),
        TokenKind::Semicolon => on_semicolon(value, stack),
        _ => on_assignment(kind, value, stack),
    }
}

/// The level at which an operator before an expression takes it as its right operand, where this token follows: one
/// that binds less tightly waits.
fn asked_level(between: Option<InfixOperator>, kind: TokenKind) -> u32
    ensures { result ≡ machine.asked_level between kind }
{
    match (between, kind) {
        (Some(operator), _) => operator.level(),
        (None, TokenKind::Question) => 1,
        _ => 0,
    }
}

/// The step of a token behind an expression: the operators before it that bind tightly enough take it first.
pub fn on_expression_read(read: ExpressionRead, stack: Stack, token: Token) -> Moved
    ensures { Steps result (machine.on_expression_read read.nesting.0 read.from (term read.value.value) (opened stack) token) }
{
    let ExpressionRead {
        nesting,
        from,
        value,
    } = read;
    let infix = infix_of(token.kind);
    let operand = Folded { from, value, stack };
    let folded = close(asked_level(infix, token.kind), operand)?;
    match infix {
        Some(_) if is_star(&folded.stack.frames) => Ok(TokenStep::Refused),
        Some(operator) => {
            let Folded { from, value, stack } = folded;
            let after = Frame::After {
                from,
                operator,
                left: value,
            };
            stack.open(nesting, after)
        }
        None => end_expression(token.kind, nesting, folded),
    }
}
