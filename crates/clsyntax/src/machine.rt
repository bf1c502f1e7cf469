//! One step of the parser.
#![tactic(auto)]

ghost use Rattle.clmodel.specs.Tree.{stmt};
ghost use Rattle.clsyntax_terms.specs.Machine as machine;
ghost use Rattle.clsyntax_terms.specs.Views.{opened, state_of, Steps};

use crate::arrays::on_array_mode;
use crate::control::{
    on_after_do, on_after_for, on_after_if, on_after_while, on_final, on_initial, on_statement_read,
};
use crate::heads::{on_head, on_type};
use crate::operands::{on_call_open, on_opened, on_optional};
use crate::statements::{
    on_aim, on_begin, on_begin_name, on_declared, on_item, on_target_read, open_call,
};
use clmodel::tree::{Expression, Statement};
use clsyntax_lex::token::{Token, TokenKind};
use clsyntax_terms::closing::on_ended;
use clsyntax_terms::expressions::{on_expression_read, on_operand};
use clsyntax_terms::nesting::Nesting;
use clsyntax_terms::state::{
    Address, Cast, ExpressionRead, Frame, Identifier, Mode, Moved, Prefix, Stack, State, TokenStep,
};
use std::alloc::Global;

/// After a name in an expression.
fn on_named(nesting: Nesting, identifier: Identifier, stack: Stack, token: Token) -> Moved
    ensures { Steps result (machine.on_named nesting.0 identifier.at identifier.name (opened stack) token) }
{
    match token.kind {
        TokenKind::OpenSquare => stack.open(
            nesting,
            Frame::InElement {
                identifier,
                nesting,
            },
        ),
        TokenKind::OpenRound => open_call(false, nesting, identifier, stack),
        _ => {
            let Identifier { at, name } = identifier;
            let value = Box::new(stack.alloc, Expression::Variable { at, name })?;
            let read = ExpressionRead {
                nesting,
                from: at,
                value,
            };
            on_expression_read(read, stack, token)
        }
    }
}

/// After the type of a cast.
fn on_cast_type(cast: Cast, stack: Stack, token: Token) -> Moved
    ensures { Steps result (machine.on_cast_type cast.nesting.0 cast.at cast.target (opened stack) token) }
{
    if !matches!(token.kind, TokenKind::CloseRound) {
        return Ok(TokenStep::Refused);
    }
    let prefix = Prefix::Convert(cast.target);
    match cast.nesting.deeper() {
        Some(inner) => stack.want(
            inner,
            Frame::Before {
                at: cast.at,
                prefix,
            },
        ),
        None => Ok(TokenStep::Deep),
    }
}

/// After `&`.
fn on_after_and(nesting: Nesting, at: u32, stack: Stack, token: Token) -> Moved
    ensures { Steps result (machine.on_after_and nesting.0 at (opened stack) token) }
{
    let TokenKind::Name(name) = token.kind else {
        return Ok(TokenStep::Refused);
    };
    let address = Address {
        nesting,
        at,
        identifier: Identifier { at: token.at, name },
    };
    stack.go(nesting, Mode::AndName(address))
}

/// After `&` and a name.
fn on_and_name(address: Address, stack: Stack, token: Token) -> Moved
    ensures { Steps result (machine.on_and_name address.nesting.0 address.at address.identifier.at address.identifier.name (opened stack) token) }
{
    match token.kind {
        TokenKind::OpenSquare => stack.open(address.nesting, Frame::InAddress(address)),
        _ => Ok(TokenStep::Refused),
    }
}

/// After a statement that only lacks its semicolon.
fn on_closing(nesting: Nesting, statement: Box<Statement>, stack: Stack, token: Token) -> Moved
    ensures { Steps result (machine.on_closing nesting.0 (stmt statement.value) (opened stack) token) }
{
    match token.kind {
        TokenKind::Semicolon => stack.go(nesting, Mode::StatementRead(statement)),
        _ => Ok(TokenStep::Refused),
    }
}

/// What a token does.
pub(crate) fn step(alloc: Global, state: Box<State>, token: Token) -> Moved
    ensures { Steps result (machine.step (state_of state.value) token) }
{
    let State { mode, frames } = Box::into_inner(state);
    let stack = Stack { alloc, frames };
    match mode {
        Mode::Operand { nesting } => on_operand(nesting, stack, token),
        Mode::ExpressionRead(read) => on_expression_read(read, stack, token),
        Mode::Named {
            nesting,
            identifier,
        } => on_named(nesting, identifier, stack, token),
        Mode::Opened { nesting, at } => on_opened(nesting, at, stack, token),
        Mode::CastType(cast) => on_cast_type(cast, stack, token),
        Mode::AfterAnd { nesting, at } => on_after_and(nesting, at, stack, token),
        Mode::AndName(address) => on_and_name(address, stack, token),
        Mode::CallOpen { nesting } => on_call_open(nesting, stack, token),
        Mode::Optional { nesting } => on_optional(nesting, stack, token),
        Mode::Item { nesting } => on_item(nesting, stack, token),
        Mode::Begin { nesting } => on_begin(nesting, stack, token),
        Mode::Initial { nesting } => on_initial(nesting, stack, token),
        Mode::Final { nesting } => on_final(nesting, stack, token),
        Mode::Aim { nesting } => on_aim(nesting, stack, token),
        Mode::BeginName(name) => on_begin_name(name, stack, token),
        Mode::TargetRead(read) => on_target_read(read, stack, token),
        Mode::Ended { nesting, statement } => on_ended(nesting, statement, stack, token.kind),
        Mode::Closing { nesting, statement } => on_closing(nesting, statement, stack, token),
        Mode::StatementRead(statement) => on_statement_read(statement, stack, token),
        Mode::AfterIf { nesting, at } => on_after_if(nesting, at, stack, token.kind),
        Mode::AfterWhile { nesting, at } => on_after_while(nesting, at, stack, token.kind),
        Mode::AfterFor { nesting, at } => on_after_for(nesting, at, stack, token.kind),
        Mode::AfterDo { nesting, at, body } => on_after_do(nesting, at, body, stack, token.kind),
        Mode::Typing { wanted, mode } => on_type(wanted, mode, stack, token),
        Mode::Declared(declared) => on_declared(declared, stack, token),
        Mode::Array(mode) => on_array_mode(mode, stack, token),
        Mode::Head(head) => on_head(head, stack, token),
    }
}
