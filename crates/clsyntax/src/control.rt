//! Statements that control others.
#![tactic(auto)]

ghost use Rattle.std.specs.Prelude.{◌≡◌, ◌∷◌, suc, IfOk};
ghost use Rattle.clmodel.specs.Tree as tree;
ghost use Rattle.clmodel.specs.Tree.{term, stmt, maybe_term};
ghost use Rattle.clsyntax_terms.specs.Machine as machine;
ghost use Rattle.clsyntax_terms.specs.Views.{frames_of, opened, maybe_statement, Steps};
ghost use Rattle.clsyntax.specs.Views.{settled_of, ends_front};

use crate::heads::on_typing;
use crate::statements::{begin_controlled, on_item, on_simple};
use clmodel::tree::{Expression, Statement};
use clsyntax_lex::token::{Token, TokenKind};
use clsyntax_terms::closing::{begin_condition, begin_turns};
use clsyntax_terms::nesting::Nesting;
use clsyntax_terms::state::{Frame, Frames, Mode, Moved, Purpose, Stack, TokenStep, Turns};
use std::alloc::AllocError;

/// After `if`.
pub(crate) fn on_after_if(nesting: Nesting, at: u32, stack: Stack, kind: TokenKind) -> Moved
    ensures { Steps result (machine.on_after_if nesting.0 at (opened stack) kind) }
{
    match kind {
        TokenKind::OpenRound => stack.open(nesting, Frame::InIf { at, nesting }),
        _ => Ok(TokenStep::Refused),
    }
}

/// After `while`.
pub(crate) fn on_after_while(nesting: Nesting, at: u32, stack: Stack, kind: TokenKind) -> Moved
    ensures { Steps result (machine.on_after_while nesting.0 at (opened stack) kind) }
{
    match kind {
        TokenKind::OpenRound => stack.open(nesting, Frame::InWhile { at, nesting }),
        _ => Ok(TokenStep::Refused),
    }
}

/// After the `while` of a `do`.
pub(crate) fn on_after_do(
    nesting: Nesting,
    at: u32,
    body: Box<Statement>,
    stack: Stack,
    kind: TokenKind,
) -> Moved
    ensures { Steps result (machine.on_after_do nesting.0 at (stmt body.value) (opened stack) kind) }
{
    match kind {
        TokenKind::OpenRound => stack.open(nesting, Frame::InDo { at, nesting, body }),
        _ => Ok(TokenStep::Refused),
    }
}

/// After `for`.
pub(crate) fn on_after_for(nesting: Nesting, at: u32, stack: Stack, kind: TokenKind) -> Moved
    ensures { Steps result (machine.on_after_for nesting.0 at (opened stack) kind) }
{
    if !matches!(kind, TokenKind::OpenRound) {
        return Ok(TokenStep::Refused);
    }
    let stack = stack.push(Frame::InInitial { at })?;
    match nesting.deeper() {
        Some(inner) => stack.go(nesting, Mode::Initial { nesting: inner }),
        None => Ok(TokenStep::Deep),
    }
}

/// The first semicolon of a `for` without a first part.
fn no_initial(nesting: Nesting, stack: Stack) -> Moved
    ensures { Steps result (machine.no_initial nesting.0 (opened stack)) }
{
    let Some((frame, stack)) = stack.pop() else {
        return Ok(TokenStep::Refused);
    };
    let Frame::InInitial { at } = frame else {
        drop(frame);
        return Ok(TokenStep::Refused);
    };
    begin_condition(nesting, at, None, stack)
}

/// Where the first part of a `for` may begin.
pub(crate) fn on_initial(nesting: Nesting, stack: Stack, token: Token) -> Moved
    ensures { Steps result (machine.on_initial nesting.0 (opened stack) token) }
{
    let Token { kind, at } = token;
    match kind {
        TokenKind::Semicolon => no_initial(nesting, stack),
        TokenKind::Type(_) | TokenKind::SizeT => {
            on_typing(Purpose::Declaration { at, nesting }, stack, kind)
        }
        _ => on_simple(nesting, stack, token),
    }
}

/// The bracket of a `for` without a third part.
fn no_final(nesting: Nesting, stack: Stack) -> Moved
    ensures { Steps result (machine.no_final nesting.0 (opened stack)) }
{
    let Some((frame, stack)) = stack.pop() else {
        return Ok(TokenStep::Refused);
    };
    match frame {
        Frame::InFinal(turns) => begin_turns(nesting, turns, None, stack),
        _ => {
            drop(frame);
            Ok(TokenStep::Refused)
        }
    }
}

/// Where the third part of a `for` may begin.
pub(crate) fn on_final(nesting: Nesting, stack: Stack, token: Token) -> Moved
    ensures { Steps result (machine.on_final nesting.0 (opened stack) token) }
{
    match token.kind {
        TokenKind::CloseRound => no_final(nesting, stack),
        _ => on_simple(nesting, stack, token),
    }
}

/// A statement, and what is open outside of it.
#[derive(Drop)]
pub(crate) struct Settled {
    pub statement: Box<Statement>,
    pub stack: Stack,
}

/// Whether a statement ends the frame in front, which controls it.
fn ends(before_else: bool, frames: &Frames) -> bool
    ensures { result ≡ ends_front before_else (frames_of frames.now) }
{
    match frames {
        Frames::Inside(Frame::Otherwise { .. }, _) => true,
        Frames::Inside(Frame::Turns { .. }, _) => true,
        Frames::Inside(Frame::ForTurns(_), _) => true,
        Frames::Inside(Frame::Then { .. }, _) => !before_else,
        _ => false,
    }
}

/// A `for` with its body.
fn for_of(turns: Turns, body: Box<Statement>) -> Statement
    ensures { stmt result ≡ tree.For turns.at (maybe_statement turns.initial) (maybe_term turns.condition) (maybe_statement turns.last) (stmt body.value) }
{
    Statement::For {
        at: turns.at,
        first: turns.initial,
        condition: turns.condition,
        third: turns.last,
        body,
    }
}

/// A statement with those that control it, but an `if` that an `else` follows.
fn settle(before_else: bool, statement: Box<Statement>, stack: Stack) -> Result<Settled, AllocError>
    ensures { IfOk result (λ settled. settled_of settled ≡ machine.settle before_else (stmt statement.value) (opened stack)) }
{
    // The frame is looked at before it is taken out of its box: it couldn't be put back without memory.
    if !ends(before_else, &stack.frames) {
        return Ok(Settled { statement, stack });
    }
    let Frames::Inside(frame, frames) = Box::into_inner(stack.frames) else {
        unreachable!()
    };
    let alloc = stack.alloc;
    let whole = match frame {
        Frame::Then { at, condition, .. } => Statement::If {
            at,
            condition,
            chosen: statement,
        },
        Frame::Otherwise {
            at,
            condition,
            chosen,
        } => Statement::IfElse {
            at,
            condition,
            chosen,
            otherwise: statement,
        },
        Frame::Turns { at, condition } => Statement::While {
            at,
            condition,
            body: statement,
        },
        Frame::ForTurns(turns) => for_of(Box::into_inner(turns), statement),
        _ => unreachable!(),
    };
    let whole = Box::new(alloc, whole)?;
    settle(before_else, whole, Stack { alloc, frames })
}

/// The `else` behind the statement that an `if` chooses.
fn begin_otherwise(
    nesting: Nesting,
    at: u32,
    condition: Box<Expression>,
    chosen: Box<Statement>,
    stack: Stack,
) -> Moved
    ensures { Steps result (machine.go nesting.0 (machine.Begin (suc nesting.0)) (machine.Otherwise at (term condition.value) (stmt chosen.value) ∷ opened stack)) }
{
    let otherwise = Frame::Otherwise {
        at,
        condition,
        chosen,
    };
    begin_controlled(nesting, otherwise, stack)
}

/// Behind a statement that nothing more controls: the next of its block, an `else`, or the `while` of a `do`.
#[tactic(auto, using(crate::proofs::Lists::stmts_then))]
fn on_settled(statement: Box<Statement>, stack: Stack, token: Token) -> Moved
    ensures { Steps result (machine.on_settled (stmt statement.value) (opened stack) token) }
{
    let Some((frame, stack)) = stack.pop() else {
        return Ok(TokenStep::Refused);
    };
    match frame {
        Frame::InItems { nesting, mut body } => {
            body.push(Box::into_inner(statement))?;
            let stack = stack.push(Frame::InItems { nesting, body })?;
            on_item(nesting, stack, token)
        }
        Frame::Then {
            at,
            nesting,
            condition,
        } => match token.kind {
            TokenKind::Else => begin_otherwise(nesting, at, condition, statement, stack),
            _ => Ok(TokenStep::Refused),
        },
        Frame::DoTurns { at, nesting } => match token.kind {
            TokenKind::While => {
                let after = Mode::AfterDo {
                    nesting,
                    at,
                    body: statement,
                };
                stack.go(nesting, after)
            }
            _ => Ok(TokenStep::Refused),
        },
        _ => {
            drop(frame);
            Ok(TokenStep::Refused)
        }
    }
}

/// After a statement.
pub(crate) fn on_statement_read(statement: Box<Statement>, stack: Stack, token: Token) -> Moved
    ensures { Steps result (machine.on_statement_read (stmt statement.value) (opened stack) token) }
{
    let before_else = matches!(token.kind, TokenKind::Else);
    let settled = settle(before_else, statement, stack)?;
    on_settled(settled.statement, settled.stack, token)
}
