//! Where statements and declarations end, and the parts of a `for`.
#![tactic(auto)]

ghost use Rattle.std.specs.Prelude.{◌≡◌, ◌∷◌, suc, IfOk};
ghost use Rattle.clmodel.specs.Tree as tree;
ghost use Rattle.clmodel.specs.Tree.{term, tree_target, stmt, maybe_term, ThenStmt};
ghost use Rattle.clsyntax_terms.specs.Machine as machine;
ghost use Rattle.clsyntax_terms.specs.Views.{opened, frame_of, stmts_of, maybe_statement, Steps};

use crate::nesting::Nesting;
use crate::state::{Assign, Declared, ForPart, Frame, Mode, Moved, Stack, TokenStep, Turns};
use clmodel::tree::{Expression, Statement, Target};
use clsyntax_lex::token::TokenKind;
use std::alloc::{AllocError, Global};

/// The second part of a `for`, behind the first.
pub fn begin_condition(
    nesting: Nesting,
    at: u32,
    initial: Option<Box<Statement>>,
    stack: Stack,
) -> Moved
    ensures { Steps result (machine.go nesting.0 (machine.Optional nesting.0) (machine.InCondition at nesting.0 (maybe_statement initial) ∷ opened stack)) }
{
    let turns = Turns {
        at,
        nesting,
        initial,
        condition: None,
        last: None,
    };
    let turns = Box::new(stack.alloc, turns)?;
    let stack = stack.push(Frame::InCondition(turns))?;
    stack.go(nesting, Mode::Optional { nesting })
}

/// The third part of a `for`, behind the second.
fn begin_final(turns: Box<Turns>, condition: Option<Box<Expression>>, stack: Stack) -> Moved
    ensures { Steps result (machine.go turns.value.nesting.0 (machine.Final turns.value.nesting.0) (machine.InFinal turns.value.at (maybe_statement turns.value.initial) (maybe_term condition) ∷ opened stack)) }
{
    let mut turns = turns;
    let nesting = turns.nesting;
    turns.condition = condition;
    let stack = stack.push(Frame::InFinal(turns))?;
    stack.go(nesting, Mode::Final { nesting })
}

/// The body of a `for`, behind the third part.
pub fn begin_turns(
    nesting: Nesting,
    turns: Box<Turns>,
    last: Option<Box<Statement>>,
    stack: Stack,
) -> Moved
    ensures { Steps result (machine.go nesting.0 (machine.Begin nesting.0) (machine.ForTurns turns.value.at (maybe_statement turns.value.initial) (maybe_term turns.value.condition) (maybe_statement last) ∷ opened stack)) }
{
    let mut turns = turns;
    turns.last = last;
    stack.begin(nesting, Frame::ForTurns(turns))
}

/// The semicolon of a simple statement.
fn end_simple(nesting: Nesting, statement: Box<Statement>, stack: Stack) -> Moved
    ensures { Steps result (machine.end_simple nesting.0 (stmt statement.value) (opened stack)) }
{
    // The frame is looked at before it is taken, since it stays but in front of the second part of a `for`.
    match stack.part() {
        ForPart::Other => stack.go(nesting, Mode::StatementRead(statement)),
        ForPart::Final => Ok(TokenStep::Refused),
        ForPart::Initial => {
            let Some((frame, stack)) = stack.pop() else {
                return Ok(TokenStep::Refused);
            };
            match frame {
                Frame::InInitial { at } => begin_condition(nesting, at, Some(statement), stack),
                _ => {
                    drop(frame);
                    Ok(TokenStep::Refused)
                }
            }
        }
    }
}

/// The bracket behind a simple statement.
fn end_final(nesting: Nesting, statement: Box<Statement>, stack: Stack) -> Moved
    ensures { Steps result (machine.end_final nesting.0 (stmt statement.value) (opened stack)) }
{
    let Some((frame, stack)) = stack.pop() else {
        return Ok(TokenStep::Refused);
    };
    match frame {
        Frame::InFinal(turns) => begin_turns(nesting, turns, Some(statement), stack),
        _ => {
            drop(frame);
            Ok(TokenStep::Refused)
        }
    }
}

/// The semicolon or the bracket behind a simple statement.
pub(crate) fn ends_simple(
    is_bracket: bool,
    nesting: Nesting,
    statement: Box<Statement>,
    stack: Stack,
) -> Moved
    ensures { Steps result (machine.ends_simple is_bracket nesting.0 (stmt statement.value) (opened stack)) }
{
    if is_bracket {
        end_final(nesting, statement, stack)
    } else {
        end_simple(nesting, statement, stack)
    }
}

/// After a simple statement.
pub fn on_ended(nesting: Nesting, statement: Box<Statement>, stack: Stack, kind: TokenKind) -> Moved
    ensures { Steps result (machine.on_ended nesting.0 (stmt statement.value) (opened stack) kind) }
{
    match kind {
        TokenKind::Semicolon => end_simple(nesting, statement, stack),
        TokenKind::CloseRound => end_final(nesting, statement, stack),
        _ => Ok(TokenStep::Refused),
    }
}

/// Where `++` or `--` and its target end.
pub fn end_step(is_bracket: bool, target: Box<Target>, stack: Stack) -> Moved
    ensures { Steps result (machine.end_step is_bracket (tree_target target.value) (opened stack)) }
{
    let Some((frame, stack)) = stack.pop() else {
        return Ok(TokenStep::Refused);
    };
    match frame {
        Frame::InStep {
            at,
            nesting,
            is_increment,
        } => {
            let step = Statement::Step {
                at,
                target,
                is_increment,
            };
            let statement = Box::new(stack.alloc, step)?;
            ends_simple(is_bracket, nesting, statement, stack)
        }
        _ => {
            drop(frame);
            Ok(TokenStep::Refused)
        }
    }
}

/// Where an assignment of a value ends.
fn end_assign(is_bracket: bool, assign: Assign, value: Box<Expression>, stack: Stack) -> Moved
    ensures { Steps result (machine.ends_simple is_bracket assign.nesting.0 (tree.Assign assign.at (tree_target assign.target.value) assign.operator (term value.value)) (opened stack)) }
{
    let Assign {
        at,
        nesting,
        target,
        operator,
    } = assign;
    let statement = Statement::Assign {
        at,
        target,
        operator,
        value,
    };
    let statement = Box::new(stack.alloc, statement)?;
    ends_simple(is_bracket, nesting, statement, stack)
}

/// A declaration, with its value if it has one.
pub fn declaration(
    alloc: Global,
    declared: Declared,
    value: Option<Box<Expression>>,
) -> Result<Box<Statement>, AllocError>
    ensures { IfOk result (λ made. stmt made.value ≡ tree.declared declared.at declared.kind declared.identifier.at declared.identifier.name value) }
{
    let statement = Statement::Declare {
        at: declared.at,
        kind: declared.kind,
        name_at: declared.identifier.at,
        name: declared.identifier.name,
        value,
    };
    Ok(Box::new(alloc, statement)?)
}

/// One more declaration of a block.
#[tactic(auto, using(crate::proofs::Lists::stmts_then))]
fn add_item(
    nesting: Nesting,
    outer: Nesting,
    body: Vec<Statement>,
    statement: Box<Statement>,
    stack: Stack,
) -> Moved
    ensures { Steps result (machine.go nesting.0 (machine.Item nesting.0) (machine.InItems outer.0 (ThenStmt (stmts_of body.items) (stmt statement.value)) ∷ opened stack)) }
{
    let mut body = body;
    body.push(Box::into_inner(statement))?;
    let stack = stack.push(Frame::InItems {
        nesting: outer,
        body,
    })?;
    stack.go(nesting, Mode::Item { nesting })
}

/// Where a declaration of a block ends.
pub fn add_declaration(nesting: Nesting, statement: Box<Statement>, stack: Stack) -> Moved
    ensures { Steps result (machine.add_declaration nesting.0 (stmt statement.value) (opened stack)) }
{
    let Some((frame, stack)) = stack.pop() else {
        return Ok(TokenStep::Refused);
    };
    let Frame::InItems {
        nesting: outer,
        body,
    } = frame
    else {
        drop(frame);
        return Ok(TokenStep::Refused);
    };
    add_item(nesting, outer, body, statement, stack)
}

/// Where a declaration with a value ends.
fn end_declaration(nesting: Nesting, statement: Box<Statement>, stack: Stack) -> Moved
    ensures { Steps result (machine.end_declaration nesting.0 (stmt statement.value) (opened stack)) }
{
    let Some((frame, stack)) = stack.pop() else {
        return Ok(TokenStep::Refused);
    };
    match frame {
        Frame::InItems {
            nesting: outer,
            body,
        } => add_item(nesting, outer, body, statement, stack),
        Frame::InInitial { at } => begin_condition(nesting, at, Some(statement), stack),
        _ => {
            drop(frame);
            Ok(TokenStep::Refused)
        }
    }
}

/// Where a value is given back, if there is one.
fn end_return(nesting: Nesting, at: u32, value: Option<Box<Expression>>, stack: Stack) -> Moved
    ensures { Steps result (machine.go nesting.0 (machine.StatementRead (tree.returned at value)) (opened stack)) }
{
    let statement = Box::new(stack.alloc, Statement::Return { at, value })?;
    stack.go(nesting, Mode::StatementRead(statement))
}

/// The semicolon behind an expression.
pub(crate) fn on_semicolon(value: Box<Expression>, stack: Stack) -> Moved
    ensures { Steps result (machine.on_semicolon (term value.value) (opened stack)) }
{
    let Some((frame, stack)) = stack.pop() else {
        return Ok(TokenStep::Refused);
    };
    match frame {
        Frame::InAssign(assign) => end_assign(false, assign, value, stack),
        Frame::InBehind {
            is_step: true,
            at,
            ..
        } => {
            let target = Box::new(stack.alloc, Target::Dereference { at, pointer: value })?;
            end_step(false, target, stack)
        }
        Frame::InDeclare(declared) => {
            let statement = declaration(stack.alloc, declared, Some(value))?;
            end_declaration(declared.nesting, statement, stack)
        }
        Frame::InReturn { at, nesting } => end_return(nesting, at, Some(value), stack),
        Frame::InCondition(turns) => begin_final(turns, Some(value), stack),
        _ => {
            drop(frame);
            Ok(TokenStep::Refused)
        }
    }
}

/// A semicolon in place of an expression.
pub fn on_nothing(stack: Stack) -> Moved
    ensures { Steps result (machine.without (opened stack)) }
{
    let Some((frame, stack)) = stack.pop() else {
        return Ok(TokenStep::Refused);
    };
    match frame {
        Frame::InReturn { at, nesting } => end_return(nesting, at, None, stack),
        Frame::InCondition(turns) => begin_final(turns, None, stack),
        _ => {
            drop(frame);
            Ok(TokenStep::Refused)
        }
    }
}

/// What a condition in brackets controls.
fn begin_body(nesting: Nesting, frame: Frame, stack: Stack) -> Moved
    ensures { Steps result (machine.go (suc nesting.0) (machine.Begin (suc nesting.0)) (frame_of frame ∷ opened stack)) }
{
    match nesting.deeper() {
        Some(inner) => stack.begin(inner, frame),
        None => {
            drop(frame);
            Ok(TokenStep::Deep)
        }
    }
}

/// The bracket behind the condition of a `do`.
fn end_do(
    nesting: Nesting,
    at: u32,
    body: Box<Statement>,
    condition: Box<Expression>,
    stack: Stack,
) -> Moved
    ensures { Steps result (machine.go (suc nesting.0) (machine.Closing nesting.0 (tree.DoWhile at (stmt body.value) (term condition.value))) (opened stack)) }
{
    let Some(inner) = nesting.deeper() else {
        return Ok(TokenStep::Deep);
    };
    let turns = Statement::DoWhile {
        at,
        body,
        condition,
    };
    let statement = Box::new(stack.alloc, turns)?;
    stack.go(inner, Mode::Closing { nesting, statement })
}

/// The bracket behind an expression of a statement.
pub(crate) fn end_bracket(frame: Frame, value: Box<Expression>, stack: Stack) -> Moved
    ensures { Steps result (machine.end_bracket (term value.value) (frame_of frame ∷ opened stack)) }
{
    match frame {
        Frame::InIf { at, nesting } => {
            let then = Frame::Then {
                at,
                nesting,
                condition: value,
            };
            begin_body(nesting, then, stack)
        }
        Frame::InWhile { at, nesting } => {
            let turns = Frame::Turns {
                at,
                condition: value,
            };
            begin_body(nesting, turns, stack)
        }
        Frame::InDo { at, nesting, body } => end_do(nesting, at, body, value, stack),
        Frame::InAssign(assign) => end_assign(true, assign, value, stack),
        Frame::InBehind {
            is_step: true,
            at,
            ..
        } => {
            let target = Box::new(stack.alloc, Target::Dereference { at, pointer: value })?;
            end_step(true, target, stack)
        }
        _ => {
            drop(frame);
            Ok(TokenStep::Refused)
        }
    }
}
