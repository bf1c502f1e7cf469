//! Statements, declarations and blocks.
#![tactic(auto)]

ghost use Rattle.std.specs.Prelude.{◌≡◌, ◌∷◌, suc, false};
ghost use Rattle.clmodel.specs.Tree as tree;
ghost use Rattle.clmodel.specs.Tree.{tree_target, stmt, NoTerm, NoStmt, func};
ghost use Rattle.clsyntax_terms.specs.Grammar as grammar;
ghost use Rattle.clsyntax_terms.specs.Machine as machine;
ghost use Rattle.clsyntax_terms.specs.Views.{opened, frame_of, stmts_of, Steps};

use crate::arrays::on_array;
use crate::heads::on_typing;
use clmodel::tree::{Expression, Function, Statement, Target};
use clsyntax_lex::token::{Token, TokenKind};
use clsyntax_terms::closing::{add_declaration, declaration, end_step};
use clsyntax_terms::nesting::Nesting;
use clsyntax_terms::operators::assign_of;
use clsyntax_terms::state::{
    Assign, Call, Declared, FirstName, Frame, HeadMode, Identifier, Mode, Moved, Purpose, Stack,
    TargetRead, TokenStep,
};

/// After a declared name.
pub(crate) fn on_declared(declared: Declared, stack: Stack, token: Token) -> Moved
    ensures { Steps result (machine.on_declared declared.nesting.0 declared.at declared.kind declared.identifier.at declared.identifier.name (opened stack) token) }
{
    match token.kind {
        TokenKind::Assign => stack.want(declared.nesting, Frame::InDeclare(declared)),
        TokenKind::Semicolon => {
            let statement = declaration(stack.alloc, declared, None)?;
            add_declaration(declared.nesting, statement, stack)
        }
        TokenKind::OpenSquare => on_array(declared, stack),
        _ => Ok(TokenStep::Refused),
    }
}

/// Where a function ends.
#[tactic(auto, using(crate::proofs::Lists::funcs_then))]
fn end_function(nesting: Nesting, function: Function, stack: Stack) -> Moved
    ensures { Steps result (machine.end_function nesting.0 (func function) (opened stack)) }
{
    let Some((frame, stack)) = stack.pop() else {
        return Ok(TokenStep::Refused);
    };
    match frame {
        Frame::InProgram(mut functions) => {
            functions.push(function)?;
            stack
                .push(Frame::InProgram(functions))?
                .go(nesting, Mode::Head(HeadMode::Top))
        }
        _ => {
            drop(frame);
            Ok(TokenStep::Refused)
        }
    }
}

/// A block with these statements, which begins at that token.
fn block_of(at: u32, body: Vec<Statement>) -> Statement
    ensures { stmt result ≡ tree.Block at (stmts_of body.items) }
{
    Statement::Block { at, body }
}

/// Where a block with these statements ends.
fn end_items(nesting: Nesting, body: Vec<Statement>, stack: Stack) -> Moved
    ensures { Steps result (machine.end_items nesting.0 (stmts_of body.items) (opened stack)) }
{
    let Some((frame, stack)) = stack.pop() else {
        return Ok(TokenStep::Refused);
    };
    match frame {
        Frame::InBody { head, at } => {
            let function = Function {
                is_kernel: head.is_kernel,
                result: head.result,
                name_at: head.identifier.at,
                name: head.identifier.name,
                parameters: head.parameters,
                body_at: at,
                body,
            };
            end_function(nesting, function, stack)
        }
        Frame::InBlock { at, .. } => {
            let statement = Box::new(stack.alloc, block_of(at, body))?;
            stack.go(nesting, Mode::StatementRead(statement))
        }
        _ => {
            drop(frame);
            Ok(TokenStep::Refused)
        }
    }
}

/// Ends the innermost block at its closing brace, where one is open.
fn on_close_brace(stack: Stack) -> Moved
    ensures { Steps result (machine.on_close_brace (opened stack)) }
{
    let Some((frame, stack)) = stack.pop() else {
        return Ok(TokenStep::Refused);
    };
    match frame {
        Frame::InItems { nesting, body } => end_items(nesting, body, stack),
        _ => {
            drop(frame);
            Ok(TokenStep::Refused)
        }
    }
}

/// Where a block begins that is a statement.
fn open_block(nesting: Nesting, at: u32, stack: Stack) -> Moved
    ensures { Steps result (machine.go nesting.0 (machine.Item (suc nesting.0)) (machine.InItems (suc nesting.0) NoStmt ∷ machine.InBlock at nesting.0 ∷ opened stack)) }
{
    let Some(inner) = nesting.deeper() else {
        return Ok(TokenStep::Deep);
    };
    let body = Vec::new(stack.alloc);
    let stack = stack
        .push(Frame::InBlock { at, nesting })?
        .push(Frame::InItems {
            nesting: inner,
            body,
        })?;
    stack.go(nesting, Mode::Item { nesting: inner })
}

/// The step of a `++` or `--` with which a statement begins.
fn begin_step(nesting: Nesting, at: u32, is_increment: bool, stack: Stack) -> Moved
    ensures { Steps result (machine.go nesting.0 (machine.Aim (suc nesting.0)) (machine.InStep at nesting.0 is_increment ∷ opened stack)) }
{
    let Some(inner) = nesting.deeper() else {
        return Ok(TokenStep::Deep);
    };
    let step = Frame::InStep {
        at,
        nesting,
        is_increment,
    };
    let stack = stack.push(step)?;
    stack.go(nesting, Mode::Aim { nesting: inner })
}

/// Where a simple statement may begin.
pub(crate) fn on_simple(nesting: Nesting, stack: Stack, token: Token) -> Moved
    ensures { Steps result (machine.on_simple nesting.0 (opened stack) token) }
{
    let Token { kind, at } = token;
    match kind {
        TokenKind::Name(name) => {
            let name = FirstName {
                is_step: false,
                nesting,
                identifier: Identifier { at, name },
            };
            stack.go(nesting, Mode::BeginName(name))
        }
        TokenKind::Star => {
            let behind = Frame::InBehind {
                is_step: false,
                at,
                nesting,
            };
            stack.open(nesting, behind)
        }
        TokenKind::PlusPlus => begin_step(nesting, at, true, stack),
        TokenKind::MinusMinus => begin_step(nesting, at, false, stack),
        _ => Ok(TokenStep::Refused),
    }
}

/// The step of a word that is a statement but for its semicolon.
fn close_word(nesting: Nesting, word: Statement, stack: Stack) -> Moved
    ensures { Steps result (machine.go nesting.0 (machine.Closing nesting.0 (stmt word)) (opened stack)) }
{
    let statement = Box::new(stack.alloc, word)?;
    stack.go(nesting, Mode::Closing { nesting, statement })
}

/// The step of a token before a statement that a frame controls.
pub(crate) fn begin_controlled(nesting: Nesting, frame: Frame, stack: Stack) -> Moved
    ensures { Steps result (machine.go nesting.0 (machine.Begin (suc nesting.0)) (frame_of frame ∷ opened stack)) }
{
    let stack = stack.push(frame)?;
    match nesting.deeper() {
        Some(inner) => stack.go(nesting, Mode::Begin { nesting: inner }),
        None => Ok(TokenStep::Deep),
    }
}

/// Where a statement may begin.
pub(crate) fn on_begin(nesting: Nesting, stack: Stack, token: Token) -> Moved
    ensures { Steps result (machine.on_begin nesting.0 (opened stack) token) }
{
    let Token { kind, at } = token;
    match kind {
        TokenKind::OpenBrace => open_block(nesting, at, stack),
        TokenKind::Semicolon => {
            let statement = Box::new(stack.alloc, Statement::Empty { at })?;
            stack.go(nesting, Mode::StatementRead(statement))
        }
        TokenKind::If => stack.go(nesting, Mode::AfterIf { nesting, at }),
        TokenKind::While => stack.go(nesting, Mode::AfterWhile { nesting, at }),
        TokenKind::Do => begin_controlled(nesting, Frame::DoTurns { at, nesting }, stack),
        TokenKind::For => stack.go(nesting, Mode::AfterFor { nesting, at }),
        TokenKind::Break => close_word(nesting, Statement::Break { at }, stack),
        TokenKind::Continue => close_word(nesting, Statement::Continue { at }, stack),
        TokenKind::Return => {
            let stack = stack.push(Frame::InReturn { at, nesting })?;
            stack.go(nesting, Mode::Optional { nesting })
        }
        _ => on_simple(nesting, stack, token),
    }
}

/// Where a statement, a declaration or the block's end is wanted.
pub(crate) fn on_item(nesting: Nesting, stack: Stack, token: Token) -> Moved
    ensures { Steps result (machine.on_item nesting.0 (opened stack) token) }
{
    let Token { kind, at } = token;
    match kind {
        TokenKind::CloseBrace => on_close_brace(stack),
        TokenKind::Type(_) | TokenKind::SizeT | TokenKind::Space(_) => {
            on_typing(Purpose::Declaration { at, nesting }, stack, kind)
        }
        _ => on_begin(nesting, stack, token),
    }
}

/// Where the target of `++` or `--` is wanted.
pub(crate) fn on_aim(nesting: Nesting, stack: Stack, token: Token) -> Moved
    ensures { Steps result (machine.on_aim nesting.0 (opened stack) token) }
{
    let Token { kind, at } = token;
    match kind {
        TokenKind::Name(name) => {
            let name = FirstName {
                is_step: true,
                nesting,
                identifier: Identifier { at, name },
            };
            stack.go(nesting, Mode::BeginName(name))
        }
        TokenKind::Star => {
            let behind = Frame::InBehind {
                is_step: true,
                at,
                nesting,
            };
            stack.open(nesting, behind)
        }
        _ => Ok(TokenStep::Refused),
    }
}

/// Whether `++` or `--` goes up (C99 6.5.2.4 and 6.5.3.1).
fn step_of(kind: TokenKind) -> Option<bool>
    ensures { result ≡ grammar.step_of kind }
{
    match kind {
        TokenKind::PlusPlus => Some(true),
        TokenKind::MinusMinus => Some(false),
        _ => None,
    }
}

/// After the target with which a statement begins.
fn on_placed(nesting: Nesting, at: u32, target: Box<Target>, stack: Stack, token: Token) -> Moved
    ensures { Steps result (machine.on_target_read false nesting.0 at (tree_target target.value) (opened stack) token.kind) }
{
    match assign_of(token.kind) {
        Some(operator) => {
            let assign = Assign {
                at,
                nesting,
                target,
                operator,
            };
            stack.want(nesting, Frame::InAssign(assign))
        }
        None => match step_of(token.kind) {
            Some(is_increment) => {
                let step = Statement::Step {
                    at,
                    target,
                    is_increment,
                };
                let statement = Box::new(stack.alloc, step)?;
                stack.go(nesting, Mode::Ended { nesting, statement })
            }
            None => Ok(TokenStep::Refused),
        },
    }
}

/// After a name or an element that is a target.
pub(crate) fn on_target_read(read: TargetRead, stack: Stack, token: Token) -> Moved
    ensures { Steps result (machine.on_target_read read.is_step read.nesting.0 read.at (tree_target read.target.value) (opened stack) token.kind) }
{
    let TargetRead {
        is_step,
        nesting,
        at,
        target,
    } = read;
    match (is_step, token.kind) {
        (false, _) => on_placed(nesting, at, target, stack, token),
        (true, TokenKind::Semicolon) => end_step(false, target, stack),
        (true, TokenKind::CloseRound) => end_step(true, target, stack),
        (true, _) => Ok(TokenStep::Refused),
    }
}

/// The step of a call's bracket.
pub(crate) fn open_call(
    is_statement: bool,
    nesting: Nesting,
    identifier: Identifier,
    stack: Stack,
) -> Moved
    ensures { Steps result (machine.go nesting.0 (machine.CallOpen (suc nesting.0)) (machine.InCall is_statement identifier.at identifier.name nesting.0 NoTerm ∷ opened stack)) }
{
    let Some(inner) = nesting.deeper() else {
        return Ok(TokenStep::Deep);
    };
    let arguments = Vec::new(stack.alloc);
    let stack = stack.push(Frame::InCall(Call {
        is_statement,
        identifier,
        nesting,
        arguments,
    }))?;
    stack.go(nesting, Mode::CallOpen { nesting: inner })
}

/// After the name with which a statement, or a target behind `++` or `--`, begins.
pub(crate) fn on_begin_name(first: FirstName, stack: Stack, token: Token) -> Moved
    ensures { Steps result (machine.on_begin_name first.is_step first.nesting.0 first.identifier.at first.identifier.name (opened stack) token) }
{
    let FirstName {
        is_step,
        nesting,
        identifier,
    } = first;
    match token.kind {
        TokenKind::OpenSquare => stack.open(nesting, Frame::InPart(first)),
        TokenKind::OpenRound if is_step => Ok(TokenStep::Refused),
        TokenKind::OpenRound => open_call(true, nesting, identifier, stack),
        _ => {
            let Identifier { at, name } = identifier;
            let target = Box::new(stack.alloc, Target::Variable { at, name })?;
            let read = TargetRead {
                is_step,
                nesting,
                at,
                target,
            };
            on_target_read(read, stack, token)
        }
    }
}
