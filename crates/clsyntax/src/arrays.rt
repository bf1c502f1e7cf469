//! Declarations of arrays (C99 6.7.5.2; OpenCL 1.2, 6.5.2 and 6.5.4).
#![tactic(auto)]

ghost use Rattle.std.specs.Prelude.{◌≡◌, suc};
ghost use Rattle.clmodel.specs.Tree as tree;
ghost use Rattle.clmodel.specs.Tree.{stmt};
ghost use Rattle.clsyntax_terms.specs.Machine as machine;
ghost use Rattle.clsyntax_terms.specs.Views.{frames_of, opened, purpose, array_mode_of, Steps};

use clmodel::tree::{AddressSpace, PointerType, Statement, VariableType};
use clnum::Value;
use clsyntax_lex::token::{Token, TokenKind};
use clsyntax_terms::closing::add_declaration;
use clsyntax_terms::nesting::Nesting;
use clsyntax_terms::state::{
    Array, ArrayMode, Declared, Frame, Frames, Identifier, Mode, Moved, Purpose, Stack, TokenStep,
};

/// Whether the items of a block are in front.
fn in_block(frames: &Frames) -> bool
    ensures { result ≡ machine.in_block (frames_of frames.now) }
{
    matches!(frames, Frames::Inside(Frame::InItems { .. }, _))
}

/// The square bracket behind a declared name.
pub(crate) fn on_array(declared: Declared, stack: Stack) -> Moved
    ensures { Steps result (machine.on_array declared.nesting.0 declared.at declared.kind declared.identifier.at declared.identifier.name (opened stack)) }
{
    let VariableType::Integer(element) = declared.kind else {
        return Ok(TokenStep::Refused);
    };
    if !in_block(&stack.frames) {
        return Ok(TokenStep::Refused);
    }
    let array = Array {
        nesting: declared.nesting,
        at: declared.at,
        is_local: false,
        element,
        identifier: declared.identifier,
    };
    stack.go(declared.nesting, Mode::Array(ArrayMode::Opened(array)))
}

/// A name in place of a pointer's star: a local array's.
pub(crate) fn on_local_name(
    wanted: Purpose,
    pointer: PointerType,
    identifier: Identifier,
    stack: Stack,
) -> Moved
    ensures { Steps result (machine.on_local_name (purpose wanted) pointer.space pointer.is_const pointer.element identifier.at identifier.name (opened stack)) }
{
    match (wanted, pointer.space, pointer.is_const) {
        (Purpose::Declaration { at, nesting }, AddressSpace::Local, false) => {
            let array = Array {
                nesting,
                at,
                is_local: true,
                element: pointer.element,
                identifier,
            };
            stack.go(nesting, Mode::Array(ArrayMode::Named(array)))
        }
        _ => Ok(TokenStep::Refused),
    }
}

/// The length of an array.
fn on_length(array: Array, length_at: u32, length: Value, stack: Stack) -> Moved
    ensures { Steps result (machine.go (suc array.nesting.0) (machine.ArraySized array.nesting.0 (tree.DeclareArray array.at array.is_local array.element array.identifier.at array.identifier.name length_at length)) (opened stack)) }
{
    let Some(inner) = array.nesting.deeper() else {
        return Ok(TokenStep::Deep);
    };
    let declaration = Statement::DeclareArray {
        at: array.at,
        is_local: array.is_local,
        element: array.element,
        name_at: array.identifier.at,
        name: array.identifier.name,
        length_at,
        length,
    };
    let statement = Box::new(stack.alloc, declaration)?;
    let sized = ArrayMode::Sized {
        nesting: array.nesting,
        statement,
    };
    stack.go(inner, Mode::Array(sized))
}

/// The bracket behind an array's length.
fn on_sized(nesting: Nesting, statement: Box<Statement>, stack: Stack) -> Moved
    ensures { Steps result (machine.go (suc nesting.0) (machine.ArrayClosed nesting.0 (stmt statement.value)) (opened stack)) }
{
    match nesting.deeper() {
        Some(inner) => stack.go(inner, Mode::Array(ArrayMode::Closed { nesting, statement })),
        None => Ok(TokenStep::Deep),
    }
}

/// In an array's declaration.
pub(crate) fn on_array_mode(mode: ArrayMode, stack: Stack, token: Token) -> Moved
    ensures { Steps result (machine.step_in (array_mode_of mode) (opened stack) token) }
{
    match (mode, token.kind) {
        (ArrayMode::Named(array), TokenKind::OpenSquare) => {
            stack.go(array.nesting, Mode::Array(ArrayMode::Opened(array)))
        }
        (ArrayMode::Opened(array), TokenKind::Number(length)) => {
            on_length(array, token.at, length, stack)
        }
        (ArrayMode::Sized { nesting, statement }, TokenKind::CloseSquare) => {
            on_sized(nesting, statement, stack)
        }
        (ArrayMode::Closed { nesting, statement }, TokenKind::Semicolon) => {
            add_declaration(nesting, statement, stack)
        }
        _ => Ok(TokenStep::Refused),
    }
}
