//! Types, and the head of a function.
#![tactic(auto)]

ghost use Rattle.std.specs.Prelude.{◌≡◌, [], ◌∷◌, not};
ghost use Rattle.clsyntax_terms.specs.Grammar as grammar;
ghost use Rattle.clsyntax_terms.specs.Machine as machine;
ghost use Rattle.clsyntax_terms.specs.Views.{opened, purpose, type_mode_of, head_mode_of, Steps};

use crate::arrays::on_local_name;
use clmodel::tree::{Parameter, PointerType, VariableType};
use clnum::IntType;
use clsyntax_lex::token::{Token, TokenKind};
use clsyntax_terms::nesting::Nesting;
use clsyntax_terms::state::{
    Declared, Frame, Head, HeadMode, Identifier, Mode, Moved, Purpose, Stack, TokenStep, TypeMode,
};

/// The nesting of a type's tokens.
fn nesting_of(wanted: Purpose) -> Nesting
    ensures { result.0 ≡ machine.nesting_of (purpose wanted) }
{
    match wanted {
        Purpose::Parameter { .. } => Nesting(1),
        Purpose::Declaration { nesting, .. } => nesting,
    }
}

/// The integer type that a word names, where a type is read for a purpose.
fn type_of(wanted: Purpose, kind: TokenKind) -> Option<IntType>
    ensures { result ≡ grammar.type_of (machine.takes_size (purpose wanted)) kind }
{
    match (kind, wanted) {
        (TokenKind::Type(integer), _) => Some(integer),
        (TokenKind::SizeT, Purpose::Declaration { .. } | Purpose::Parameter { takes_size: true }) =>
            Some(IntType::Ulong),
        _ => None,
    }
}

/// Where a type may begin.
pub(crate) fn on_typing(wanted: Purpose, stack: Stack, kind: TokenKind) -> Moved
    ensures { Steps result (machine.on_typing (purpose wanted) (opened stack) kind) }
{
    let mode = match (kind, type_of(wanted, kind)) {
        (TokenKind::Space(space), _) => TypeMode::AfterSpace(space),
        (_, Some(integer)) => TypeMode::Whole(VariableType::Integer(integer)),
        _ => return Ok(TokenStep::Refused),
    };
    stack.go(nesting_of(wanted), Mode::Typing { wanted, mode })
}

/// One more parameter of the head.
fn on_parameter_name(takes_size: bool, parameter: Parameter, stack: Stack) -> Moved
    ensures { Steps result (machine.on_parameter_name takes_size parameter (opened stack)) }
{
    let Some((frame, stack)) = stack.pop() else {
        return Ok(TokenStep::Refused);
    };
    match frame {
        Frame::InHead(mut head) => {
            head.parameters.push(parameter)?;
            stack.push(Frame::InHead(head))?.go(
                Nesting(1),
                Mode::Head(HeadMode::AfterParameter { takes_size }),
            )
        }
        _ => {
            drop(frame);
            Ok(TokenStep::Refused)
        }
    }
}

/// The name of what a type was read for.
fn on_typed_name(wanted: Purpose, kind: VariableType, identifier: Identifier, stack: Stack) -> Moved
    ensures { Steps result (machine.on_typed_name (purpose wanted) kind identifier.at identifier.name (opened stack)) }
{
    match wanted {
        Purpose::Parameter { takes_size } => on_parameter_name(
            takes_size,
            Parameter {
                name_at: identifier.at,
                name: identifier.name,
                kind,
            },
            stack,
        ),
        Purpose::Declaration { at, nesting } => {
            let declared = Declared {
                nesting,
                at,
                kind,
                identifier,
            };
            stack.go(nesting, Mode::Declared(declared))
        }
    }
}

/// In a type, or after it.
pub(crate) fn on_type(wanted: Purpose, mode: TypeMode, stack: Stack, token: Token) -> Moved
    ensures { Steps result (machine.step_in (type_mode_of wanted mode) (opened stack) token) }
{
    let at = token.at;
    let next = match (mode, token.kind) {
        (TypeMode::AfterSpace(space), TokenKind::Const) => TypeMode::AfterConst(space),
        (TypeMode::AfterSpace(space) | TypeMode::AfterConst(space), kind) => {
            let Some(element) = type_of(wanted, kind) else {
                return Ok(TokenStep::Refused);
            };
            TypeMode::AfterElement(PointerType {
                space,
                is_const: matches!(mode, TypeMode::AfterConst(_)),
                element,
            })
        }
        (TypeMode::AfterElement(pointer), TokenKind::Star) => {
            TypeMode::Whole(VariableType::Pointer(pointer))
        }
        (TypeMode::AfterElement(pointer), TokenKind::Name(name)) => {
            return on_local_name(wanted, pointer, Identifier { at, name }, stack);
        }
        (TypeMode::Whole(kind), TokenKind::Name(name)) => return on_typed_name(
            wanted,
            kind,
            Identifier { at, name },
            stack,
        ),
        _ => return Ok(TokenStep::Refused),
    };
    stack.go(nesting_of(wanted), Mode::Typing { wanted, mode: next })
}

/// Where a function's body begins.
fn on_open_brace(at: u32, stack: Stack) -> Moved
    ensures { Steps result (machine.on_open_brace at (opened stack)) }
{
    let Some((frame, stack)) = stack.pop() else {
        return Ok(TokenStep::Refused);
    };
    match frame {
        Frame::InHead(head) => {
            let body = Vec::new(stack.alloc);
            let stack = stack.push(Frame::InBody { head, at })?;
            let nesting = Nesting(1);
            stack
                .push(Frame::InItems { nesting, body })?
                .go(Nesting(0), Mode::Item { nesting })
        }
        _ => {
            drop(frame);
            Ok(TokenStep::Refused)
        }
    }
}

/// Where a function may begin.
fn on_top(stack: Stack, token: Token) -> Moved
    ensures { Steps result (machine.on_top (opened stack) token) }
{
    let result = match token.kind {
        TokenKind::Kernel => return stack.go(Nesting(0), Mode::Head(HeadMode::AfterKernel)),
        TokenKind::Void => None,
        TokenKind::Type(integer) => Some(integer),
        TokenKind::SizeT => Some(IntType::Ulong),
        _ => return Ok(TokenStep::Refused),
    };
    let is_kernel = false;
    stack.go(
        Nesting(0),
        Mode::Head(HeadMode::AfterReturning { is_kernel, result }),
    )
}

/// Where the bracket of a function's head opens.
fn open_head(
    is_kernel: bool,
    returned: Option<IntType>,
    identifier: Identifier,
    stack: Stack,
) -> Moved
    ensures { Steps result (machine.go 0 (machine.HeadOpen (not is_kernel)) (machine.InHead (grammar.head is_kernel returned identifier.at identifier.name []) ∷ opened stack)) }
{
    let parameters = Vec::new(stack.alloc);
    let head = Frame::InHead(Head {
        is_kernel,
        result: returned,
        identifier,
        parameters,
    });
    let takes_size = !is_kernel;
    stack
        .push(head)?
        .go(Nesting(0), Mode::Head(HeadMode::HeadOpen { takes_size }))
}

/// After what a function returns.
fn on_after_returning(
    is_kernel: bool,
    returned: Option<IntType>,
    stack: Stack,
    token: Token,
) -> Moved
    ensures { Steps result (machine.on_after_returning is_kernel returned (opened stack) token) }
{
    let TokenKind::Name(name) = token.kind else {
        return Ok(TokenStep::Refused);
    };
    let named = HeadMode::AfterName {
        is_kernel,
        result: returned,
        identifier: Identifier { at: token.at, name },
    };
    stack.go(Nesting(0), Mode::Head(named))
}

/// After `kernel`.
fn on_after_kernel(stack: Stack, token: Token) -> Moved
    ensures { Steps result (machine.on_after_kernel (opened stack) token) }
{
    let TokenKind::Void = token.kind else {
        return Ok(TokenStep::Refused);
    };
    let returning = HeadMode::AfterReturning {
        is_kernel: true,
        result: None,
    };
    stack.go(Nesting(0), Mode::Head(returning))
}

/// In the head of a function.
pub(crate) fn on_head(mode: HeadMode, stack: Stack, token: Token) -> Moved
    ensures { Steps result (machine.step_in (head_mode_of mode) (opened stack) token) }
{
    match (mode, token.kind) {
        (HeadMode::Top, _) => on_top(stack, token),
        (HeadMode::AfterKernel, _) => on_after_kernel(stack, token),
        (HeadMode::AfterReturning { is_kernel, result }, _) => {
            on_after_returning(is_kernel, result, stack, token)
        }
        (
            HeadMode::AfterName {
                is_kernel,
                result,
                identifier,
            },
            TokenKind::OpenRound,
        ) => { open_head(is_kernel, result, identifier, stack) }
        (HeadMode::HeadOpen { .. } | HeadMode::AfterParameter { .. }, TokenKind::CloseRound) => {
            stack.go(Nesting(1), Mode::Head(HeadMode::HeadDone))
        }
        (HeadMode::AfterParameter { takes_size }, TokenKind::Comma) => {
            stack.go(
                Nesting(1),
                Mode::Head(HeadMode::WantParameter { takes_size }),
            )
        }
        (HeadMode::HeadOpen { takes_size } | HeadMode::WantParameter { takes_size }, kind) => {
            on_typing(Purpose::Parameter { takes_size }, stack, kind)
        }
        (HeadMode::HeadDone, TokenKind::OpenBrace) => on_open_brace(token.at, stack),
        _ => Ok(TokenStep::Refused),
    }
}
