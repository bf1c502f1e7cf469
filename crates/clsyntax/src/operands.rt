//! What begins an operand, or stands in its place.
#![tactic(auto)]

ghost use Rattle.std.specs.Prelude.{◌≡◌};
ghost use Rattle.clsyntax_terms.specs.Machine as machine;
ghost use Rattle.clsyntax_terms.specs.Views.{opened, is_operand, Steps};

use clnum::IntType;
use clsyntax_lex::token::{Token, TokenKind};
use clsyntax_terms::closing::on_nothing;
use clsyntax_terms::expressions::{end_call, on_operand};
use clsyntax_terms::nesting::Nesting;
use clsyntax_terms::operators::prefix_of;
use clsyntax_terms::state::{Cast, Frame, Mode, Moved, Stack, TokenStep};

/// Whether an operand or the type of a cast begins with a token.
fn begins_operand(kind: TokenKind) -> bool
    ensures { result ≡ is_operand kind }
{
    match kind {
        TokenKind::Type(_) | TokenKind::SizeT | TokenKind::Number(_) | TokenKind::Name(_) => true,
        TokenKind::And | TokenKind::OpenRound => true,
        _ => prefix_of(kind).is_some(),
    }
}

/// After a bracket where an operand was wanted: the type of a cast, or an operand.
pub(crate) fn on_opened(nesting: Nesting, at: u32, stack: Stack, token: Token) -> Moved
    ensures { Steps result (machine.on_opened nesting.0 at (opened stack) token) }
{
    if !begins_operand(token.kind) {
        return Ok(TokenStep::Refused);
    }
    let Some(inner) = nesting.deeper() else {
        return Ok(TokenStep::Deep);
    };
    match token.kind {
        TokenKind::Type(target) => {
            let cast = Cast {
                nesting,
                at,
                target,
            };
            stack.go(inner, Mode::CastType(cast))
        }
        TokenKind::SizeT => {
            let cast = Cast {
                nesting,
                at,
                target: IntType::Ulong,
            };
            stack.go(inner, Mode::CastType(cast))
        }
        _ => on_operand(inner, stack.push(Frame::InRound { at, nesting })?, token),
    }
}

/// Ends a call at its closing parenthesis, where one is open.
fn close_call(stack: Stack) -> Moved
    ensures { Steps result (machine.close_call (opened stack)) }
{
    let Some((frame, stack)) = stack.pop() else {
        return Ok(TokenStep::Refused);
    };
    match frame {
        Frame::InCall(call) => end_call(call, stack),
        _ => {
            drop(frame);
            Ok(TokenStep::Refused)
        }
    }
}

/// After the bracket of a call.
pub(crate) fn on_call_open(nesting: Nesting, stack: Stack, token: Token) -> Moved
    ensures { Steps result (machine.on_call_open nesting.0 (opened stack) token) }
{
    match token.kind {
        TokenKind::CloseRound => close_call(stack),
        _ => on_operand(nesting, stack, token),
    }
}

/// Where an expression is wanted, or a semicolon in its place.
pub(crate) fn on_optional(nesting: Nesting, stack: Stack, token: Token) -> Moved
    ensures { Steps result (machine.on_optional nesting.0 (opened stack) token) }
{
    match token.kind {
        TokenKind::Semicolon => on_nothing(stack),
        _ => on_operand(nesting, stack, token),
    }
}
