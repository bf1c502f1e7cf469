//! From tokens to a tree.
#![tactic(auto)]

ghost use Rattle.std.specs.Prelude.{◌≡◌, ◌∷◌, IfOk};
ghost use Rattle.clsyntax_terms.specs.Machine as machine;
ghost use Rattle.clsyntax_terms.specs.Machine.{ended, ended_in, begun};
ghost use Rattle.clsyntax.specs.Reading.{at_end, read_from};
ghost use Rattle.clsyntax_terms.specs.Views.{funcs_of, frames_of, state_of};
ghost use Rattle.clsyntax.specs.Views.{IsAdvance, IsRead};

use crate::machine::step;
use clmodel::text::Name;
use clmodel::tree::Function;
use clsyntax_lex::token::{SyntaxFault, Token};
use clsyntax_terms::state::{Frame, Frames, HeadMode, Mode, State, TokenStep};
use limits::Limits;
use std::alloc::{AllocError, Global};

/// The state before the first token.
fn begin(alloc: Global) -> Result<Box<State>, AllocError>
    ensures { IfOk result (λ state. state_of state.value ≡ begun) }
{
    let below = Box::new(alloc, Frames::Empty)?;
    let program = Frame::InProgram(Vec::new(alloc));
    let frames = Box::new(alloc, Frames::Inside(program, below))?;
    let state = Box::new(
        alloc,
        State {
            mode: Mode::Head(HeadMode::Top),
            frames,
        },
    )?;
    Ok(state)
}

/// The state after one more token, which may be nested as deep as the device allows.
fn advance(
    alloc: Global,
    limits: Limits,
    state: Box<State>,
    token: Token,
) -> Result<Box<State>, SyntaxFault>
    ensures { IsAdvance limits result (machine.step (state_of state.value) token) token.at }
{
    let at = token.at;
    match step(alloc, state, token)? {
        TokenStep::Refused => Err(SyntaxFault::Unexpected { at }),
        TokenStep::Deep => Err(SyntaxFault::TooDeep { at }),
        TokenStep::To { nesting, state } => {
            if nesting.0 > limits.nesting {
                Err(SyntaxFault::TooDeep { at })
            } else {
                Ok(state)
            }
        }
    }
}

/// The functions, if there are any and nothing else is open.
fn whole(functions: Vec<Function>, below: Frames, length: u32) -> Result<Vec<Function>, SyntaxFault>
    ensures { IsRead result (at_end (ended_in machine.Top (machine.InProgram (funcs_of functions.items) ∷ frames_of below)) length) }
{
    match below {
        Frames::Empty => {
            if functions.is_empty() {
                Err(SyntaxFault::Unexpected { at: length })
            } else {
                Ok(functions)
            }
        }
        _ => {
            drop(below);
            Err(SyntaxFault::Unexpected { at: length })
        }
    }
}

/// The program of what stands open at the end of a source of that length: its functions, where nothing else does.
fn program_of(frames: Frames, length: u32) -> Result<Vec<Function>, SyntaxFault>
    ensures { IsRead result (at_end (ended_in machine.Top (frames_of frames)) length) }
{
    // Two matches, so that a frame of another kind is let go by one call (`Stack::pop` says why).
    match frames {
        Frames::Inside(frame, below) => match frame {
            Frame::InProgram(functions) => whole(functions, Box::into_inner(below), length),
            _ => {
                drop(frame);
                Err(SyntaxFault::Unexpected { at: length })
            }
        },
        Frames::Empty => Err(SyntaxFault::Unexpected { at: length }),
    }
}

/// The functions where the program may end, in a source of this length.
fn finish(state: Box<State>, length: u32) -> Result<Vec<Function>, SyntaxFault>
    ensures { IsRead result (at_end (ended (state_of state.value)) length) }
{
    let State { mode, frames } = Box::into_inner(state);
    match mode {
        Mode::Head(HeadMode::Top) => program_of(Box::into_inner(frames), length),
        _ => {
            drop(mode);
            Err(SyntaxFault::Unexpected { at: length })
        }
    }
}

/// The functions of a source of this length with these tokens.
pub(crate) fn functions_of(
    alloc: Global,
    limits: Limits,
    length: u32,
    tokens: &[Token],
) -> Result<Vec<Function>, SyntaxFault>
    ensures { IsRead result (read_from limits length tokens.now begun) }
{
    let Ok(mut state) = begin(alloc) else {
        return Err(SyntaxFault::OutOfMemory);
    };
    for token in tokens {
        state = advance(alloc, limits, state, *token)?;
    }
    finish(state, length)
}
