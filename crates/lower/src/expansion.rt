//! The bodies of helpers that were left out, written in their places.
//!
//! No call of a helper is a call of this code: the bodies that are being written stand on a list, each behind the one
//! that calls it. One is taken off only when it is the last and nothing is left of it, so memory bounds how many are
//! begun before the next instruction is written.
#![tactic(auto, using(lower_code::proofs::Drafts::part_whole, crate::proofs::Bodies::left_more))]

ghost use Rattle.std.specs.Prelude.{◌≡◌, ◌++◌, reverse, IfOk, OnOk, OnErr};
ghost use Rattle.lower.specs.Bodies.{left, EachKnown, Opened};
ghost use Rattle.lower_code.specs.Parts.{hole_code, part_code, whole, HoleKnown, IsKnown, AllKnown};

use crate::statements::emit_body;
use lower_code::draft::Draft;
use lower_code::holes::{CodePart, Helpers, Hole};
use regcode::Instruction;
use std::alloc::{AllocError, Global};

/// The parts of the body that a hole leaves out, the last first, with the bodies of the helpers that it calls left out.
fn open<'a>(alloc: Global, hole: &Hole<'a>) -> Result<Vec<CodePart<'a>>, AllocError>
    requires { HoleKnown hole.now }
    ensures code { IfOk result (λ parts. whole (reverse parts.items) ≡ hole_code hole.now) }
    ensures known { IfOk result (λ parts. AllKnown parts.items) }
{
    let helpers = Helpers {
        functions: hole.functions,
        known: hole.known,
        ends: hole.ends,
    };
    let mut body = Draft::new(alloc);
    emit_body(helpers, hole.function, hole.position, &mut body)?;
    Ok(body.into_parts())
}

/// Adds an instruction to the code, or puts the body of a hole behind the bodies. Out of memory, nothing changes.
fn write<'a>(
    alloc: Global,
    part: &CodePart<'a>,
    bodies: &mut Vec<Vec<CodePart<'a>>>,
    code: &mut Vec<Instruction>,
) -> Result<(), AllocError>
    requires known { IsKnown part.now }
    requires bodies { EachKnown bodies.old.items }
    ensures code { OnOk result (code.new.items ++ left (reverse bodies.new.items) ≡ code.old.items ++ (part_code part.now ++ left (reverse bodies.old.items))) }
    ensures bodies { OnOk result (Opened part.now bodies.old.items bodies.new.items) }
    ensures known { OnOk result (EachKnown bodies.new.items) }
    ensures same_code { OnErr result (code.new.items ≡ code.old.items) }
    ensures same_bodies { OnErr result (bodies.new.items ≡ bodies.old.items) }
{
    match part {
        CodePart::Own(instruction) => code.push(*instruction)?,
        CodePart::Left(hole) => bodies.push(open(alloc, hole)?)?,
    }
    Ok(())
}

/// The whole code of parts, the last first. Err if out of memory.
pub fn expand(alloc: Global, parts: Vec<CodePart<'_>>) -> Result<Vec<Instruction>, AllocError>
    requires { AllKnown parts.items }
    ensures { IfOk result (λ code. code.items ≡ whole (reverse parts.entry.items)) }
{
    let mut bodies = Vec::new(alloc);
    bodies.push(parts)?;
    let mut code = Vec::new(alloc);
    while let Some(mut body) = bodies.pop() {
        if let Some(part) = body.pop() {
            bodies.push(body)?;
            write(alloc, &part, &mut bodies, &mut code)?;
        }
    }
    Ok(code)
}
