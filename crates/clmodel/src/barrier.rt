//! The barrier and the names of its fences (OpenCL 1.2, section 6.12.8).
#![tactic(auto)]

ghost use Rattle.std.specs.Prelude.{◌≡◌, map};
ghost use Rattle.clmodel.specs.Barrier as barrier;
ghost use Rattle.clmodel.specs.Tree.{term, terms};

use crate::action::Fences;
use crate::setup::{Predefined, meaning_of_place};
use crate::tree::{Expression, InfixOperator};
use clnum::BinaryOperator;

/// Whether a name is that of the barrier, by its place in a tree's table of names.
pub fn is_barrier(name: u32) -> bool
    ensures { result ≡ barrier.is_barrier name }
{
    match meaning_of_place(name) {
        Some(Predefined::Barrier) => true,
        _ => false,
    }
}

/// What a name fences.
pub fn fence_named(name: u32) -> Option<Fences>
    ensures { result ≡ barrier.fence_named name }
{
    match meaning_of_place(name) {
        Some(Predefined::Fence(fences)) => Some(fences),
        _ => None,
    }
}

/// What an expression fences that is a name.
fn fence(argument: &Expression) -> Option<Fences>
    ensures { result ≡ barrier.fence (term argument.now) }
{
    match argument {
        Expression::Variable { name, .. } => fence_named(*name),
        _ => None,
    }
}

/// Both fences, where one is the local and the other the global one.
fn both_fences(first: Option<Fences>, second: Option<Fences>) -> Option<Fences>
    ensures { result ≡ barrier.both_fences first second }
{
    let first = first?;
    let second = second?;
    if (first.local && second.global) || (first.global && second.local) {
        Some(Fences {
            local: true,
            global: true,
        })
    } else {
        None
    }
}

/// What the argument of a barrier fences: the name of a fence, or the two names joined by `|`.
pub fn fences_of(argument: &Expression) -> Option<Fences>
    ensures { result ≡ barrier.fences_of (term argument.now) }
{
    match argument {
        Expression::Variable { name, .. } => fence_named(*name),
        Expression::Binary {
            operator: InfixOperator::Arithmetic(BinaryOperator::BitOr),
            left,
            right,
            ..
        } => both_fences(fence(left), fence(right)),
        _ => None,
    }
}

/// What a barrier with these arguments fences.
pub fn fences(arguments: &[Expression]) -> Option<Fences>
    ensures { result ≡ barrier.fences (terms arguments.now) }
{
    match arguments {
        [argument] => fences_of(argument),
        _ => None,
    }
}
