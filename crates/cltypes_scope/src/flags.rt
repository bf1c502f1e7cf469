//! The names of the fences of a barrier (OpenCL 1.2, section 6.12.8).
#![tactic(auto)]

ghost use Rattle.std.specs.Prelude.{◌≡◌, is_some};
ghost use Rattle.clmodel.specs.Barrier as barrier;
ghost use Rattle.clmodel.specs.Barrier.{fence_named};
ghost use Rattle.clmodel.specs.Tree.{term, terms};
ghost use Rattle.clmodel.specs.Typing.Faults.{unless, start, barrier_faults, flags_faults};
ghost use Rattle.clmodel.specs.Typing.Least.{least};
ghost use Rattle.clmodel.specs.declared.type_fault.TypeFault.TheVariants as fault;
ghost use Rattle.cltypes_scope.specs.Names.{meaning_of};

use crate::faults::lesser;
use crate::meaning::Meaning;
use clmodel::barrier::{fence_named, fences_of};
use clmodel::tree::Expression;
use clmodel::type_fault::TypeFault;

/// Whether this is the name of a fence, by its place in a tree's table of names.
pub(crate) fn is_fence(name: u32) -> bool
    ensures { result ≡ is_some (fence_named name) }
{
    fence_named(name).is_some()
}

/// Where an expression begins.
fn start(expression: &Expression) -> u32
    ensures { result ≡ start (term expression.now) }
{
    match expression {
        Expression::Number { at, .. }
        | Expression::Variable { at, .. }
        | Expression::Element { at, .. }
        | Expression::ElementAddress { at, .. }
        | Expression::Dereference { at, .. }
        | Expression::Call { at, .. }
        | Expression::Unary { at, .. }
        | Expression::Cast { at, .. }
        | Expression::Binary { at, .. }
        | Expression::Choice { at, .. } => *at,
    }
}

/// An argument of a barrier that doesn't name its fences.
fn flag_fault(argument: &Expression) -> Option<TypeFault>
    ensures { let e = term argument.now in result ≡ least (unless (is_some (barrier.fences_of e)) (fault.BadBarrierFlags (start e))) }
{
    if fences_of(argument).is_some() {
        None
    } else {
        Some(TypeFault::BadBarrierFlags {
            at: start(argument),
        })
    }
}

/// The arguments of a barrier that don't name its fences.
fn all_flags_fault(arguments: &[Expression]) -> Option<TypeFault>
    ensures { result ≡ least (flags_faults (terms arguments.now)) }
{
    let mut least = None;
    for argument in arguments {
        least = lesser(least, flag_fault(argument));
    }
    least
}

/// Arguments that have to name fences, and don't.
pub(crate) fn flags_fault(called: Meaning<'_>, arguments: &[Expression]) -> Option<TypeFault>
    ensures { result ≡ least (barrier_faults (meaning_of called.entry) (terms arguments.now)) }
{
    match called {
        Meaning::Barrier => all_flags_fault(arguments),
        _ => None,
    }
}
