//! The names that are known where an expression stands: in the arguments of a barrier those of its fences, too.
#![tactic(auto)]

ghost use Rattle.std.specs.Prelude.{◌≡◌};
ghost use Rattle.clmodel.specs.Typing.Context.{meaning};
ghost use Rattle.clmodel.specs.Typing.Faults.{inside_call};
ghost use Rattle.cltypes_scope.specs.Names.{meaning_of};
ghost use Rattle.cltypes_scope.specs.Fenced.{names_of, AreAlike};

use crate::context::Context;
use crate::flags::is_fence;
use crate::meaning::Meaning;
use clmodel::declaration::Declaration;
use clmodel::tree::VariableType;
use clnum::IntType;

/// An identifier in a source: where it begins, and its name, by its place in the table of names.
#[derive(Clone, Copy)]
pub struct Identifier {
    pub at: u32,
    pub name: u32,
}

/// What is known at a place of a program, and whether the place is in the arguments of a barrier, where the names of
/// fences stand for numbers (OpenCL 1.2, section 6.12.8).
#[derive(Clone, Copy)]
pub struct Names<'a> {
    pub context: &'a Context,
    pub in_barrier: bool,
}

/// What a name stands for among these.
pub(crate) fn meaning_among(names: Names<'_>, name: u32) -> Meaning<'_>
    ensures { meaning_of result ≡ meaning (names_of names.entry) name }
{
    if names.in_barrier && is_fence(name) {
        Meaning::Bound(Declaration::Single(VariableType::Integer(IntType::Uint)))
    } else {
        names.context.meaning(name)
    }
}

/// What is known in the arguments of a call, by what is called.
pub(crate) fn names_inside<'a>(names: Names<'a>, called: Meaning<'_>) -> Names<'a>
    ensures { AreAlike (names_of result) (inside_call (meaning_of called.entry) (names_of names.entry)) }
{
    Names {
        context: names.context,
        in_barrier: names.in_barrier || matches!(called, Meaning::Barrier),
    }
}
